// The program on an empty journal (RULES K16).
#![tactic(auto)]

fn main(rt: HostRuntime) {
    serve::program(rt.stdin(), rt.stdout(), rt.stderr());
}
