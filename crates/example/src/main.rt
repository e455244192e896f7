// The program on the journal of RULES K17. The stored reply is the one that stands there.
#![tactic(auto)]

fn main(rt: HostRuntime) {
    serve::program(rt.stdin(), rt.stdout(), rt.stderr());
}
