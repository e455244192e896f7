// The program on a journal of 65,537 bytes, one too many (RULES R14, P14).
#![tactic(auto)]

fn main(rt: HostRuntime) {
    serve::program(rt.stdin(), rt.stdout(), rt.stderr());
}
