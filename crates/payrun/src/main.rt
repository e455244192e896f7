// The program: replies to the journal on standard input. Its stored run is the pay run of March: 31 steps joined by pipes, and an open that is refused.
#![tactic(auto)]

fn main(rt: HostRuntime) {
    serve::program(rt.stdin(), rt.stdout(), rt.stderr());
}
