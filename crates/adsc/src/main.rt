// Plays a bench script from standard input and writes its trace on standard output.
#![tactic(auto)]

fn main(rt: HostRuntime) {
    bench::player::play(rt.stdin());
}
