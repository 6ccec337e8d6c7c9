// Plays an air script from standard input, for the aircraft's end of a link, and writes its trace on standard output.
#![tactic(auto)]

fn main(rt: HostRuntime) {
    air_bench::player::play(rt.stdin());
}
