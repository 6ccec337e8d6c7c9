// Plays a flight log from standard input and writes the trace of its records on standard output.
#![tactic(auto)]

fn main(rt: HostRuntime) {
    log_bench::player::play(rt.stdin());
}
