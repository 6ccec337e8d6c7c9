// Plays a flight script from standard input, both ends of a link against each other, and writes what each did on standard output.
#![tactic(auto)]

fn main(rt: HostRuntime) {
    flight_bench::player::play(rt.stdin());
}
