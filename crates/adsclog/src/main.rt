// Plays a bench script from standard input and writes the flight log of its accepted calls on standard output.
#![tactic(auto)]

fn main(rt: HostRuntime) {
    log_script::recorder::record(rt.stdin());
}
