// Reads lines `air HEX` and `ground HEX` on standard input and answers each with `ok HEX`, the octets written back from the value
// read, or `refused N`. A line that is none of these, or is over 4,096 octets, is refused with 17.
#![tactic(auto)]

use pdu_words::lines::Task;

fn main(rt: HostRuntime) {
    pdu_words::lines::answer(rt.stdin(), Task::Code);
}
