// Reads lines `air HEX` and `ground HEX` on standard input and tells a person what each PDU says, or why it is refused.
#![tactic(auto)]

use pdu_words::lines::Task;

fn main(rt: HostRuntime) {
    pdu_words::lines::answer(rt.stdin(), Task::Tell);
}
