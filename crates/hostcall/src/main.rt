// Makes the calls of a host in C that lines on standard input ask for, and answers each with what it gave.
// A line is `WORD LINK OCTETS OUT N N ..`: the C name without `adsc_`, the octets of the link record, of what comes and of the output in hexadecimal (each
// may be empty, its space stays), and numbers. The answer is `NUMBER LENGTH LINK OUT`: the result, the length that a write told (999 before it), and both lent
// buffers after the call. A call of the flight log has its block in the place of the link, and `block_play` in that of what comes; a kind is one octet, of a
// larger number the lowest. Any other line, or one over 4,096 octets, is `refused 17`.
#![tactic(auto)]

fn main(rt: HostRuntime) {
    host_lines::lines::answer(rt.stdin());
}
