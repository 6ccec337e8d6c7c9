// What a host in C calls, as include/adsc.h declares it: each function is that of `adschost`, with its clauses, under its name.
#![tactic(auto)]

pub mod blocks;
pub mod calls;
pub mod messages;
