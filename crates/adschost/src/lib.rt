// The link for a host in C or Rust: include/adsc.h declares the functions, and `adschost_c` exports them. Each answers with 0 or a refusal's number, and a refused
// one leaves every lent buffer as it was.
#![tactic(auto)]

pub mod blocks;
pub mod calls;
pub mod messages;
