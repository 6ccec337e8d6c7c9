// Unaligned PER: formats that carry their laws, the cursor that reads, the pen that writes. Knows nothing of ADS.
#![tactic(auto)]

pub mod cursor;
pub mod part;
pub mod pen;
pub mod read_bits;
mod write_bits;
