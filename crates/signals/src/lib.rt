// The signals that the program `show` plays, and the digest of what it writes.
#![tactic(auto)]

pub mod digest;
pub mod inputs;

// In samples.
pub const BLOCK: usize = 256;
