// The loops of Patch, Gain, Clear and Output over the buffers of one area; crates `mix_matrix` and `mix_send` have Matrix and Send. Ports
// those of `Plan::process` in src/engine/plan.rs.
// All of it is for the crates above and not the interface: a function that has a `requires` says in its comment what it takes.
#![tactic(auto)]

mod buffers;
mod gains;

pub use buffers::{append, clear, copy_buffer, fill_buffer};
pub use gains::gain;
