// The loops over the samples of one piece of a buffer, which lies in a local; and a whole buffer copied or filled.
// All of it is for the crates above and not the interface: a function that has a `requires` says in its comment what it takes.
#![tactic(auto)]

mod mixing;
mod samples;

pub use mixing::{Add, AddAtRest, Load, Mixing, Scale, StartAtRest, Weigh};
pub use samples::{PIECE, copy, fill, is_silent, later, mix_samples, store};
