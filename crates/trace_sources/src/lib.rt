// The source sets of a plan: the inputs behind each buffer and behind each slot, by one walk of its steps.
// All of it is for the crates above and not the interface: a function that has a `requires` says in its comment what it takes.
#![tactic(auto)]

mod buffer_sets;
mod walk;

pub use walk::behind;
