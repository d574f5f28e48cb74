// A run of a plan over one block: what it answers and leaves, and what lists of settings and runs leave, with the laws of both. Of code there is only
// what a run is lent to read: crates `run_kinds` and `run_process` have the rest.
#![tactic(auto)]

use plan::{Plan, Span};

// What a run only reads.
#[derive(Clone, Copy)]
pub struct Given<'a> {
    pub plan: Plan,
    pub indices: &'a [u32],
    pub coefficients: &'a [f32],
    pub steps: &'a [u32],
    pub directory: &'a [u32],
    pub samples: &'a [f32],
}

// What a step names that has a node: this one, and where it takes from and puts to.
#[derive(Clone, Copy)]
pub struct Wires {
    pub node: u32,
    pub src: Span,
    pub dst: Span,
}
