// The answers of the builder calls, and what the calls are: what they add, their tests, what they write, what lists of them leave, and the laws of that. There is no
// code here: crates `builder_answers`, `builder_areas` and `builder_calls` have it.
#![tactic(auto)]

// What a call adds to each count of the plan.
#[derive(Clone, Copy, Debug, PartialEq, Eq)]
pub struct Growth {
    pub buffers: Option<usize>,
    pub indices: Option<usize>,
    pub coefficients: Option<usize>,
    pub nodes: Option<usize>,
    pub steps: Option<usize>,
    pub words: Option<usize>,
}

impl Growth {
    // Of a call that adds nothing.
    pub const NONE: Growth = Growth {
        buffers: None,
        indices: None,
        coefficients: None,
        nodes: None,
        steps: None,
        words: None,
    };
}

// How many places each area has that a call is lent.
// Of areas, where `Limits` of crate `plan` is of counts.
#[derive(Clone, Copy, Debug, PartialEq, Eq)]
pub struct Lengths {
    pub indices: usize,
    pub coefficients: usize,
    pub node_floats: usize,
    pub node_words: usize,
    pub step_words: usize,
}

impl Lengths {
    // Of a call that is lent no area.
    pub const NONE: Lengths = Lengths {
        indices: 0,
        coefficients: 0,
        node_floats: 0,
        node_words: 0,
        step_words: 0,
    };
}
