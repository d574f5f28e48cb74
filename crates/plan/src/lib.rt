// The plan record, its steps, and the limits. Ports `Span` and `Step` of src/engine/plan.rs. What the step words say and what the plan check accepts
// are defined here, with the laws of both. There is no code here: crates `plan_reader`, `plan_steps`, `plan_areas` and `plan_check` have it.
#![tactic(auto)]

// A plan's block and counts, which go with its lent areas. `words` counts the step words.
#[repr(C)]
#[derive(Clone, Copy, Debug, PartialEq, Eq)]
pub struct Plan {
    pub block: usize,
    pub buffers: usize,
    pub indices: usize,
    pub coefficients: usize,
    pub nodes: usize,
    pub steps: usize,
    pub words: usize,
}

// The most that a plan may have of each; step words have no limit of their own.
#[derive(Clone, Copy, Debug, PartialEq, Eq)]
pub struct Limits {
    pub buffers: usize,
    pub indices: usize,
    pub coefficients: usize,
    pub nodes: usize,
    pub steps: usize,
}

// A run of entries in the index list or in the coefficients.
#[repr(C)]
#[derive(Clone, Copy, Debug, PartialEq, Eq)]
pub struct Span {
    pub start: u32,
    pub len: u32,
}

// One step of a plan. Buffer lists are spans of the index list.
#[derive(Clone, Copy, Debug, PartialEq, Eq)]
pub enum Step {
    Patch {
        input: u32,
        channel: u32,
        dst: u32,
    },
    Gain {
        node: u32,
        src: Span,
        dst: Span,
    },
    Matrix {
        node: u32,
        src: Span,
        dst: Span,
    },
    Clear {
        dst: Span,
    },
    Send {
        node: u32,
        src: Span,
        dst: Span,
        coefficients: Span,
    },
    Output {
        src: Span,
        slot: u32,
    },
}

impl Plan {
    pub const MAX_BLOCK: usize = 1_024;

    pub const MAX_BUFFERS: usize = 256;

    pub const MAX_INDICES: usize = 1_024;

    pub const MAX_COEFFICIENTS: usize = 1_024;

    pub const MAX_NODES: usize = 64;

    pub const MAX_STEPS: usize = 512;
}

impl Limits {
    // The unit's.
    pub const UNIT: Limits = Limits {
        buffers: Plan::MAX_BUFFERS,
        indices: Plan::MAX_INDICES,
        coefficients: Plan::MAX_COEFFICIENTS,
        nodes: Plan::MAX_NODES,
        steps: Plan::MAX_STEPS,
    };
}

impl Step {
    // How many there are, and no kinds: inputs are 0 to 255, slots 0 to 31.
    pub const INPUTS: u32 = 256;

    pub const SLOTS: u32 = 32;

    // The word that the record of each step begins with. Its bits say which fields follow, as document 01 lays them out: it numbers no kind.
    pub const PATCH_MAP: u32 = 7;

    pub const GAIN_MAP: u32 = 248;

    pub const MATRIX_MAP: u32 = 2296;

    pub const CLEAR_MAP: u32 = 192;

    pub const SEND_MAP: u32 = 1016;

    pub const OUTPUT_MAP: u32 = 1072;
}
