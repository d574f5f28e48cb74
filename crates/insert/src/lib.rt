// An insert point: what its caller names, and what the one builder call for it is: the single builder calls that it is made of, what they add, its tests, what it
// hands back and leaves, and the laws of that. There is no code here: crates `insert_answers` and `insert_calls` have it.
#![tactic(auto)]

use plan::Span;

// The ids of an insert's nodes, by the Rust's names and in the order in which the nodes are made. Without a return that of the send alone is read.
#[repr(C)]
#[derive(Clone, Copy)]
pub struct InsertIds {
    pub send: u32,
    pub ret: u32,
    pub dry: u32,
    pub wet: u32,
    pub dryin: u32,
    pub wetin: u32,
}

// The two flags below are fields of the C interface (include/mixer.h), which has no Option.

// What comes back to an insert: an input and its first channel, both counted from 1, at a linear gain. At bypass the dry signal is heard in its place.
#[repr(C)]
#[derive(Clone, Copy)]
pub struct InsertReturn {
    pub input: u32,
    pub channel: u32,
    pub gain: f32,
    pub bypass: bool,
}

// An insert on the buffers `src`: they go at a linear gain to the Output of a slot. Without a return `back` is not read.
#[repr(C)]
#[derive(Clone, Copy)]
pub struct InsertPoint {
    pub format: u32,
    pub src: Span,
    pub gain: f32,
    pub slot: u32,
    pub ramp: u32,
    pub ids: InsertIds,
    pub returns: bool,
    pub back: InsertReturn,
}
