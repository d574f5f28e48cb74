// The answers of the calls in C's form. A reply has a `Status`, beside the values of the answer where it has any; those of a refused call are 0 and
// false. `specs/Replies.antt` gives the reply for each answer.
#![tactic(auto)]

ghost use Rattle.std.specs.Prelude.{◌≡◌};
ghost use Rattle.mixer_replies.specs.Replies.{status_of, plan_reply, span_reply, node_reply, buffer_reply, count_reply, clean_reply, gains_reply, stereo_reply};

use plan::{Plan, Span};
use refusal::{Answer, Refusal};

// 0 and 0 where the call was accepted, else the refusal's number and place.
// The two numbers of a `Span` mean another thing.
#[repr(C)]
#[derive(Clone, Copy)]
pub struct Status {
    pub number: u32,
    pub place: u32,
}

// The record after a builder call, which is as it was where the call is refused.
#[repr(C)]
#[derive(Clone, Copy)]
pub struct PlanReply {
    pub status: Status,
    pub plan: Plan,
}

#[repr(C)]
#[derive(Clone, Copy)]
pub struct SpanReply {
    pub status: Status,
    pub plan: Plan,
    pub span: Span,
}

#[repr(C)]
#[derive(Clone, Copy)]
pub struct NodeReply {
    pub status: Status,
    pub plan: Plan,
    pub node: u32,
}

#[repr(C)]
#[derive(Clone, Copy)]
pub struct BufferReply {
    pub status: Status,
    pub buffer: u32,
}

// How many entries of a lent area were written: output samples, the samples of a part, or inputs; for all source lists, how many slots there are.
#[repr(C)]
#[derive(Clone, Copy)]
pub struct CountReply {
    pub status: Status,
    pub count: usize,
}

// C has no Result: hence a status beside the value.
#[repr(C)]
#[derive(Clone, Copy)]
pub struct CleanReply {
    pub status: Status,
    pub clean: bool,
}

#[repr(C)]
#[derive(Clone, Copy)]
pub struct GainsReply {
    pub status: Status,
    pub left: f64,
    pub right: f64,
}

#[repr(C)]
#[derive(Clone, Copy)]
pub struct StereoReply {
    pub status: Status,
    pub left_from_left: f64,
    pub left_from_right: f64,
    pub right_from_left: f64,
    pub right_from_right: f64,
}

pub fn status_of<T: Copy>(answer: Result<T, Refusal>) -> Status
    ensures { result ≡ status_of answer }
{
    match answer {
        Ok(_) => Status {
            number: 0,
            place: 0,
        },
        Err(r) => Status {
            number: r.reason.number(),
            place: r.place.unwrap_or(0),
        },
    }
}

pub fn plan_reply(plan: Plan, answer: Answer) -> PlanReply
    ensures { result ≡ plan_reply plan answer }
{
    PlanReply {
        status: status_of(answer),
        plan,
    }
}

pub fn span_reply(plan: Plan, answer: Result<Span, Refusal>) -> SpanReply
    ensures { result ≡ span_reply plan answer }
{
    let span = answer.unwrap_or(Span { start: 0, len: 0 });
    SpanReply {
        status: status_of(answer),
        plan,
        span,
    }
}

pub fn node_reply(plan: Plan, answer: Result<u32, Refusal>) -> NodeReply
    ensures { result ≡ node_reply plan answer }
{
    NodeReply {
        status: status_of(answer),
        plan,
        node: answer.unwrap_or(0),
    }
}

// Each reply is a struct of include/mixer.h: hence a function for each.
pub fn buffer_reply(answer: Result<u32, Refusal>) -> BufferReply
    ensures { result ≡ buffer_reply answer }
{
    BufferReply {
        status: status_of(answer),
        buffer: answer.unwrap_or(0),
    }
}

pub fn count_reply(answer: Result<usize, Refusal>) -> CountReply
    ensures { result ≡ count_reply answer }
{
    CountReply {
        status: status_of(answer),
        count: answer.unwrap_or(0),
    }
}

pub fn clean_reply(answer: Result<bool, Refusal>) -> CleanReply
    ensures { result ≡ clean_reply answer }
{
    CleanReply {
        status: status_of(answer),
        clean: answer.unwrap_or(false),
    }
}

pub fn gains_reply(answer: Result<(f64, f64), Refusal>) -> GainsReply
    ensures { result ≡ gains_reply answer }
{
    let (left, right) = answer.unwrap_or((0.0, 0.0));
    GainsReply {
        status: status_of(answer),
        left,
        right,
    }
}

pub fn stereo_reply(answer: Result<[f64; 4], Refusal>) -> StereoReply
    ensures { result ≡ stereo_reply answer }
{
    let matrix = answer.unwrap_or([0.0; 4]);
    StereoReply {
        status: status_of(answer),
        left_from_left: matrix[0],
        left_from_right: matrix[1],
        right_from_left: matrix[2],
        right_from_right: matrix[3],
    }
}
