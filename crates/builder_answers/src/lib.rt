// The tests of the builder calls but `buffer`, in their order; those that can meet number 5 are handed the limits. None writes.
// All of it is for the crates above and not the interface: a function that has a `requires` says in its comment what it takes.
#![tactic(auto)]

pub mod limits;

ghost use Rattle.std.specs.Prelude.{◌≡◌, ◌+◌, ◌≤◌};
ghost use Rattle.plan.specs.Words.{max_fields};
ghost use Rattle.builder.specs.Calls.{new_answer, buffers_answer, coefficients_answer, node_answer, record_length, step_answer, finish_answer};

use builder::Lengths;
use limits::{
    buffers_growth, coefficients_growth, finish_growth, growth_answer, limits_answer, node_growth,
    past, step_growth,
};
use node::Node;
use plan::{Limits, Plan};
use refusal::{Answer, Reason};

#[tactic(auto, unfolding(builder::specs::Calls::new_answer))]
pub fn new_answer(block: usize) -> Answer
    ensures { result ≡ new_answer block }
{
    if plan_areas::bad_block(block) {
        return Err(Reason::BlockLength.into());
    }
    Ok(())
}

// A length here is that of a lent area whose entries are not read: hence it comes without the area. What this call and the next ask in common is `growth_answer`.
#[tactic(auto, unfolding(builder::specs::Calls::buffers_answer))]
pub fn buffers_answer(limits: Limits, plan: Plan, n: usize, len: usize) -> Answer
    ensures { result ≡ buffers_answer limits plan n len }
{
    let lent = Lengths {
        indices: len,
        ..Lengths::NONE
    };
    growth_answer(limits, plan, buffers_growth(n), lent)
}

#[tactic(auto, unfolding(builder::specs::Calls::coefficients_answer))]
pub fn coefficients_answer(limits: Limits, plan: Plan, n: usize, len: usize) -> Answer
    ensures { result ≡ coefficients_answer limits plan n len }
{
    let lent = Lengths {
        coefficients: len,
        ..Lengths::NONE
    };
    growth_answer(limits, plan, coefficients_growth(n), lent)
}

// A node of n values, with an area of `floats` floats. The parameters are those of the call that it answers for.
#[tactic(auto, using(builder::proofs::Uses::node_past), unfolding(builder::specs::Calls::node_answer))]
pub fn node_answer(
    limits: Limits,
    plan: Plan,
    id: u32,
    n: usize,
    ramp: u32,
    safe: u32,
    floats: usize,
    words: &[u32],
) -> Answer
    ensures { result ≡ node_answer limits plan id n ramp safe floats words.now }
{
    limits_answer(limits, plan, node_growth())?;
    let nodes = plan.nodes;
    if plan_areas::shorter(floats, nodes + 1, Node::FLOATS)
        | plan_areas::shorter(words.len(), nodes + 1, Node::WORDS)
    {
        return Err(Reason::ShortArea.into());
    }
    if n > Node::MAX {
        return Err(Reason::TooManyValues.into());
    }
    if plan_areas::id_among(words, nodes, id) {
        return Err(Reason::IdTaken.into());
    }
    if ramp > Node::MAX_RAMP {
        return Err(Reason::LongRamp.into());
    }
    if safe > Node::MAX_SAFE {
        return Err(Reason::BadNode.into());
    }
    Ok(())
}

// The words of the record at the front of `words`: its map and its fields, or none where there is no map.
pub fn record_length(words: &[u32]) -> usize
    ensures { (result ≡ record_length words.now) × (result ≤ 1 + max_fields) }
{
    words
        .first()
        .map_or(0, |map| 1 + plan_reader::field_count(*map))
}

#[tactic(auto, using(builder::proofs::Uses::step_past), unfolding(builder::specs::Calls::step_answer))]
pub fn step_answer(limits: Limits, plan: Plan, words: &[u32], len: usize) -> Answer
    ensures { result ≡ step_answer limits plan words.now len }
{
    let n = record_length(words);
    limits_answer(limits, plan, step_growth(n))?;
    if past(len, plan.words, n) {
        return Err(Reason::ShortArea.into());
    }
    let Some((step, _)) = plan_reader::read_step(words, 0) else {
        return Err(Reason::UnreadableStep.into());
    };
    if plan_steps::step_wide(step) {
        return Err(Reason::TooManyValues.into());
    }
    Ok(())
}

#[tactic(auto, unfolding(builder::specs::Calls::finish_answer))]
pub fn finish_answer(limits: Limits, plan: Plan, len: usize) -> Answer
    ensures { result ≡ finish_answer limits plan len }
{
    if plan_areas::bad_block(plan.block) {
        return Err(Reason::BlockLength.into());
    }
    limits_answer(limits, plan, finish_growth())?;
    if plan_areas::shorter(len, plan.buffers, plan.block) {
        return Err(Reason::ShortArea.into());
    }
    Ok(())
}
