// The plan check, which is added to what the Rust has.
#![tactic(auto)]

ghost use Rattle.std.specs.Prelude.{◌≡◌, false, [], ◌≤◌, Ok, Some};
ghost use Rattle.refusal.specs.Tests.{first, refusal};
ghost use Rattle.plan.specs.Limits.{unit_limits};
ghost use Rattle.plan.specs.Words.{decoded};
ghost use Rattle.plan.specs.Areas.{short_lists, areas as lists};
ghost use Rattle.plan.specs.Check.{step_tests, steps_tests, checked, check_plan};
ghost use Rattle.plan.specs.Sound.{steps_of};
ghost use Rattle.plan.specs.Loops.{channels_of, counted};
ghost use Rattle.plan_areas.specs.Lent.{areas_of};

use plan::{Plan, Step};
use plan_areas::{
    Areas, ascend, bad_block, id_twice, over_limits, short_areas, short_lists, some_from,
};
use plan_reader::read_step;
use plan_steps::indices::Indices;
use plan_steps::{step_channels, step_outside, step_shares, step_wide};
use refusal::{Answer, Reason, Refusal};

// A refusal at a step. Cold and not inlined: the loop over the steps, which nearly always goes on, then keeps its registers for the steps.
#[cold]
#[inline(never)]
fn refused(reason: Reason, place: u32) -> Refusal
    ensures { result ≡ refusal reason (Some place) }
{
    Refusal::at(reason, place)
}

// One step that was read, at its place from 1. One call of `refused` for the three reasons: each call takes stores in every turn of the loop.
fn check_step(indices: Indices<'_>, step: Step, place: u32) -> Answer
    ensures { result ≡ first (step_tests indices.entry.plan indices.entry.list.now place (Some (step, 0)) (λ _. [])) (Ok tt) }
{
    let reason = if step_outside(indices.plan, step) {
        Reason::OutsideTable
    } else if step_wide(step) {
        Reason::TooManyValues
    } else if step_shares(indices, step) {
        Reason::SharedBuffer
    } else {
        return Ok(());
    };
    Err(refused(reason, place))
}

// The steps of the step words, each in turn. Requires steps within their limit.
// A record begins where the one before it ends: hence its place beside the count.
fn check_steps(indices: Indices<'_>, words: &[u32]) -> Result<usize, Refusal>
    requires { indices.plan.steps ≤ unit_limits.steps }
    ensures { result ≡ counted (first (steps_tests indices.entry.plan indices.entry.list.now words.now indices.entry.plan.steps 0 1) (Ok tt)) (channels_of (decoded words.now indices.entry.plan.steps)) }
{
    let mut total = 0;
    let mut at = 0;
    for i in 0..indices.plan.steps {
        let place = (i + 1) as u32;
        let Some((step, next)) = read_step(words, at) else {
            return Err(refused(Reason::UnreadableStep, place));
        };
        check_step(indices, step, place)?;
        total += step_channels(step) as usize;
        at = next;
    }
    Ok(total)
}

// The plan check of a call that found out by itself whether one of its areas is too short, with the channels of the steps. Requires that `short`
// is true where one of these three lists is too short.
#[tactic(auto, unfolding(plan::specs::Check::checked))]
fn check_counting(
    plan: Plan,
    short: bool,
    indices: &[u32],
    node_words: &[u32],
    steps: &[u32],
) -> Result<usize, Refusal>
    requires { short ≡ false → short_lists plan indices.now node_words.now steps.now ≡ false }
    ensures { result ≡ counted (checked plan short indices.now node_words.now steps.now) (channels_of (steps_of plan steps.now)) }
{
    if bad_block(plan.block) {
        return Err(Reason::BlockLength.into());
    }
    if over_limits(plan) {
        return Err(Reason::OverLimit.into());
    }
    if short {
        return Err(Reason::ShortArea.into());
    }
    let entries = plan.indices;
    if some_from(plan.buffers, &indices[..entries]) {
        return Err(Reason::OutsideTable.into());
    }
    if id_twice(node_words, plan.nodes) {
        return Err(Reason::IdTaken.into());
    }
    let ascending = ascend(indices, entries, 1);
    let words = plan.words;
    check_steps(
        Indices {
            plan,
            list: indices,
            ascending,
        },
        &steps[..words],
    )
}

// The plan check of a call that is lent the index list, the node words and the step words.
pub fn check_lists(plan: Plan, indices: &[u32], node_words: &[u32], steps: &[u32]) -> Answer
    ensures { result ≡ checked plan (short_lists plan indices.now node_words.now steps.now) indices.now node_words.now steps.now }
{
    let short = short_lists(plan, indices, node_words, steps);
    check_counting(plan, short, indices, node_words, steps)?;
    Ok(())
}

// The plan check of a call that is lent all six areas, with the channels of the steps.
pub fn count_channels(plan: Plan, areas: &Areas<'_>) -> Result<usize, Refusal>
    ensures { result ≡ counted (check_plan plan (areas_of areas.now)) (channels_of (steps_of plan areas.now.steps.now)) }
{
    let short = short_areas(plan, areas);
    check_counting(plan, short, areas.indices, areas.node_words, areas.steps)
}

// The plan check as a call of its own.
pub fn check_plan(plan: Plan, areas: &Areas<'_>) -> Answer
    ensures { result ≡ check_plan plan (lists areas.now.indices.now areas.now.coefficients.now areas.now.node_floats.now areas.now.node_words.now areas.now.steps.now areas.now.buffers.now) }
{
    count_channels(plan, areas)?;
    Ok(())
}
