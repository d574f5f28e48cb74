// What each builder call adds to the counts of a plan, and the tests of a growth: the limits and the lengths of the areas that it is lent.
ghost use Rattle.std.specs.Prelude.{◌≡◌, ◌≤◌, [], Ok, Some};
ghost use Rattle.refusal.specs.Tests.{first};
ghost use Rattle.builder.specs.Growth.{over, grows_over, limit_tests, too_short, grows_past, growth_tests, buffers_growth, coefficients_growth, node_growth, step_growth, finish_growth};

use builder::{Growth, Lengths};
use node::Node;
use plan::{Limits, Plan};
use refusal::{Answer, Reason};

// A count that n more bring above a limit, or an area of `limit` places past its end; worked out without overflow.
pub fn past(limit: usize, count: usize, n: usize) -> bool
    ensures { result ≡ over limit count (Some n) }
{
    limit < count || limit - count < n
}

fn over(limit: usize, count: usize, change: Option<usize>) -> bool
    ensures { result ≡ over limit count change }
{
    change.is_some_and(|n| past(limit, count, n))
}

fn grows_over(limits: Limits, plan: Plan, growth: Growth) -> bool
    ensures { result ≡ grows_over limits plan growth }
{
    over(limits.buffers, plan.buffers, growth.buffers)
        | over(limits.indices, plan.indices, growth.indices)
        | over(limits.coefficients, plan.coefficients, growth.coefficients)
        | over(limits.nodes, plan.nodes, growth.nodes)
        | over(limits.steps, plan.steps, growth.steps)
}

// Number 5.
pub fn limits_answer(limits: Limits, plan: Plan, growth: Growth) -> Answer
    ensures { result ≡ first (limit_tests limits plan growth) (Ok tt) }
{
    if grows_over(limits, plan, growth) {
        return Err(Reason::OverLimit.into());
    }
    Ok(())
}

// An area of `len` places, `each` of them for an entry, is too short for the entries after the change. Requires at least one for each.
#[tactic(auto, using(plan::proofs::Plans::shorter_each))]
fn too_short(len: usize, count: usize, change: Option<usize>, each: usize) -> bool
    requires { 1 ≤ each }
    ensures { result ≡ too_short len count change each }
{
    change.is_some_and(|n| past(len / each, count, n))
}

// Number 2, with areas of these lengths; one that a call adds nothing to is of no matter. Inlined, here and below, so that a call which names one area asks
// of that one alone.
#[inline(always)]
pub fn grows_past(plan: Plan, growth: Growth, lent: Lengths) -> bool
    ensures { result ≡ grows_past plan growth lent }
{
    too_short(lent.indices, plan.indices, growth.indices, 1)
        | too_short(lent.coefficients, plan.coefficients, growth.coefficients, 1)
        | too_short(lent.node_floats, plan.nodes, growth.nodes, Node::FLOATS)
        | too_short(lent.node_words, plan.nodes, growth.nodes, Node::WORDS)
        | too_short(lent.step_words, plan.words, growth.words, 1)
}

// Numbers 5 and 2 of a growth, with areas of these lengths.
#[inline(always)]
pub fn growth_answer(limits: Limits, plan: Plan, growth: Growth, lent: Lengths) -> Answer
    ensures { result ≡ first (growth_tests limits plan growth lent []) (Ok tt) }
{
    limits_answer(limits, plan, growth)?;
    if grows_past(plan, growth, lent) {
        return Err(Reason::ShortArea.into());
    }
    Ok(())
}

// Here and below a function for each call, since each is a definition of its own.
pub fn buffers_growth(n: usize) -> Growth
    ensures { result ≡ buffers_growth n }
{
    Growth {
        buffers: Some(n),
        indices: Some(n),
        ..Growth::NONE
    }
}

pub fn coefficients_growth(n: usize) -> Growth
    ensures { result ≡ coefficients_growth n }
{
    Growth {
        coefficients: Some(n),
        ..Growth::NONE
    }
}

pub fn node_growth() -> Growth
    ensures { result ≡ node_growth }
{
    Growth {
        nodes: Some(1),
        ..Growth::NONE
    }
}

// A step of n words.
pub fn step_growth(n: usize) -> Growth
    ensures { result ≡ step_growth n }
{
    Growth {
        steps: Some(1),
        words: Some(n),
        ..Growth::NONE
    }
}

pub fn finish_growth() -> Growth
    ensures { result ≡ finish_growth }
{
    Growth {
        buffers: Some(0),
        ..Growth::NONE
    }
}
