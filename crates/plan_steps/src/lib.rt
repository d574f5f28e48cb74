// The tests of a step that was read (numbers 4, 7 and 6), the buffers that its spans name, and the channels that it appends to the output.
// All of it is for the crates above and not the interface: a function that has a `requires` says in its comment what it takes.
#![tactic(auto)]

pub mod indices;

ghost use Rattle.std.specs.Prelude.{◌≡◌, false, ◌||◌, ℕ, ◌+◌, ◌*◌, ◌<◌, ◌≤◌, length};
ghost use Rattle.lists.specs.Entries.{some_from, has, meet};
ghost use Rattle.lists.specs.Parts.{part};
ghost use Rattle.sets.specs.Sets.{member, set_size};
ghost use Rattle.plan.specs.Check.{past, named, outside, used, first_of, too_wide, shares};
ghost use Rattle.plan.specs.Sound.{Within};
ghost use Rattle.plan.specs.Loops.{span_before, channels};

use indices::Indices;
use node::Node;
use plan::{Plan, Span, Step};
use sets::Set;

// A span past the end of a table of n entries.
pub fn span_past(n: usize, span: Span) -> bool
    ensures { result ≡ past n span }
{
    (span.start as usize) + (span.len as usize) > n
}

// The values between two spans: a row for each entry of dst, a column for each of src.
fn values(src: Span, dst: Span) -> usize
    ensures { result ≡ src.len * dst.len }
{
    src.len as usize * dst.len as usize
}

// The channels that a Gain uses.
pub fn used(src: Span, dst: Span) -> u32
    ensures { result ≡ used src dst }
{
    src.len.min(dst.len)
}

// The first n entries of a span.
pub fn first_of(n: u32, span: Span) -> Span
    ensures { result ≡ first_of n span }
{
    Span {
        start: span.start,
        len: n,
    }
}

// Number 4.
// Here and below one match over the closed enum: a closure for each kind is no plainer.
#[tactic(auto, unfolding(plan::specs::Check::outside_by))]
pub fn step_outside(plan: Plan, step: Step) -> bool
    ensures { result ≡ outside plan step }
{
    match step {
        Step::Patch { input, dst, .. } => {
            (input >= Step::INPUTS) | (dst as usize >= plan.buffers)
        }
        Step::Gain { node, src, dst } | Step::Matrix { node, src, dst } => {
            (node as usize >= plan.nodes)
                | span_past(plan.indices, src)
                | span_past(plan.indices, dst)
        }
        Step::Clear { dst } => span_past(plan.indices, dst),
        Step::Send {
            node,
            src,
            dst,
            coefficients,
        } => {
            (node as usize >= plan.nodes)
                | span_past(plan.indices, src)
                | span_past(plan.indices, dst)
                | span_past(plan.coefficients, coefficients)
                | ((coefficients.len as usize) < values(src, dst))
        }
        Step::Output { src, slot } => span_past(plan.indices, src) | (slot >= Step::SLOTS),
    }
}

// Number 7.
#[tactic(auto, unfolding(plan::specs::Check::too_wide))]
pub fn step_wide(step: Step) -> bool
    ensures { result ≡ too_wide step }
{
    match step {
        Step::Gain { src, dst, .. } => used(src, dst) as usize > Node::MAX,
        Step::Matrix { src, dst, .. } => values(src, dst) > Node::MAX,
        Step::Patch { .. } | Step::Clear { .. } | Step::Send { .. } | Step::Output { .. } => false,
    }
}

// The channels that a step appends to the output.
pub fn step_channels(step: Step) -> u32
    ensures { (result ≡ channels step) × (result < 4294967296) }
{
    match step {
        Step::Output { src, .. } => src.len,
        Step::Patch { .. }
        | Step::Gain { .. }
        | Step::Matrix { .. }
        | Step::Send { .. }
        | Step::Clear { .. } => 0,
    }
}

// The numbers that a span names: of buffers in the index list, or the weights of a Send. Requires a span within the list.
pub fn numbers<T: Copy>(list: &[T], span: Span) -> &[T]
    requires { span.start + span.len ≤ length list.now }
    ensures { result.now ≡ part span.start span.len list.now }
{
    let start = span.start as usize;
    let end = start + span.len as usize;
    &list[start..end]
}

// The entries of a list. Requires entries that a set can have.
pub fn set_of(list: &[u32]) -> Set
    requires { some_from set_size list.now ≡ false }
    ensures { (j : ℕ) → member result j ≡ has list.now j }
{
    let mut set = Set::empty();
    for entry in list {
        set = set.with(*entry);
    }
    set
}

// An entry of one list is in the other. Requires entries of the second that a set can have.
fn lists_meet(xs: &[u32], ys: &[u32]) -> bool
    requires { some_from set_size ys.now ≡ false }
    ensures { result ≡ meet xs.now ys.now }
{
    let set = set_of(ys);
    xs.iter().any(|x| set.has(*x))
}

// One span ends before the other starts.
fn spans_apart(src: Span, dst: Span) -> bool
    ensures { result ≡ (span_before src dst || span_before dst src) }
{
    (src.start as usize + src.len as usize <= dst.start as usize)
        | (dst.start as usize + dst.len as usize <= src.start as usize)
}

// Some buffer is in both spans. Requires spans within the index list.
fn spans_meet(indices: Indices<'_>, src: Span, dst: Span) -> bool
    requires { Within indices.plan.indices src × Within indices.plan.indices dst }
    ensures { result ≡ meet (named indices.entry.list.now src) (named indices.entry.list.now dst) }
{
    // A list that ascends names no buffer twice.
    if indices.ascending & spans_apart(src, dst) {
        return false;
    }
    lists_meet(numbers(indices.list, src), numbers(indices.list, dst))
}

// Number 6. Requires a step that is inside its tables.
#[tactic(auto, unfolding(plan::specs::Check::shares))]
pub fn step_shares(indices: Indices<'_>, step: Step) -> bool
    requires { outside indices.plan step ≡ false }
    ensures { result ≡ shares indices.entry.list.now step }
{
    match step {
        Step::Gain { src, dst, .. } => {
            let n = used(src, dst);
            spans_meet(indices, first_of(n, src), first_of(n, dst))
        }
        Step::Matrix { src, dst, .. } | Step::Send { src, dst, .. } => spans_meet(
            indices, src, dst,
        ),
        Step::Patch { .. } | Step::Clear { .. } | Step::Output { .. } => false,
    }
}
