// The walk of a plan's steps: the inputs behind each buffer, and behind each slot.
ghost use Rattle.std.specs.Prelude.{◌≡◌, false, ◌||◌, cond, [], map, ℕ, ◌<◌, eqb, length};
ghost use Rattle.sets.specs.Sets.{member};
ghost use Rattle.plan.specs.Limits.{inputs, unit_limits};
ghost use Rattle.plan.specs.Words.{decoded};
ghost use Rattle.plan.specs.Check.{named};
ghost use Rattle.plan.specs.Sound.{Names, Tested};
ghost use Rattle.plan.specs.Resolved.{resolved};
ghost use Rattle.trace.specs.Sources.{no_sources, union, spread, joins, behind, slot_count};
ghost use Rattle.trace_sources.specs.Loops.{slot_sets, sources_of, changed, with_slot, SetRoom, Fit, Spans};

use crate::buffer_sets::{add, give, union_of};
use plan::{Plan, Span, Step};
use sets::Set;

// The count of slots, where a step comes to those before it.
fn with_slot(count: usize, step: Step) -> usize
    ensures { result ≡ with_slot count step }
{
    let Step::Output { slot, .. } = step else {
        return count;
    };
    let named = slot as usize;
    if named < count {
        return count;
    }
    named + 1
}

// The inputs behind the buffers of a span. Requires a span that names buffers of a plan within its limit of buffers, and a set for each buffer that a
// plan can have.
fn behind_span(plan: Plan, indices: &[u32], area: &[Set], src: Span) -> Set
    requires { Names plan indices.now src × SetRoom plan area.now }
    ensures { (i : ℕ) → member result i ≡ union (sources_of area.now) (named indices.now src) i }
{
    union_of(area, plan_steps::numbers(indices, src))
}

// Patch. Requires an input and a buffer of a plan, and a set for each buffer that a plan can have.
fn patch(area: &mut [Set], input: u32, dst: u32)
    requires { (input < inputs) × (dst < unit_limits.buffers) × (length area.old ≡ unit_limits.buffers) }
    ensures { (b i : ℕ) → sources_of area.new b i ≡ cond (eqb b dst) (eqb i input) (sources_of area.old b i) }
{
    area[dst as usize] = Set::empty().with(input);
}

// Gain and Matrix. Requires as `behind_span`, of both spans. A function of its own beside `send`, which adds: each has the definition of its kind of step.
fn replace(plan: Plan, indices: &[u32], area: &mut [Set], src: Span, dst: Span)
    requires { Spans plan indices.now area.old src dst }
    ensures { sources_of area.new ≡ changed (λ i own. union (sources_of area.old) (named indices.now src) i) (sources_of area.old) (named indices.now dst) }
{
    let set = behind_span(plan, indices, &area[..], src);
    give(area, plan_steps::numbers(indices, dst), set);
}

// Clear. Requires as `behind_span`.
fn clear(plan: Plan, indices: &[u32], area: &mut [Set], dst: Span)
    requires { Names plan indices.now dst × SetRoom plan area.old }
    ensures { sources_of area.new ≡ changed (λ i own. false) (sources_of area.old) (named indices.now dst) }
{
    give(area, plan_steps::numbers(indices, dst), Set::empty());
}

// Send. Requires as `replace`.
fn send(plan: Plan, indices: &[u32], area: &mut [Set], src: Span, dst: Span)
    requires { Spans plan indices.now area.old src dst }
    ensures { sources_of area.new ≡ changed (λ i own. own || union (sources_of area.old) (named indices.now src) i) (sources_of area.old) (named indices.now dst) }
{
    let more = behind_span(plan, indices, &area[..], src);
    add(area, plan_steps::numbers(indices, dst), more);
}

// The sets after a step. Requires what the tests said of the plan and of it, and a set for each buffer that a plan can have.
// One match over the closed enum: a closure for each kind is no plainer.
fn spread(plan: Plan, indices: &[u32], area: &mut [Set], step: Step)
    requires { Fit plan indices.now area.old step }
    ensures { sources_of area.new ≡ spread (sources_of area.old) (resolved plan indices.now [] step) }
{
    match step {
        Step::Patch { input, dst, .. } => patch(area, input, dst),
        Step::Gain { src, dst, .. } | Step::Matrix { src, dst, .. } => replace(
            plan, indices, area, src, dst,
        ),
        Step::Clear { dst } => clear(plan, indices, area, dst),
        Step::Send { src, dst, .. } => send(plan, indices, area, src, dst),
        Step::Output { .. } => {}
    }
}

// The sets of the slots, with the inputs that a step joins to one. Requires as `spread`, and a set for each slot.
fn join(plan: Plan, indices: &[u32], area: &[Set], slots: &mut [Set], step: Step)
    requires { Fit plan indices.now area.now step × (length slots.old ≡ slot_sets) }
    ensures { (s i : ℕ) → sources_of slots.new s i ≡ (sources_of slots.old s i || joins s (sources_of area.now) (resolved plan indices.now [] step) i) }
{
    let Step::Output { src, slot } = step else {
        return;
    };
    let own = slots[slot as usize];
    slots[slot as usize] = own.union(behind_span(plan, indices, area, src));
}

// The sets of the slots after all steps, from those that both areas hold, which change step by step; and the count of the slots. What the sets of
// the buffers are then is left open: nothing reads them. Requires what the tests said of the plan and its steps, and a set for each buffer that a
// plan can have and for each slot. Not inlined: where it is, `behind` fills its sets twice.
// A record begins where the one before it ends: hence its place beside the count.
#[inline(never)]
fn walk(plan: Plan, indices: &[u32], steps: &[u32], area: &mut [Set], slots: &mut [Set]) -> usize
    requires { Tested plan indices.now steps.now × (length area.old ≡ unit_limits.buffers) × (length slots.old ≡ slot_sets) }
    ensures count { result ≡ slot_count (map (resolved plan indices.now []) (decoded steps.now plan.steps)) }
    ensures sets { (s i : ℕ) → sources_of slots.new s i ≡ (sources_of slots.old s i || behind s (sources_of area.old) (map (resolved plan indices.now []) (decoded steps.now plan.steps)) i) }
{
    let n = plan.steps;
    let mut count = 0;
    let mut at = 0;
    for i in 0..n {
        let Some((step, next)) = plan_reader::read_step(steps, at) else {
            return count;
        };
        join(plan, indices, &area[..], slots, step);
        spread(plan, indices, area, step);
        count = with_slot(count, step);
        at = next;
    }
    count
}

// The inputs behind each slot, added to its set, and the count of the slots. Requires what the tests said of the plan and its steps, and a
// set for each slot.
pub fn behind(plan: Plan, indices: &[u32], steps: &[u32], slots: &mut [Set]) -> usize
    requires { Tested plan indices.now steps.now × (length slots.old ≡ slot_sets) }
    ensures count { result ≡ slot_count (map (resolved plan indices.now []) (decoded steps.now plan.steps)) }
    ensures sets { (s i : ℕ) → sources_of slots.new s i ≡ (sources_of slots.old s i || behind s no_sources (map (resolved plan indices.now []) (decoded steps.now plan.steps)) i) }
{
    let mut area = [Set::empty(); Plan::MAX_BUFFERS];
    walk(plan, indices, steps, &mut area, slots)
}
