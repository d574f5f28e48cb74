// The clean answer's walk of a plan's steps, with the set of the buffers that are written.
// All of it is for the crates above and not the interface: a function that has a `requires` says in its comment what it takes.
#![tactic(auto)]

ghost use Rattle.std.specs.Prelude.{◌≡◌, ◌||◌, [], map, ℕ, ◌≤◌, length};
ghost use Rattle.lists.specs.Entries.{has};
ghost use Rattle.sets.specs.Sets.{member};
ghost use Rattle.plan.specs.Limits.{unit_limits};
ghost use Rattle.plan.specs.Words.{decoded};
ghost use Rattle.plan.specs.Check.{named};
ghost use Rattle.plan.specs.Sound.{Within, Names, Placed, Tested};
ghost use Rattle.plan.specs.Resolved.{resolved};
ghost use Rattle.trace.specs.Clean.{written_after, all, clean_step, clean};

use plan::{Plan, Span, Step};
use sets::Set;

// Every buffer of a list is in the set.
fn all_in(set: Set, list: &[u32]) -> bool
    ensures { result ≡ all (member set) list.now }
{
    list.iter().all(|b| set.has(*b))
}

// Every buffer of a span is in the set. Requires a span within the index list.
fn span_in(set: Set, indices: &[u32], span: Span) -> bool
    requires { Within (length indices.now) span }
    ensures { result ≡ all (member set) (named indices.now span) }
{
    all_in(set, plan_steps::numbers(indices, span))
}

// The set with the buffers of a span. Requires a span that names buffers, of a plan that has at most 256.
fn with_span(plan: Plan, set: Set, indices: &[u32], span: Span) -> Set
    requires { Names plan indices.now span × (plan.buffers ≤ unit_limits.buffers) }
    ensures { (b : ℕ) → member result b ≡ (has (named indices.now span) b || member set b) }
{
    plan_steps::set_of(plan_steps::numbers(indices, span)).union(set)
}

// Whether a step may stand where the buffers of the set are written. Requires what the tests said of the plan and of it.
// Here and below one match over the closed enum: a closure for each kind is no plainer.
fn clean_step(plan: Plan, set: Set, indices: &[u32], step: Step) -> bool
    requires { Placed plan indices.now step }
    ensures { result ≡ clean_step (member set) (resolved plan indices.now [] step) }
{
    match step {
        Step::Patch { .. } | Step::Clear { .. } => true,
        Step::Gain { src, dst, .. } => { (dst.len <= src.len) & span_in(set, indices, src) }
        Step::Matrix { src, .. } | Step::Output { src, .. } => span_in(set, indices, src),
        Step::Send { src, dst, .. } => span_in(set, indices, src) & span_in(set, indices, dst),
    }
}

// The buffers that are written once the step has gone by. Requires as `clean_step`, and at most 256 buffers.
fn written(plan: Plan, set: Set, indices: &[u32], step: Step) -> Set
    requires { Placed plan indices.now step × (plan.buffers ≤ unit_limits.buffers) }
    ensures { (b : ℕ) → member result b ≡ written_after (member set) (resolved plan indices.now [] step) b }
{
    match step {
        Step::Patch { dst, .. } => set.with(dst),
        Step::Gain { dst, .. } | Step::Matrix { dst, .. } | Step::Clear { dst } => {
            with_span(plan, set, indices, dst)
        }
        Step::Send { .. } | Step::Output { .. } => set,
    }
}

// Whether all steps may stand where they do. Requires what the tests said of the plan and its steps.
// A record begins where the one before it ends: hence its place beside the count.
pub fn all_clean(plan: Plan, indices: &[u32], steps: &[u32]) -> bool
    requires { Tested plan indices.now steps.now }
    ensures { result ≡ clean (map (resolved plan indices.now []) (decoded steps.now plan.steps)) }
{
    let n = plan.steps;
    let mut set = Set::empty();
    let mut at = 0;
    for i in 0..n {
        let Some((step, next)) = plan_reader::read_step(steps, at) else {
            return true;
        };
        if !clean_step(plan, set, indices, step) {
            return false;
        }
        set = written(plan, set, indices, step);
        at = next;
    }
    true
}
