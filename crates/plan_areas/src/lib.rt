// The tests of a plan as a whole: its block (number 1), its counts (5), its areas (2), its index entries (4) and the ids of its nodes (8).
// All of it is for the crates above and not the interface: a function that has a `requires` says in its comment what it takes.
#![tactic(auto)]

ghost use Rattle.std.specs.Prelude.{◌≡◌, true, false, ◌*◌, ◌<◌, ◌≤◌, length};
ghost use Rattle.lists.specs.Entries.{some_from};
ghost use Rattle.node.specs.Sizes.{node_word_count};
ghost use Rattle.plan.specs.Limits.{unit_limits, bad_block, over_limits};
ghost use Rattle.plan.specs.Areas.{shorter, short_areas, short_lists};
ghost use Rattle.plan.specs.Check.{id_among, id_twice};
ghost use Rattle.plan.specs.Loops.{Ascending};
ghost use Rattle.plan_areas.specs.Lent.{areas_of};

use node::Node;
use plan::Plan;

// The areas that are lent with a plan.
#[derive(Clone, Copy)]
pub struct Areas<'a> {
    pub indices: &'a [u32],
    pub coefficients: &'a [f32],
    pub node_floats: &'a [f32],
    pub node_words: &'a [u32],
    pub steps: &'a [u32],
    pub buffers: &'a [f32],
}

// Number 1.
pub fn bad_block(block: usize) -> bool
    ensures { result ≡ bad_block block }
{
    (block < 1) | (block > Plan::MAX_BLOCK)
}

// Number 5.
pub fn over_limits(plan: Plan) -> bool
    ensures { result ≡ over_limits unit_limits plan }
{
    (plan.buffers > Plan::MAX_BUFFERS)
        | (plan.indices > Plan::MAX_INDICES)
        | (plan.coefficients > Plan::MAX_COEFFICIENTS)
        | (plan.nodes > Plan::MAX_NODES)
        | (plan.steps > Plan::MAX_STEPS)
}

// n < count * each, for counts of any size.
#[tactic(auto, using(plan::proofs::Plans::shorter_each))]
pub fn shorter(n: usize, count: usize, each: usize) -> bool
    ensures { result ≡ shorter n count each }
{
    each != 0 && n / each < count
}

// Number 2 of a call that is lent these three areas.
// These three are lent to the check and to the trace, whose walks read two of them: so they go one by one.
pub fn short_lists(plan: Plan, indices: &[u32], node_words: &[u32], steps: &[u32]) -> bool
    ensures { result ≡ short_lists plan indices.now node_words.now steps.now }
{
    shorter(indices.len(), plan.indices, 1)
        | shorter(node_words.len(), plan.nodes, Node::WORDS)
        | shorter(steps.len(), plan.words, 1)
}

// Number 2 of a call that is lent all six.
pub fn short_areas(plan: Plan, areas: &Areas<'_>) -> bool
    ensures { result ≡ short_areas plan (areas_of areas.now) }
{
    shorter(areas.indices.len(), plan.indices, 1)
        | shorter(areas.coefficients.len(), plan.coefficients, 1)
        | shorter(areas.node_floats.len(), plan.nodes, Node::FLOATS)
        | shorter(areas.node_words.len(), plan.nodes, Node::WORDS)
        | shorter(areas.steps.len(), plan.words, 1)
        | shorter(areas.buffers.len(), plan.buffers, plan.block)
}

// ---- the entries of areas. A lent area may be longer than its entries, so each function gets how many there are, which the plan has, beside the area.

// An entry is n or above.
// n is what the entries are below, and no count of them.
pub fn some_from(n: usize, entries: &[u32]) -> bool
    ensures { result ≡ some_from n entries.now }
{
    entries.iter().any(|entry| *entry as usize >= n)
}

// One of the first n nodes has the id. Requires the words of all n.
// That the words reach past the nodes is a clause of each function that is lent the words alone.
// From the last node down, as the definition goes.
pub fn id_among(words: &[u32], n: usize, id: u32) -> bool
    requires { n * node_word_count ≤ length words.now }
    ensures { result ≡ id_among words.now n id }
{
    for i in (0..n).rev() {
        if node_areas::id_of(words, i) == id {
            return true;
        }
    }
    false
}

// Each of n entries, `each` places apart, is above the one before it. Requires a list that reaches past them, and places that differ.
pub fn ascend(list: &[u32], n: usize, each: usize) -> bool
    requires { (n * each ≤ length list.now) × (0 < each) }
    ensures { result ≡ true → Ascending each n list.now }
{
    (1..n).all(|i| list[(i - 1) * each] < list[i * each])
}

// Two of the first n nodes have the same id. Requires the words of all n.
pub fn id_twice(words: &[u32], n: usize) -> bool
    requires { n * node_word_count ≤ length words.now }
    ensures { result ≡ id_twice words.now n }
{
    // Ids that ascend are all different, and most plans have such.
    if ascend(words, n, Node::WORDS) {
        return false;
    }
    for later in (0..n).rev() {
        if id_among(words, later, node_areas::id_of(words, later)) {
            return true;
        }
    }
    false
}
