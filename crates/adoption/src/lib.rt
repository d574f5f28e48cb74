// Old nodes into a new plan. Ports `Plan::adopt` of src/engine/plan.rs, nodes only. The call is total, and a refused one changes nothing.
#![tactic(auto)]

ghost use Rattle.std.specs.Prelude.{◌≡◌};
ghost use Rattle.adoption.specs.Adoption.{lent, over_nodes, short_nodes, adoption_answer, pair_adopted, pairs_adopted, adoption_floats, adoption_words};
ghost use Rattle.adoption.specs.Fits.{lent_by, Fit};

use node::Node;
use plan::Plan;
use refusal::{Answer, Reason};

// The nodes of one plan, as they are lent to be read: their count and their areas, which may be longer.
#[derive(Clone, Copy)]
pub struct Nodes<'a> {
    pub count: usize,
    pub floats: &'a [f32],
    pub words: &'a [u32],
}

impl<'a> Nodes<'a> {
    fn over_limit(self) -> bool
        ensures { result ≡ over_nodes (lent_by self.entry) }
    {
        self.count > Plan::MAX_NODES
    }

    fn short(self) -> bool
        ensures { result ≡ short_nodes (lent_by self.entry) }
    {
        plan_areas::shorter(self.floats.len(), self.count, Node::FLOATS)
            | plan_areas::shorter(self.words.len(), self.count, Node::WORDS)
    }
}

// The tests, in their order. It writes nothing.
#[tactic(auto, unfolding(crate::specs::Adoption::adoption_answer))]
fn adoption_answer(new: Nodes<'_>, old: Nodes<'_>, pairs: &[u32], ramp: u32) -> Answer
    ensures { result ≡ adoption_answer (lent_by new.entry) (lent_by old.entry) pairs.now ramp }
{
    if new.over_limit() | old.over_limit() {
        return Err(Reason::OverLimit.into());
    }
    if new.short() | old.short() {
        return Err(Reason::ShortArea.into());
    }
    if pairs.len() % 2 != 0 {
        return Err(Reason::OddList.into());
    }
    if node_areas::any_bad(new.words, new.count) | node_areas::any_bad(old.words, old.count) {
        return Err(Reason::BadNode.into());
    }
    if ramp > Node::MAX_RAMP {
        return Err(Reason::LongRamp.into());
    }
    Ok(())
}

// The new plan's nodes are written, so here and below their areas are slices of their own beside the count.

// One pair: node n takes the cur of old node o, and its own target is set again. Requires what the tests leave.
#[tactic(auto, unfolding(crate::specs::Adoption::pair_by, node::specs::Areas::node_at))]
fn adopt_pair(
    nodes: usize,
    node_floats: &mut [f32],
    node_words: &mut [u32],
    lender: Nodes<'_>,
    n: usize,
    o: usize,
    ramp: u32,
)
    requires { Fit (lent nodes node_floats.old node_words.old) (lent_by lender) ramp }
    ensures floats { node_floats.new ≡ (pair_adopted (lent_by lender.entry) ramp n o (lent nodes node_floats.old node_words.old)).floats }
    ensures words { node_words.new ≡ (pair_adopted (lent_by lender.entry) ramp n o (lent nodes node_floats.old node_words.old)).words }
{
    if n >= nodes {
        return;
    }
    if o >= lender.count {
        return;
    }
    if node_areas::len_of(&node_words[..], n) != node_areas::len_of(lender.words, o) {
        return;
    }
    let old = node_areas::load(lender.floats, lender.words, o);
    let mut node = node_areas::load(&node_floats[..], &node_words[..], n);
    if node.safe != 0 {
        return;
    }
    let cur = old.cur;
    node.cur = cur;
    let target = node.target;
    node_areas::store(node.set(&target[..], ramp), node_floats, node_words, n);
}

// The pairs, in order. Requires what the tests leave.
fn adopt_pairs(
    nodes: usize,
    node_floats: &mut [f32],
    node_words: &mut [u32],
    lender: Nodes<'_>,
    pairs: &[u32],
    ramp: u32,
)
    requires { Fit (lent nodes node_floats.old node_words.old) (lent_by lender) ramp }
    ensures floats { node_floats.new ≡ (pairs_adopted (lent_by lender.entry) ramp pairs.now (lent nodes node_floats.old node_words.old)).floats }
    ensures words { node_words.new ≡ (pairs_adopted (lent_by lender.entry) ramp pairs.now (lent nodes node_floats.old node_words.old)).words }
{
    for pair in pairs.chunks_exact(2) {
        adopt_pair(
            nodes,
            node_floats,
            node_words,
            lender,
            pair[0] as usize,
            pair[1] as usize,
            ramp,
        );
    }
}

// Each new node of a pair (new, old) in `pairs` takes the cur of its old node and ramps to its own target again, over `ramp` samples. A pair that
// names no node of its plan, or nodes of different len, or whose new node is safe, is skipped.
pub fn adopt(
    nodes: usize,
    node_floats: &mut [f32],
    node_words: &mut [u32],
    old: Nodes<'_>,
    pairs: &[u32],
    ramp: u32,
) -> Answer
    ensures answer { result ≡ adoption_answer (lent nodes node_floats.old node_words.old) (lent old.entry.count old.entry.floats.now old.entry.words.now) pairs.now ramp }
    ensures floats { node_floats.new ≡ adoption_floats (lent nodes node_floats.old node_words.old) (lent old.entry.count old.entry.floats.now old.entry.words.now) pairs.now ramp }
    ensures words { node_words.new ≡ adoption_words (lent nodes node_floats.old node_words.old) (lent old.entry.count old.entry.floats.now old.entry.words.now) pairs.now ramp }
{
    let new = Nodes {
        count: nodes,
        floats: &node_floats[..],
        words: &node_words[..],
    };
    adoption_answer(new, old, pairs, ramp)?;
    adopt_pairs(nodes, node_floats, node_words, old, pairs, ramp);
    Ok(())
}
