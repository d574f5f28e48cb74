// A setting of a node. Ports `Plan::set_param` of src/engine/plan.rs. `set_param` is total, and a refused one changes nothing; `set_node` is for
// the crates above, and has a `requires`.
#![tactic(auto)]

ghost use Rattle.std.specs.Prelude.{◌≡◌, ◌*◌, ◌≤◌, length, Ok};
ghost use Rattle.node.specs.Sizes.{node_word_count};
ghost use Rattle.setting.specs.Setting.{node_of, setting_answer, setting_floats, setting_words};

use node::Node;
use plan::Plan;
use refusal::{Answer, Reason};

// A lent area may be longer than its nodes, so here and below the count of the nodes, which the plan has, stands beside it.

// The tests, of `count` nodes in an area of `floats` floats, in their order. It writes nothing.
#[tactic(auto, unfolding(crate::specs::Setting::setting_answer))]
fn setting_answer(count: usize, id: u32, ramp: u32, floats: usize, words: &[u32]) -> Answer
    ensures { result ≡ setting_answer count id ramp floats words.now }
{
    if count > Plan::MAX_NODES {
        return Err(Reason::OverLimit.into());
    }
    if plan_areas::shorter(floats, count, Node::FLOATS)
        | plan_areas::shorter(words.len(), count, Node::WORDS)
    {
        return Err(Reason::ShortArea.into());
    }
    if node_areas::any_bad(words, count) {
        return Err(Reason::BadNode.into());
    }
    if plan_areas::id_twice(words, count) {
        return Err(Reason::IdTaken.into());
    }
    if ramp > Node::MAX_RAMP {
        return Err(Reason::LongRamp.into());
    }
    if !plan_areas::id_among(words, count, id) {
        return Err(Reason::UnknownId.into());
    }
    Ok(())
}

// The node of an id among the first n. Requires the words of all n.
// The place is the answer, and not whether there is one.
fn node_of(words: &[u32], n: usize, id: u32) -> usize
    requires { n * node_word_count ≤ length words.now }
    ensures { result ≡ node_of words.now n id }
{
    for i in (0..n).rev() {
        if node_areas::id_of(words, i) == id {
            return i;
        }
    }
    0
}

// Ramps the node of the id to `values` over `ramp` samples, and tests nothing: for the crates above, not the interface. Requires a setting that
// the tests accept.
pub fn set_node(
    nodes: usize,
    id: u32,
    values: &[f32],
    ramp: u32,
    node_floats: &mut [f32],
    node_words: &mut [u32],
)
    requires { setting_answer nodes id ramp (length node_floats.old) node_words.old ≡ Ok tt }
    ensures floats { node_floats.new ≡ setting_floats nodes id values.now ramp node_floats.old node_words.old }
    ensures words { node_words.new ≡ setting_words nodes id values.now ramp node_floats.old node_words.old }
{
    let n = node_of(&node_words[..], nodes, id);
    let node = node_areas::load(&node_floats[..], &node_words[..], n);
    node_areas::store(node.set(values, ramp), node_floats, node_words, n);
}

// Ramps the node of the id, among the `nodes` nodes of the lent areas, to `values` over `ramp` samples.
pub fn set_param(
    nodes: usize,
    id: u32,
    values: &[f32],
    ramp: u32,
    node_floats: &mut [f32],
    node_words: &mut [u32],
) -> Answer
    ensures answer { result ≡ setting_answer nodes id ramp (length node_floats.old) node_words.old }
    ensures floats { node_floats.new ≡ setting_floats nodes id values.now ramp node_floats.old node_words.old }
    ensures words { node_words.new ≡ setting_words nodes id values.now ramp node_floats.old node_words.old }
{
    setting_answer(nodes, id, ramp, node_floats.len(), &node_words[..])?;
    set_node(nodes, id, values, ramp, node_floats, node_words);
    Ok(())
}
