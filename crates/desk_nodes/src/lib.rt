// The nodes of a plan beside those of an old one whose layout is the same: adopted by their numbers, and compared by digests.
#![tactic(auto)]

ghost use Rattle.std.specs.Prelude.{◌≡◌, ◌+◌, ◌*◌, ◌≤◌, length};
ghost use Rattle.node.specs.Sizes.{node_float_count};
ghost use Rattle.node.specs.Areas.{Room};
ghost use Rattle.adoption.specs.Adoption.{lent, adoption_answer, adoption_floats, adoption_words};
ghost use Rattle.adoption.specs.Fits.{lent_by};
ghost use Rattle.desk_nodes.specs.Nodes.{by_number, of_cur, same_cur, in_both, start_alike, with_safe, in_areas, of_safe};

use adoption::Nodes;
use node::Node;
use plan::Plan;
use refusal::Answer;
use signals::digest;

// The words of a list of pairs that names every node that a plan can have.
const PAIRS: usize = 2 * Plan::MAX_NODES;

// Each node, and the old one of its number.
#[tactic(auto, unfolding(crate::specs::Nodes::by_number))]
fn by_number() -> [u32; PAIRS]
    ensures { result ≡ by_number }
{
    let mut pairs = [0u32; PAIRS];
    for (i, word) in pairs.iter_mut().enumerate() {
        *word = (i / 2) as u32;
    }
    pairs
}

// The parameters are those of `adopt` of crate `adoption`, but for the pairs.
// Every node is named beside the old one of its number. Those that adopt it ramp from there to their own targets.
pub fn adopt_all(
    nodes: usize,
    node_floats: &mut [f32],
    node_words: &mut [u32],
    old: Nodes<'_>,
    ramp: u32,
) -> Answer
    ensures answer { result ≡ adoption_answer (lent nodes node_floats.old node_words.old) (lent_by old.entry) by_number ramp }
    ensures floats { node_floats.new ≡ adoption_floats (lent nodes node_floats.old node_words.old) (lent_by old.entry) by_number ramp }
    ensures words { node_words.new ≡ adoption_words (lent nodes node_floats.old node_words.old) (lent_by old.entry) by_number ramp }
{
    let pairs = by_number();
    adoption::adopt(nodes, node_floats, node_words, old, &pairs, ramp)
}

// Below, a number beside an area is that of a node of it, or how many nodes the plan has, whose areas may be longer.

// A digest of the cur of node n. Requires floats that reach past it.
fn of_cur(floats: &[f32], n: usize) -> u32
    requires { (n + 1) * node_float_count ≤ length floats.now }
    ensures { result ≡ of_cur floats.now n }
{
    digest::of_samples(digest::empty(), node_areas::cur_of(floats, n))
}

// 1 where node n has the cur of old node n, and else 0: a turn of a count, by the == of digests, and no comparison of a type of its own.
// Requires floats that reach past both.
fn same_cur(floats: &[f32], old_floats: &[f32], n: usize) -> usize
    requires { ((n + 1) * node_float_count ≤ length floats.now) × ((n + 1) * node_float_count ≤ length old_floats.now) }
    ensures { (result ≡ same_cur floats.now old_floats.now n) × (result ≤ 1) }
{
    usize::from(of_cur(floats, n) == of_cur(old_floats, n))
}

// How many of the first `nodes` nodes have the cur of the old one of their number. One that an area does not have is not counted.
// A node is named by its number in two areas at once, here and below: hence the number.
#[tactic(auto, using(crate::proofs::Laws::in_both_lem), unfolding(crate::specs::Nodes::start_alike))]
pub fn start_alike(nodes: usize, floats: &[f32], old_floats: &[f32]) -> usize
    ensures { result ≡ start_alike floats.now old_floats.now (in_both nodes (length floats.now) (length old_floats.now)) }
{
    let n = nodes.min(floats.len().min(old_floats.len()) / Node::FLOATS);
    let mut count = 0;
    for k in 0..n {
        count += same_cur(floats, old_floats, k);
    }
    count
}

// The digest with node n behind it, where that is safe. Requires areas that reach past it.
// The two areas are lent one by one: that they reach past the node is a clause here too.
#[tactic(auto, unfolding(crate::specs::Nodes::with_safe, node::specs::Areas::node_at))]
fn with_safe(digest: u32, floats: &[f32], words: &[u32], n: usize) -> u32
    requires { Room (n + 1) floats.now words.now }
    ensures { result ≡ with_safe floats.now words.now n digest }
{
    let node = node_areas::load(floats, words, n);
    if node.safe == 0 {
        return digest;
    }
    let f = n * Node::FLOATS;
    let w = n * Node::WORDS;
    let rows = digest::of_samples(digest, &floats[f..f + Node::FLOATS]);
    digest::of_words(rows, &words[w..w + Node::WORDS])
}

// A digest of those of the first `nodes` nodes that are safe. One that an area does not have is left out.
#[tactic(auto, using(crate::proofs::Laws::in_areas_lem), unfolding(crate::specs::Nodes::of_safe))]
pub fn of_safe(nodes: usize, floats: &[f32], words: &[u32]) -> u32
    ensures { result ≡ of_safe floats.now words.now (in_areas nodes (length floats.now) (length words.now)) }
{
    let n = nodes.min((floats.len() / Node::FLOATS).min(words.len() / Node::WORDS));
    let mut digest = digest::empty();
    for k in 0..n {
        digest = with_safe(digest, floats, words, k);
    }
    digest
}
