// The tests of an insert, in their order. None writes. All of it is for the crates above and not the interface: a function that has a `requires` says in its comment
// what it takes.
#![tactic(auto)]

ghost use Rattle.std.specs.Prelude.{◌≡◌, ◌*◌, ◌≤◌, length};
ghost use Rattle.node.specs.Sizes.{node_word_count};
ghost use Rattle.builder.specs.Sums.{ids_taken};
ghost use Rattle.insert.specs.Insert.{insert_growth, insert_ids, return_bad, insert_answer};
ghost use Rattle.insert_answers.specs.Lent.{lengths_of};

use builder::{Growth, Lengths};
use builder_answers::limits::{grows_past, limits_answer};
use format::Format;
use insert::{InsertIds, InsertPoint, InsertReturn};
use node::Node;
use plan::{Limits, Plan};
use plan_steps::span_past;
use refusal::{Answer, Reason};

// What the tests look at of the five areas: their lengths, and the node words themselves.
#[derive(Clone, Copy)]
pub struct Lent<'a> {
    pub indices: usize,
    pub coefficients: usize,
    pub floats: usize,
    pub words: &'a [u32],
    pub steps: usize,
}

impl Lent<'_> {
    fn lengths(self) -> Lengths
        ensures { result ≡ lengths_of self.entry }
    {
        Lengths {
            indices: self.indices,
            coefficients: self.coefficients,
            node_floats: self.floats,
            node_words: self.words.len(),
            step_words: self.steps,
        }
    }
}

// The last channel that four bytes hold.
const MAX_CHANNEL: usize = 4_294_967_295;

// What an insert of n channels adds. Requires at most 12.
fn insert_growth(returns: bool, n: usize) -> Growth
    requires { n ≤ 12 }
    ensures { result ≡ insert_growth returns n }
{
    if returns {
        return Growth {
            buffers: Some(6 * n),
            indices: Some(6 * n),
            coefficients: Some(n * n),
            nodes: Some(6),
            steps: Some(n + 8),
            words: Some(4 * n + 47),
        };
    }
    Growth {
        buffers: Some(n),
        indices: Some(n),
        coefficients: None,
        nodes: Some(1),
        steps: Some(2),
        words: Some(10),
    }
}

// Number 18: an input or a first channel of 0, or a last channel that four bytes do not hold, of n channels. Requires 1 to 12.
fn return_bad(n: usize, back: InsertReturn) -> bool
    requires { (1 ≤ n) × (n ≤ 12) }
    ensures { result ≡ return_bad n back }
{
    let last = back.channel as usize + n - 1;
    (back.input == 0) | (back.channel == 0) | (last > MAX_CHANNEL)
}

// n, here and below, is how many nodes the plan has: their words may go on behind them.

// Number 8 of a list of ids. Requires the words of all n nodes.
#[tactic(auto, using(crate::proofs::Ids::taken_turn))]
fn ids_taken(words: &[u32], n: usize, ids: &[u32]) -> bool
    requires { n * node_word_count ≤ length words.now }
    ensures { result ≡ ids_taken words.now n ids.now }
{
    for (i, id) in ids.iter().enumerate() {
        if plan_areas::id_among(words, n, *id) {
            return true;
        }
        if ids[i + 1..].contains(id) {
            return true;
        }
    }
    false
}

// Of the ids of an insert, of which those after the send's are used with a return alone.
fn insert_ids_taken(words: &[u32], n: usize, returns: bool, ids: InsertIds) -> bool
    requires { n * node_word_count ≤ length words.now }
    ensures { result ≡ ids_taken words.now n (insert_ids returns ids) }
{
    if returns {
        let all = [ids.send, ids.ret, ids.dry, ids.wet, ids.dryin, ids.wetin];
        return ids_taken(words, n, &all[..]);
    }
    let one = [ids.send];
    ids_taken(words, n, &one[..])
}

// The answer to an insert: 16; with a return 18; 4; then, of the whole, 5, 2, 8, 10.
#[tactic(auto, using(format::proofs::Labels::channels_le, format::proofs::Labels::channels_least), unfolding(insert::specs::Insert::insert_answer))]
pub fn insert_answer(limits: Limits, plan: Plan, insert: InsertPoint, lent: Lent<'_>) -> Answer
    ensures { result ≡ insert_answer limits plan insert (lengths_of lent.entry) lent.entry.words.now }
{
    if Format::COUNT <= insert.format {
        return Err(Reason::NoFormat.into());
    }
    let n = Format::channels(insert.format);
    let returns = insert.returns;
    if returns & return_bad(n, insert.back) {
        return Err(Reason::BadReturn.into());
    }
    if span_past(plan.indices, insert.src) {
        return Err(Reason::OutsideTable.into());
    }
    let growth = insert_growth(returns, n);
    limits_answer(limits, plan, growth)?;
    if grows_past(plan, growth, lent.lengths()) {
        return Err(Reason::ShortArea.into());
    }
    if insert_ids_taken(lent.words, plan.nodes, returns, insert.ids) {
        return Err(Reason::IdTaken.into());
    }
    if insert.ramp > Node::MAX_RAMP {
        return Err(Reason::LongRamp.into());
    }
    Ok(())
}
