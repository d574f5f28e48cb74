// Nodes in their lent areas: 72 floats (cur, target, step) and four u32 (id, len, left, safe) each.
// All of it is for the crates above and not the interface: a function that has a `requires` says in its comment what it takes.
#![tactic(auto)]

ghost use Rattle.std.specs.Prelude.{◌≡◌, ◌+◌, ◌*◌, ◌≤◌, length};
ghost use Rattle.std.proofs.lemmas.List.Edits.{sets};
ghost use Rattle.lists.specs.Parts.{part};
ghost use Rattle.node.specs.Sizes.{max_values, node_float_count, node_word_count, max_ramp};
ghost use Rattle.node.specs.Areas.{Room, id_at, len_at, left_at, cur_at, target_at, step_at, node_at, stored_floats, stored_words, ended, some_bad};
ghost use Rattle.node_areas.specs.Loops.{cur_row};

use node::{Node, Rows};

// Where the rows after cur start among the floats of a node, and the words after id among its words.
const TARGET: usize = Node::MAX;

const STEP: usize = 2 * Node::MAX;

const LEN: usize = 1;

const LEFT: usize = 2;

const SAFE: usize = 3;

// ---- what the areas hold of node n. Each requires an area that reaches past the node.

// The two areas are lent as they are, each with its own length, so a function here and below gets them beside the node's number or the plan's count.

// These are lent the words alone: a struct of both areas would ask for the floats too.
pub fn id_of(words: &[u32], n: usize) -> u32
    requires { (n + 1) * node_word_count ≤ length words.now }
    ensures { result ≡ id_at words.now n }
{
    words[n * Node::WORDS]
}

pub fn len_of(words: &[u32], n: usize) -> u32
    requires { (n + 1) * node_word_count ≤ length words.now }
    ensures { result ≡ len_at words.now n }
{
    words[n * Node::WORDS + LEN]
}

pub fn left_of(words: &[u32], n: usize) -> u32
    requires { (n + 1) * node_word_count ≤ length words.now }
    ensures { result ≡ left_at words.now n }
{
    words[n * Node::WORDS + LEFT]
}

// A row that starts at `at`. Requires floats that reach past it.
fn row(floats: &[f32], at: usize) -> &[f32]
    requires { at + max_values ≤ length floats.now }
    ensures { result.now ≡ part at max_values floats.now }
{
    let end = at + Node::MAX;
    &floats[at..end]
}

pub fn cur_of(floats: &[f32], n: usize) -> &[f32]
    requires { (n + 1) * node_float_count ≤ length floats.now }
    ensures { result.now ≡ cur_at floats.now n }
{
    row(floats, n * Node::FLOATS)
}

pub fn target_of(floats: &[f32], n: usize) -> &[f32]
    requires { (n + 1) * node_float_count ≤ length floats.now }
    ensures { result.now ≡ target_at floats.now n }
{
    row(floats, n * Node::FLOATS + TARGET)
}

pub fn step_of(floats: &[f32], n: usize) -> &[f32]
    requires { (n + 1) * node_float_count ≤ length floats.now }
    ensures { result.now ≡ step_at floats.now n }
{
    row(floats, n * Node::FLOATS + STEP)
}

// The rows of node n. Requires areas that reach past it.
// C lends the two areas one by one: that they reach past the node is a clause of each function, here and below.
pub fn rows_of<'a>(floats: &'a [f32], words: &[u32], n: usize) -> Rows<'a>
    requires { Room (n + 1) floats.now words.now }
    ensures cur { result.cur.now ≡ cur_at floats.now n }
    ensures target { result.target.now ≡ target_at floats.now n }
    ensures step { result.step.now ≡ step_at floats.now n }
    ensures left { result.left ≡ left_at words.now n }
{
    Rows {
        cur: cur_of(floats, n),
        step: step_of(floats, n),
        target: target_of(floats, n),
        left: left_of(words, n),
    }
}

// ---- a whole node, copied out of its areas and into them, whose rows and words lie in an order of their own

// Requires floats that reach past the row.
fn load_row(floats: &[f32], at: usize) -> [f32; Node::MAX]
    requires { at + max_values ≤ length floats.now }
    ensures { result ≡ part at max_values floats.now }
{
    let mut loaded = [0.0f32; Node::MAX];
    loaded.copy_from_slice(row(floats, at));
    loaded
}

// Requires floats that reach past the row.
fn store_row(row: [f32; Node::MAX], floats: &mut [f32], at: usize)
    requires { at + max_values ≤ length floats.old }
    ensures { floats.new ≡ sets floats.old at row }
{
    floats[at..at + Node::MAX].copy_from_slice(&row);
}

// Node n of the lent areas, whatever they hold. Requires areas that reach past it.
pub fn load(floats: &[f32], words: &[u32], n: usize) -> Node
    requires { Room (n + 1) floats.now words.now }
    ensures { result ≡ node_at floats.now words.now n }
{
    let at = n * Node::FLOATS;
    let cur = load_row(floats, at);
    let target = load_row(floats, at + TARGET);
    let step = load_row(floats, at + STEP);
    let w = n * Node::WORDS;
    Node {
        id: words[w],
        len: words[w + LEN],
        cur,
        target,
        step,
        left: words[w + LEFT],
        safe: words[w + SAFE],
    }
}

// Makes `node` the node n of the lent areas. Requires areas that reach past it.
pub fn store(node: Node, floats: &mut [f32], words: &mut [u32], n: usize)
    requires { Room (n + 1) floats.old words.old }
    ensures floats { floats.new ≡ stored_floats floats.old n node }
    ensures words { words.new ≡ stored_words words.old n node }
{
    let at = n * Node::FLOATS;
    let cur = node.cur;
    let target = node.target;
    let step = node.step;
    store_row(cur, floats, at);
    store_row(target, floats, at + TARGET);
    store_row(step, floats, at + STEP);
    let w = n * Node::WORDS;
    words[w] = node.id;
    words[w + LEN] = node.len;
    words[w + LEFT] = node.left;
    words[w + SAFE] = node.safe;
}

// The row cur that starts at `at`, m samples of a ramp later, below len. Requires floats that reach past its node, a len of at most MAX, and
// an m no longer than the longest ramp.
fn advance(floats: &mut [f32], at: usize, len: usize, m: u32)
    requires { (at + node_float_count ≤ length floats.old) × (len ≤ max_values) × (m ≤ max_ramp) }
    ensures { floats.new ≡ sets floats.old at (cur_row floats.old at m len) }
{
    // One index over two rows of one area, of which one is written.
    for i in 0..len {
        floats[at + i] = floats[at + i] + floats[at + STEP + i] * m as f32;
    }
}

// The end of a step's block of node n; one at rest stays as it is, and of one whose ramp goes on nothing but cur and left change. Requires
// areas that reach past it, a len of at most MAX, and a block no longer than the longest ramp.
pub fn end_block(floats: &mut [f32], words: &mut [u32], n: usize, block: usize)
    requires { Room (n + 1) floats.old words.old × (len_at words.old n ≤ max_values) × (block ≤ max_ramp) }
    ensures floats { floats.new ≡ stored_floats floats.old n (ended block floats.old words.old n) }
    ensures words { words.new ≡ stored_words words.old n (ended block floats.old words.old n) }
{
    let w = n * Node::WORDS;
    let left = words[w + LEFT];
    if left == 0 {
        return;
    }
    let m = block as u32;
    if left > m {
        let len = words[w + LEN] as usize;
        advance(floats, n * Node::FLOATS, len, m);
        words[w + LEFT] = left - m;
        return;
    }
    let node = load(&floats[..], &words[..], n);
    store(node.finish_block(block), floats, words, n);
}

// The test of number 14 over the first `count` lent nodes, and its only place. Requires that `words` has all of theirs.
pub fn any_bad(words: &[u32], count: usize) -> bool
    requires { count * node_word_count ≤ length words.now }
    ensures { result ≡ some_bad words.now count }
{
    (0..count).any(|i| {
        let w = i * Node::WORDS;
        (words[w + LEN] > Node::MAX as u32)
            | (words[w + LEFT] > Node::MAX_RAMP)
            | (words[w + SAFE] > Node::MAX_SAFE)
    })
}
