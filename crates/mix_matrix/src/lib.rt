// Matrix. A row is made piece by piece, all its columns at each piece, so that it is stored once; each sample sees the sources in order.
// All of it is for the crates above and not the interface: a function that has a `requires` says in its comment what it takes.
#![tactic(auto)]

ghost use Rattle.std.specs.Prelude.{◌≡◌, ℕ, ◌+◌, ◌-◌, ◌*◌, ◌≤◌, ◌<◌, length, get_or};
ghost use Rattle.std.specs.Float.{nan};
ghost use Rattle.std.proofs.lemmas.List.Edits.{sets};
ghost use Rattle.node.specs.Sizes.{max_ramp};
ghost use Rattle.node.specs.Rows.{Values, gain_in};
ghost use Rattle.mix.specs.Samples.{silence, sampled};
ghost use Rattle.mix.specs.Mix.{added, clear_buffer, columns, rows, Inside, AllInside, Row, Buffers};
ghost use Rattle.mix.specs.Loops.{row_sample, whole_piece};

use mix_pairs::two_into;
use mix_samples::{Add, AddAtRest, PIECE, StartAtRest, is_silent, mix_samples, store};
use node::{Gain, Rows};

// The columns of one row of a Matrix with their gains, which are those of a node from value v on. The ghost field says that each column has one.
// What is taken for granted of the area stays a clause of each function: a struct that held the area would have to promise at each call that it keeps it.
#[derive(Clone, Copy)]
struct Columns<'a> {
    src: &'a [u32],
    node: Rows<'a>,
    v: usize,
    ghost valued: { Values (v + length src.now) node },
}

// The m samples from p on added to the first m of t, by a gain from sample j on; a gain at rest equal to 0 is skipped. Requires at most a piece
// of a block, within the area.
fn add_part(area: &[f32], p: usize, m: usize, t: &mut [f32; PIECE], j: usize, g: Gain)
    requires part { (p + m ≤ length area.now) × (m ≤ whole_piece) }
    requires small { j + m ≤ max_ramp }
    ensures added { (i : ℕ) → i < m → get_or t.new i nan ≡ added g (j + i) (get_or area.now (p + i) nan) (get_or t.old i nan) }
{
    if is_silent(g) {
        return;
    }
    mix_samples(&area[p..p + m], t, j, Add(g));
}

// Samples j to j + m of a row, added to the first m of t. Requires at most a piece of a block, and sources within the area.
fn sum_columns(area: &[f32], t: &mut [f32; PIECE], block: usize, row: Columns, j: usize, m: usize)
    requires piece { (j + m ≤ block) × (block ≤ max_ramp) × (m ≤ whole_piece) }
    requires sources { AllInside block row.src.now area.now }
    ensures summed { (i : ℕ) → i < m → get_or t.new i nan ≡ row_sample block (gain_in row.entry.node) row.entry.v row.entry.src.now area.now (j + i) (get_or t.old i nan) }
{
    for (c, s) in row.src.iter().enumerate() {
        let g = row.node.gain(row.v + c);
        add_part(area, *s as usize * block + j, m, t, j, g);
    }
}

// Samples j to j + m of a row: its sum is made in a local, and stored once. Requires as `sum_columns`, and the row's buffer within the area.
fn sum_piece(area: &mut [f32], block: usize, row: Columns, d: usize, j: usize, m: usize)
    requires piece { (j + m ≤ block) × (block ≤ max_ramp) × (m ≤ whole_piece) }
    requires target { Inside block d area.old }
    requires sources { AllInside block row.src.now area.old }
    ensures { area.new ≡ sets area.old (d * block + j) (sampled m (λ i. row_sample block (gain_in row.entry.node) row.entry.v row.entry.src.now area.old (j + i) silence)) }
{
    let mut t = [0.0f32; PIECE];
    sum_columns(&area[..], &mut t, block, row, j, m);
    store(&t, area, d * block + j, m);
}

// Samples r to the end of the block of a row, one after another. Requires as `sum_row`, and an r of at most the block.
// A piece is a place of the block in several buffers of one area, here and below: no list is walked.
fn sum_last(area: &mut [f32], block: usize, row: Columns, d: usize, r: usize)
    requires row { Row block row.src.now d area.old }
    requires rest { r ≤ block }
    ensures { area.new ≡ sets area.old (d * block + r) (sampled (block - r) (λ i. row_sample block (gain_in row.entry.node) row.entry.v row.entry.src.now area.old (r + i) silence)) }
{
    for j in r..block {
        sum_piece(area, block, row, d, j, 1);
    }
}

// Buffer d, all columns at each piece. Requires sources and d within the area, d none of them, and a block that is not too long.
fn sum_row(area: &mut [f32], block: usize, row: Columns, d: usize)
    requires row { Row block row.src.now d area.old }
    ensures { area.new ≡ columns block (gain_in row.entry.node) row.entry.v row.entry.src.now d (clear_buffer block d area.old) }
{
    let e = block / PIECE;
    for i in 0..e {
        sum_piece(area, block, row, d, PIECE * i, PIECE);
    }
    let r = PIECE * e;
    if r == block {
        return;
    }
    sum_last(area, block, row, d, r);
}

// One row: buffer d; two columns at rest, neither at 0, go in one pass. Requires sources and d within the area, d none of them, and a block that is
// not too long.
fn matrix_row(area: &mut [f32], block: usize, row: Columns, d: usize)
    requires row { Row block row.src.now d area.old }
    ensures { area.new ≡ columns block (gain_in row.entry.node) row.entry.v row.entry.src.now d (clear_buffer block d area.old) }
{
    if row.src.len() == 2 {
        if row.node.left == 0 {
            let a = row.node.target[row.v];
            let b = row.node.target[row.v + 1];
            if (a != 0.0) & (b != 0.0) {
                let s = (row.src[0] as usize, StartAtRest(a));
                let z = (row.src[1] as usize, AddAtRest(b));
                two_into(area, block, s, z, d);
                return;
            }
        }
    }
    sum_row(area, block, row, d);
}

// Matrix: the rows dst from the columns src, by the rows of its node. Requires a value for each row and column; buffers within
// the area, no source a destination; and a block that is not too long.
pub fn matrix(area: &mut [f32], block: usize, src: &[u32], dst: &[u32], node: Rows)
    requires buffers { Buffers block src.now dst.now area.old }
    requires values { Values (length dst.now * length src.now) node }
    ensures { area.new ≡ rows block (gain_in node.entry) 0 src.now dst.now area.old }
{
    let n = src.len();
    for (r, d) in dst.iter().enumerate() {
        let row = Columns {
            src,
            node,
            v: r * n,
        };
        matrix_row(area, block, row, *d as usize);
    }
}
