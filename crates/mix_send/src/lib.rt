// The loops of Send over the buffers of one area. Ports those of `Plan::process` in src/engine/plan.rs.
// All of it is for the crates above and not the interface: a function that has a `requires` says in its comment what it takes.
#![tactic(auto)]

ghost use Rattle.std.specs.Prelude.{◌≡◌, true, false, ◌+◌, ◌*◌, ◌≤◌, length};
ghost use Rattle.node.specs.declared.Gain.TheVariants as gain;
ghost use Rattle.mix.specs.Mix.{is_zero, silent, send_in, weighs, sends, Pair, Row, Buffers};
ghost use Rattle.mix.specs.Loops.{Four};

use mix_pairs::{Source, add_four, two_into};
use mix_pieces::mix_into;
use mix_samples::{AddAtRest, Weigh, is_silent};
use node::Gain;

// A gain that is not at rest at 0.
#[derive(Clone, Copy)]
struct Sounding {
    gain: Gain,
    ghost sounds: { silent gain ≡ false },
}

// The columns and the rows of a Send. The ghost field says that each row has a weight for each column.
#[derive(Clone, Copy)]
struct Weighted<'a> {
    src: &'a [u32],
    dst: &'a [u32],
    weights: &'a [f32],
    ghost enough: { length dst.now * length src.now ≤ length weights.now },
}

// The columns of one row of a Send; their weights are those from place `at` on, and the ghost field says that each has one.
#[derive(Clone, Copy)]
struct Columns<'a> {
    src: &'a [u32],
    weights: &'a [f32],
    at: usize,
    ghost enough: { at + length src.now ≤ length weights.now },
}

// A source into buffer d by its weight; a weight of 0 is skipped. At rest the weight and the target are one factor, ramping they are two.
// Requires as `mix_into`.
#[tactic(auto, using(mix::proofs::Turns::weight_zero))]
fn send_into(area: &mut [f32], block: usize, source: Source<f32>, d: usize, g: Sounding)
    requires { Pair block source.0 d area.old }
    ensures { area.new ≡ send_in block g.gain source.1 source.0 d area.old }
{
    let w = source.1;
    if w == 0.0 {
        return;
    }
    match g.gain {
        Gain::Rest(t) => mix_into(area, block, source.0, d, AddAtRest(w * t)),
        Gain::Moving(cur, step, t, left) => {
            mix_into(
                area,
                block,
                source.0,
                d,
                Weigh(w, Gain::Moving(cur, step, t, left)),
            )
        }
    }
}

// Two sources into buffer d in one pass, by two weights that are not 0. Requires as `send_into`, for both.
fn send_two(
    area: &mut [f32],
    block: usize,
    first: Source<f32>,
    then: Source<f32>,
    d: usize,
    g: Sounding,
)
    requires first { Pair block first.0 d area.old × (is_zero first.1 ≡ false) }
    requires then { Pair block then.0 d area.old × (is_zero then.1 ≡ false) }
    ensures { area.new ≡ send_in block g.gain then.1 then.0 d (send_in block g.gain first.1 first.0 d area.old) }
{
    let w = first.1;
    let v = then.1;
    match g.gain {
        Gain::Rest(t) => {
            let s = (first.0, AddAtRest(w * t));
            let z = (then.0, AddAtRest(v * t));
            two_into(area, block, s, z, d);
        }
        Gain::Moving(cur, step, t, left) => {
            let g = Gain::Moving(cur, step, t, left);
            let s = (first.0, Weigh(w, g));
            let z = (then.0, Weigh(v, g));
            two_into(area, block, s, z, d);
        }
    }
}

// One row: the sources into buffer d; two, neither of whose weights is 0, go in one pass. Requires sources and d within the area, d none of them, and
// a block that is not too long.
fn send_row(area: &mut [f32], block: usize, from: Columns, d: usize, g: Sounding)
    requires { Row block from.src.now d area.old }
    ensures { area.new ≡ weighs block g.gain from.entry.weights.now from.entry.at from.entry.src.now d area.old }
{
    if from.src.len() == 2 {
        let w = from.weights[from.at];
        let v = from.weights[from.at + 1];
        if (w != 0.0) & (v != 0.0) {
            let s = (from.src[0] as usize, w);
            let z = (from.src[1] as usize, v);
            send_two(area, block, s, z, d, g);
            return;
        }
    }
    for (c, s) in from.src.iter().enumerate() {
        let source = (*s as usize, from.weights[from.at + c]);
        send_into(area, block, source, d, g);
    }
}

// Whether there are two columns and two rows, the rows different, and none of the four weights is 0.
#[tactic(auto, using(mix::proofs::Given::four_enough))]
fn is_four(rows: Weighted) -> bool
    ensures { result ≡ true → Four rows.entry.src.now rows.entry.dst.now rows.entry.weights.now }
{
    if rows.src.len() != 2 {
        return false;
    }
    if rows.dst.len() != 2 {
        return false;
    }
    let w = rows.weights;
    let first = (w[0] != 0.0) & (w[1] != 0.0);
    let second = (w[2] != 0.0) & (w[3] != 0.0);
    first & second & (rows.dst[1] != rows.dst[0])
}

// Two rows and two columns at rest, in one pass. Requires as `send`, what `is_four` tests, and a target that is not 0.
fn send_four(area: &mut [f32], block: usize, rows: Weighted, t: f32)
    requires buffers { Buffers block rows.src.now rows.dst.now area.old }
    requires four { Four rows.src.now rows.dst.now rows.weights.now }
    requires sounds { silent (gain.Rest t) ≡ false }
    ensures { area.new ≡ sends block (gain.Rest t) rows.entry.weights.now 0 rows.entry.src.now rows.entry.dst.now area.old }
{
    let d = rows.dst[0] as usize;
    let e = rows.dst[1] as usize;
    let a = rows.weights[0] * t;
    let b = rows.weights[1] * t;
    let f = rows.weights[2] * t;
    let h = rows.weights[3] * t;
    let s = (rows.src[0] as usize, (a, f));
    let z = (rows.src[1] as usize, (b, h));
    add_four(area, block, s, z, d, e);
}

// The rows of a Send; four weights at rest, as `is_four` has them, go in one pass. Requires as `send`.
fn send_rows(area: &mut [f32], block: usize, rows: Weighted, g: Sounding)
    requires { Buffers block rows.src.now rows.dst.now area.old }
    ensures { area.new ≡ sends block g.gain rows.entry.weights.now 0 rows.entry.src.now rows.entry.dst.now area.old }
{
    if is_four(rows) {
        if let Gain::Rest(t) = g.gain {
            send_four(area, block, rows, t);
            return;
        }
    }
    let n = rows.src.len();
    for (r, d) in rows.dst.iter().enumerate() {
        let from = Columns {
            src: rows.src,
            weights: rows.weights,
            at: r * n,
        };
        send_row(area, block, from, *d as usize, g);
    }
}

// Send: the rows dst from the columns src; skipped whole where the gain is at rest at 0. Requires a weight for each row and column; buffers
// within the area, no source a destination; and a block that is not too long.
#[tactic(auto, using(mix::proofs::Turns::send_silent))]
pub fn send(area: &mut [f32], block: usize, src: &[u32], dst: &[u32], weights: &[f32], g: Gain)
    requires buffers { Buffers block src.now dst.now area.old }
    requires weights { length dst.now * length src.now ≤ length weights.now }
    ensures { area.new ≡ sends block g weights.now 0 src.now dst.now area.old }
{
    if is_silent(g) {
        return;
    }
    send_rows(
        area,
        block,
        Weighted { src, dst, weights },
        Sounding { gain: g },
    );
}
