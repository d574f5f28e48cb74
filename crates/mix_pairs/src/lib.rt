// Two buffers into another, or into each of two others, in one pass: in whole pieces, as in crate `mix_pieces`, and the samples after the last one
// by one, or on a ramp as a shorter piece. Each sample sees the sources in order.
// All of it is for the crates above and not the interface: a function that has a `requires` says in its comment what it takes.
#![tactic(auto)]

ghost use Rattle.std.specs.Prelude.{◌≡◌, ◌+◌};
ghost use Rattle.node.specs.declared.Gain.TheVariants as gain;
ghost use Rattle.mix.specs.Mix.{Pair};
ghost use Rattle.mix.specs.Loops.{whole_piece, by_gain, plus_scaled, two_at, two_in, Piece, PartsApart};

use mix_samples::{AddAtRest, Load, Mixing, PIECE, later, mix_samples, store};

// A source: its buffer, or the place where this begins; and what is done with each of its samples.
pub type Source<T> = (usize, T);

// Mixes the first source, then the second, into the buffer that begins at `to`, m samples from sample k on. Inlined, so that a gain is told apart once
// for all pieces. Requires at most a piece of a block, with all parts within the area.
#[inline(always)]
fn two_piece<M: Mixing, N: Mixing>(
    area: &mut [f32],
    first: Source<M>,
    then: Source<N>,
    to: usize,
    m: usize,
    k: usize,
)
    requires first { Piece (first.0 + k) (to + k) m k area.old }
    requires then { Piece (then.0 + k) (to + k) m k area.old }
    ensures { area.new ≡ two_at (by_gain (M.mixed first.1) (M.gain first.1)) (by_gain (N.mixed then.1) (N.gain then.1)) (first.0 + k) (then.0 + k) (to + k) m k area.old }
{
    let from = first.0 + k;
    let other = then.0 + k;
    let mut t = [0.0f32; PIECE];
    mix_samples(&area[to + k..to + k + m], &mut t, 0, Load);
    mix_samples(&area[from..from + m], &mut t, k, first.1);
    mix_samples(&area[other..other + m], &mut t, k, then.1);
    store(&t, area, to + k, m);
}

// The same, one sample after another in the area itself. Requires as `two_piece`, and no source that overlaps the destination.
fn two_last<M: Mixing, N: Mixing>(
    area: &mut [f32],
    first: Source<M>,
    then: Source<N>,
    to: usize,
    m: usize,
    k: usize,
)
    requires first { Piece (first.0 + k) (to + k) m k area.old × PartsApart (first.0 + k) (to + k) m }
    requires then { Piece (then.0 + k) (to + k) m k area.old × PartsApart (then.0 + k) (to + k) m }
    ensures { area.new ≡ two_at (by_gain (M.mixed first.1) (M.gain first.1)) (by_gain (N.mixed then.1) (N.gain then.1)) (first.0 + k) (then.0 + k) (to + k) m k area.old }
{
    let from = first.0 + k;
    let other = then.0 + k;
    let start = to + k;
    let g = later(first.1.gain(), k as u32);
    let h = later(then.1.gain(), k as u32);
    let before = g.on_ramp(k + m);
    let after = h.on_ramp(k + m);
    // All three parts lie in one area, which cannot be lent twice: hence the index.
    for i in 0..m {
        let v = g.factor((k + i) as u32, before);
        let w = h.factor((k + i) as u32, after);
        let y = first.1.mix(area[from + i], area[start + i], v);
        area[start + i] = then.1.mix(area[other + i], y, w);
    }
}

// Mixes the first source, then the second, into d, in one pass. Requires two buffers other than d, all within the area, and a block that is not too long.
// A piece is a place of the block in several buffers of one area, here and below: no list is walked.
pub fn two_into<M: Mixing, N: Mixing>(
    area: &mut [f32],
    block: usize,
    first: Source<M>,
    then: Source<N>,
    d: usize,
)
    requires first { Pair block first.0 d area.old }
    requires then { Pair block then.0 d area.old }
    ensures { area.new ≡ two_in (by_gain (M.mixed first.1) (M.gain first.1)) (by_gain (N.mixed then.1) (N.gain then.1)) block first.0 then.0 d area.old }
{
    let from = (first.0 * block, first.1);
    let other = (then.0 * block, then.1);
    let to = d * block;
    let e = block / PIECE;
    for i in 0..e {
        two_piece(area, from, other, to, PIECE, PIECE * i);
    }
    let r = PIECE * e;
    if r == block {
        return;
    }
    if M::SHORT_PIECE {
        two_piece(area, from, other, to, block - r, r);
    } else {
        two_last(area, from, other, to, block - r, r);
    }
}

// A whole piece from sample k on of the buffers that begin at `to` and `next`: each source is added to both, by the two factors of it, term after term.
// Requires as `two_last` for both, and that these two do not overlap.
fn add_four_piece(
    area: &mut [f32],
    first: Source<(f32, f32)>,
    then: Source<(f32, f32)>,
    to: usize,
    next: usize,
    k: usize,
)
    requires first { Piece (first.0 + k) (to + k) whole_piece k area.old × PartsApart (first.0 + k) (to + k) whole_piece }
    requires then { Piece (then.0 + k) (to + k) whole_piece k area.old × PartsApart (then.0 + k) (to + k) whole_piece }
    requires next { Piece (next + k) (to + k) whole_piece k area.old × PartsApart (next + k) (to + k) whole_piece }
    ensures { area.new ≡ two_at (plus_scaled (gain.Rest first.1.1)) (plus_scaled (gain.Rest then.1.1)) (first.0 + k) (then.0 + k) (next + k) whole_piece k (two_at (plus_scaled (gain.Rest first.1.0)) (plus_scaled (gain.Rest then.1.0)) (first.0 + k) (then.0 + k) (to + k) whole_piece k area.old) }
{
    let (a, f) = first.1;
    let (b, h) = then.1;
    let from = first.0 + k;
    let other = then.0 + k;
    let d = to + k;
    let e = next + k;
    let mut t = [0.0f32; PIECE];
    let mut u = [0.0f32; PIECE];
    mix_samples(&area[d..d + PIECE], &mut t, 0, Load);
    mix_samples(&area[e..e + PIECE], &mut u, 0, Load);
    mix_samples(&area[from..from + PIECE], &mut t, k, AddAtRest(a));
    mix_samples(&area[other..other + PIECE], &mut t, k, AddAtRest(b));
    mix_samples(&area[from..from + PIECE], &mut u, k, AddAtRest(f));
    mix_samples(&area[other..other + PIECE], &mut u, k, AddAtRest(h));
    store(&t, area, d, PIECE);
    store(&u, area, e, PIECE);
}

// Adds the first source, then the second, to d, and then both to e, by the two factors of each; in one pass. Requires as `two_into` for d and for e, and
// that these two differ.
pub fn add_four(
    area: &mut [f32],
    block: usize,
    first: Source<(f32, f32)>,
    then: Source<(f32, f32)>,
    d: usize,
    e: usize,
)
    requires d { Pair block first.0 d area.old × Pair block then.0 d area.old }
    requires e { Pair block first.0 e area.old × Pair block then.0 e area.old }
    requires differ { e ≡ d → ⊥ }
    ensures { area.new ≡ two_in (plus_scaled (gain.Rest first.1.1)) (plus_scaled (gain.Rest then.1.1)) block first.0 then.0 e (two_in (plus_scaled (gain.Rest first.1.0)) (plus_scaled (gain.Rest then.1.0)) block first.0 then.0 d area.old) }
{
    let from = (first.0 * block, first.1);
    let other = (then.0 * block, then.1);
    let to = d * block;
    let next = e * block;
    let n = block / PIECE;
    for i in 0..n {
        add_four_piece(area, from, other, to, next, PIECE * i);
    }
    let r = PIECE * n;
    if r == block {
        return;
    }
    let (a, f) = first.1;
    let (b, h) = then.1;
    two_last(
        area,
        (from.0, AddAtRest(a)),
        (other.0, AddAtRest(b)),
        to,
        block - r,
        r,
    );
    two_last(
        area,
        (from.0, AddAtRest(f)),
        (other.0, AddAtRest(h)),
        next,
        block - r,
        r,
    );
}
