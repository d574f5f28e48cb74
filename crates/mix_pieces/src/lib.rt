// One buffer into another, in whole pieces: the source's part is handed on to the loop, and the destination's samples go through a local,
// since two parts of one area cannot be lent at once. The samples after the last whole piece go one by one, or on a Send's ramp as a shorter piece.
// All of it is for the crates above and not the interface: a function that has a `requires` says in its comment what it takes.
#![tactic(auto)]

ghost use Rattle.std.specs.Prelude.{◌≡◌};
ghost use Rattle.mix.specs.Samples.{sample, put};
ghost use Rattle.mix.specs.Mix.{Pair};
ghost use Rattle.mix.specs.Loops.{by_gain, mixed_at, Piece, PartsApart};

use mix_samples::{Load, Mixing, PIECE, later, mix_samples, store};

// Mixes s into d, m samples from sample k on. Requires at most a piece of a block, with both parts within the area.
fn mix_piece<M: Mixing>(area: &mut [f32], from: usize, to: usize, m: usize, k: usize, by: M)
    requires { Piece from to m k area.old }
    ensures { area.new ≡ mixed_at (by_gain (M.mixed by) (M.gain by)) from to m k area.old }
{
    let mut t = [0.0f32; PIECE];
    mix_samples(&area[to..to + m], &mut t, 0, Load);
    mix_samples(&area[from..from + m], &mut t, k, by);
    store(&t, area, to, m);
}

// The same, one sample after another in the area itself. Requires as `mix_piece`, and two parts that do not overlap.
fn mix_last<M: Mixing>(area: &mut [f32], from: usize, to: usize, m: usize, k: usize, by: M)
    requires { Piece from to m k area.old × PartsApart from to m }
    ensures { area.new ≡ mixed_at (by_gain (M.mixed by) (M.gain by)) from to m k area.old }
{
    let g = later(by.gain(), k as u32);
    let whole = g.on_ramp(k + m);
    // Both parts lie in one area, which cannot be lent twice: hence the index.
    for i in 0..m {
        let v = g.factor((k + i) as u32, whole);
        area[to + i] = by.mix(area[from + i], area[to + i], v);
    }
}

// Mixes s into d. Requires two different buffers within the area, and a block that is not too long.
// A piece is a place of the block in two buffers of one area: no list is walked.
pub fn mix_into<M: Mixing>(area: &mut [f32], block: usize, s: usize, d: usize, by: M)
    requires { Pair block s d area.old }
    ensures { area.new ≡ put block d (λ k. by_gain (M.mixed by) (M.gain by) k (sample block area.old s k) (sample block area.old d k)) area.old }
{
    let from = s * block;
    let to = d * block;
    let e = block / PIECE;
    for i in 0..e {
        mix_piece(area, from + PIECE * i, to + PIECE * i, PIECE, PIECE * i, by);
    }
    let r = PIECE * e;
    if r == block {
        return;
    }
    if M::SHORT_PIECE {
        mix_piece(area, from + r, to + r, block - r, r, by);
    } else {
        mix_last(area, from + r, to + r, block - r, r, by);
    }
}
