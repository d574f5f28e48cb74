// The loops over the samples of one piece, by a gain.
ghost use Rattle.std.specs.Prelude.{◌≡◌, ℕ, ◌+◌, ◌≤◌, ◌<◌, length, get_or};
ghost use Rattle.std.proofs.lemmas.List.Edits.{sets};
ghost use Rattle.std.specs.Float.{nan};
ghost use Rattle.node.specs.Sizes.{max_ramp};
ghost use Rattle.node.specs.Nodes.{factor};
ghost use Rattle.mix.specs.Samples.{silence, sampled};
ghost use Rattle.mix.specs.Mix.{silent};
ghost use Rattle.mix.specs.Loops.{whole_piece, by_gain, mixed_into};

use super::mixing::Mixing;
use node::Gain;

// The samples of a whole piece: as many as stay in registers.
pub const PIECE: usize = 16;

// The gain for samples k on: at rest once its ramp is over.
pub fn later(g: Gain, k: u32) -> Gain
    ensures { (i : ℕ) → k ≤ i → factor result i ≡ factor g i }
{
    match g {
        Gain::Rest(t) => Gain::Rest(t),
        Gain::Moving(cur, step, t, left) => {
            if k < left {
                Gain::Moving(cur, step, t, left)
            } else {
                Gain::Rest(t)
            }
        }
    }
}

// At rest and equal to 0.
#[tactic(auto, unfolding(mix::specs::Mix::silent))]
pub fn is_silent(g: Gain) -> bool
    ensures { result ≡ silent g }
{
    match g {
        Gain::Rest(t) => t == 0.0,
        Gain::Moving(_, _, _, _) => false,
    }
}

// Mixes x into the start of y, where x starts at sample k. Requires at most a piece of a block.
pub fn mix_samples<M: Mixing>(x: &[f32], y: &mut [f32; PIECE], k: usize, m: M)
    requires piece { (length x.now ≤ whole_piece) × (k + length x.now ≤ max_ramp) }
    ensures mixed { y.new ≡ mixed_into (by_gain (M.mixed m) (M.gain m)) k (length x.now) x.now y.old }
{
    let g = later(m.gain(), k as u32);
    let whole = g.on_ramp(k + x.len());
    for (i, s) in x.iter().enumerate() {
        y[i] = m.mix(*s, y[i], g.factor((k + i) as u32, whole));
    }
}

// The first m of t, in the area from `to` on. Requires at most a piece, within the area.
#[tactic(auto, using(mix::proofs::Stored::part_stored))]
pub fn store(t: &[f32; PIECE], area: &mut [f32], to: usize, m: usize)
    requires fits { (to + m ≤ length area.old) × (m ≤ whole_piece) }
    ensures { area.new ≡ sets area.old to (sampled m (λ i. get_or t.now i nan)) }
{
    // By `copy`, for its speed.
    copy(&t[..], &mut area[to..to + m]);
}

// y becomes the start of x. Requires an x that is long enough.
pub fn copy(x: &[f32], y: &mut [f32])
    requires { length y.old ≤ length x.now }
    ensures { y.new ≡ sampled (length y.old) (λ i. get_or x.now i nan) }
{
    // `copy_from_slice` makes a step with two sources slower by a third and more.
    for (i, sample) in y.iter_mut().enumerate() {
        *sample = x[i];
    }
}

// +0 in all of y.
#[tactic(auto, using(mix::proofs::Stored::repeated_sampled))]
pub fn fill(y: &mut [f32])
    ensures { y.new ≡ sampled (length y.old) (λ i. silence) }
{
    // One sample by `fill`, which stores the last by itself: for 16 that takes two fifths longer than a loop, and a loop three times as long for one.
    if y.len() < 2 {
        y.fill(0.0);
        return;
    }
    for sample in y.iter_mut() {
        *sample = 0.0;
    }
}
