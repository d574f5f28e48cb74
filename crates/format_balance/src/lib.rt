// The balance of left and right channels, and the stereo width. Ports `balance_gains`, `balance_of` and `stereo_matrix` of src/mix/format.rs.
#![tactic(auto)]

ghost use Rattle.std.specs.Prelude.{◌≡◌, ◌≤◌, ◌++◌, length, drop};
ghost use Rattle.format.specs.Formats.{channels};
ghost use Rattle.format_balance.specs.Balance.{side};
ghost use Rattle.format_balance.specs.Balance.{bad_balance, at_most_one, left_gain, right_gain, balance_gains, of_side, gains_of, balance_answer, balance_area, width_in, stereo_matrix};

use format::{Format, NO_LABEL};
use refusal::{Answer, Reason, Refusal};

// The side of each label: 1 left, 2 right, 0 neither. LFE is on no side.
const SIDE: [u32; 15] = [0, 1, 2, 0, 0, 1, 2, 1, 2, 1, 2, 1, 2, 1, 2];

// 1 for a left label, 2 for a right one, 0 for any other.
#[tactic(auto, unfolding(crate::specs::Balance::side))]
fn side(label: u32) -> u32
    ensures { result ≡ side label }
{
    if NO_LABEL <= label {
        return 0;
    }
    SIDE[label as usize]
}

// A NaN or an infinity.
fn bad_balance(b: f64) -> bool
    ensures { result ≡ bad_balance b }
{
    !b.is_finite()
}

// Not `min`, which may give either of two that compare equal.
#[tactic(auto, unfolding(crate::specs::Balance::at_most_one))]
fn at_most_one(x: f64) -> f64
    ensures { result ≡ at_most_one x }
{
    if x < 1.0 { x } else { 1.0 }
}

#[tactic(auto, unfolding(crate::specs::Balance::left_gain))]
fn left_gain(b: f64) -> f64
    ensures { result ≡ left_gain b }
{
    at_most_one(1.0 - b.clamp(-1.0, 1.0))
}

#[tactic(auto, unfolding(crate::specs::Balance::right_gain))]
fn right_gain(b: f64) -> f64
    ensures { result ≡ right_gain b }
{
    at_most_one(1.0 + b.clamp(-1.0, 1.0))
}

// The gains of the left and of the right channels at the balance b: -1 left only, 0 both, 1 right only.
#[tactic(auto, unfolding(crate::specs::Balance::balance_gains))]
pub fn balance_gains(b: f64) -> Result<(f64, f64), Refusal>
    ensures { result ≡ balance_gains b }
{
    if bad_balance(b) {
        return Err(Reason::OutOfRange.into());
    }
    let gl = left_gain(b);
    let gr = right_gain(b);
    Ok((gl, gr))
}

#[tactic(auto, unfolding(crate::specs::Balance::of_side))]
fn of_side(l: f32, r: f32, side: u32) -> f32
    ensures { result ≡ of_side l r side }
{
    if side == 1 {
        return l;
    }
    if side == 2 {
        return r;
    }
    1.0
}

// A gain for each of the format's channels, by its side. Requires room for them.
#[tactic(auto, using(lists::proofs::Filled::filled_more, lists::proofs::Filled::filled_all), unfolding(crate::specs::Balance::gains_of, format::specs::Formats::channels))]
fn put_gains(format: u32, left: f32, right: f32, out: &mut [f32])
    requires { channels format ≤ length out.old }
    ensures { out.new ≡ gains_of left right format ++ drop (channels format) out.old }
{
    for (c, label) in Format::labels(format).iter().enumerate() {
        out[c] = of_side(left, right, side(*label));
    }
}

// The gain of each channel of a format at the balance b, written to the front of `out`.
#[tactic(auto, unfolding(crate::specs::Balance::balance_answer, crate::specs::Balance::balance_area))]
pub fn balance_of(format: u32, b: f64, out: &mut [f32]) -> Answer
    ensures { (result ≡ balance_answer format b (length out.old)) × (out.new ≡ balance_area format b out.old) }
{
    if Format::COUNT <= format {
        return Err(Reason::NoFormat.into());
    }
    if bad_balance(b) {
        return Err(Reason::OutOfRange.into());
    }
    if out.len() < Format::channels(format) {
        return Err(Reason::ShortArea.into());
    }
    let left = rounding::to_f32(left_gain(b));
    let right = rounding::to_f32(right_gain(b));
    put_gains(format, left, right, out);
    Ok(())
}

// From -2 to 2.
#[tactic(auto, unfolding(crate::specs::Balance::width_in))]
fn width_in(w: f64) -> bool
    ensures { result ≡ width_in w }
{
    -2.0 <= w && w <= 2.0
}

// The stereo width w (0 mono, 1 unchanged, 2 twice the side signal), then the balance b.
#[tactic(auto, unfolding(crate::specs::Balance::stereo_matrix))]
pub fn stereo_matrix(w: f64, b: f64) -> Result<[f64; 4], Refusal>
    ensures { result ≡ stereo_matrix w b }
{
    if !width_in(w) {
        return Err(Reason::OutOfRange.into());
    }
    if bad_balance(b) {
        return Err(Reason::OutOfRange.into());
    }
    let gl = left_gain(b);
    let gr = right_gain(b);
    let same = (1.0 + w) / 2.0;
    let cross = (1.0 - w) / 2.0;
    Ok([gl * same, gl * cross, gr * cross, gr * same])
}
