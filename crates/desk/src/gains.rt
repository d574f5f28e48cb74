// Gains for panners, widths and folds, worked out by the library.
ghost use Rattle.std.specs.Prelude.{◌≡◌, true, length};
ghost use Rattle.format_balance.specs.Balance.{balance_answer, balance_area};
ghost use Rattle.format_fold.specs.Bs775.{standard_gains};
ghost use Rattle.format_fold.specs.Width.{width_answer as fold_answer, width_area as fold_area};
ghost use Rattle.desk.specs.Gains.{stereo, width_answer, width_area};

use format::Format;
use format_fold::FoldGains;
use refusal::{Answer, Reason};

// 1/√2.
const HALF_POWER: f64 = 0.7071067811865476;

// Left and right at the balance b, from -1 to 1: the gains of a panner, two rows of one column.
pub fn pan(b: f64, out: &mut [f32]) -> Answer
    ensures { (result ≡ balance_answer stereo b (length out.old)) × (out.new ≡ balance_area stereo b out.old) }
{
    format_balance::balance_of(Format::STEREO, b, out)
}

// The width w of a stereo signal, from 0, which is mono, to 2: two rows of two columns.
#[tactic(auto, unfolding(crate::specs::Gains::width_answer, crate::specs::Gains::width_area))]
pub fn width(w: f64, out: &mut [f32]) -> Answer
    ensures { (result ≡ width_answer w (length out.old)) × (out.new ≡ width_area w out.old) }
{
    if out.len() < 4 {
        return Err(Reason::ShortArea.into());
    }
    let [ll, lr, rl, rr] = format_balance::stereo_matrix(w, 0.0)?;
    out[0] = rounding::to_f32(ll);
    out[1] = rounding::to_f32(lr);
    out[2] = rounding::to_f32(rl);
    out[3] = rounding::to_f32(rr);
    Ok(())
}

// From one format to another: a row for each channel of dst, a column for each of src. The LFE is dropped where dst has none.
pub fn folded(src: u32, dst: u32, out: &mut [f32]) -> Answer
    ensures { (result ≡ fold_answer src dst standard_gains (length out.old)) × (out.new ≡ fold_area src dst standard_gains true out.old) }
{
    let gains = FoldGains {
        pan_left: HALF_POWER,
        pan_right: HALF_POWER,
        mono_sum: HALF_POWER,
        centre: HALF_POWER,
        surround: HALF_POWER,
        lfe: 0.0,
    };
    format_fold::width_matrix(src, dst, gains, true, out)
}
