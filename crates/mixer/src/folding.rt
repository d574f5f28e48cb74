// The calls of crates `format`, `format_balance`, `format_fold`, `format_table` and `rounding`. The parameters are those of include/mixer.h.
ghost use Rattle.std.specs.Prelude.{◌≡◌, length};
ghost use Rattle.rounding.specs.Narrow.{narrowed};
ghost use Rattle.format.specs.Formats.{channels, label_of, index_of, has};
ghost use Rattle.format_balance.specs.Balance.{balance_gains, balance_answer, balance_area, stereo_matrix};
ghost use Rattle.format_fold.specs.Width.{width_answer, width_area};
ghost use Rattle.format_table.specs.With.{with_answer, with_area};
ghost use Rattle.mixer_replies.specs.Replies.{status_of, gains_reply, stereo_reply};

use format::Format;
use format_fold::FoldGains;
use format_table::Table;
use mixer_replies::{GainsReply, Status, StereoReply, gains_reply, status_of, stereo_reply};

#[unsafe(no_mangle)]
pub extern "C" fn mixer_format_channels(format: u32) -> usize
    ensures { result ≡ channels format }
{
    Format::channels(format)
}

#[unsafe(no_mangle)]
pub extern "C" fn mixer_format_label(format: u32, channel: usize) -> u32
    ensures { result ≡ label_of format channel }
{
    Format::label(format, channel)
}

#[unsafe(no_mangle)]
pub extern "C" fn mixer_format_index(format: u32, label: u32) -> usize
    ensures { result ≡ index_of format label }
{
    Format::index(format, label)
}

#[unsafe(no_mangle)]
pub extern "C" fn mixer_format_has(format: u32, label: u32) -> bool
    ensures { result ≡ has format label }
{
    Format::has(format, label)
}

#[unsafe(no_mangle)]
pub extern "C" fn mixer_balance_gains(balance: f64) -> GainsReply
    ensures { result ≡ gains_reply (balance_gains balance) }
{
    gains_reply(format_balance::balance_gains(balance))
}

#[unsafe(no_mangle)]
pub extern "C" fn mixer_balance_of(format: u32, balance: f64, gains: &mut [f32]) -> Status
    ensures reply { result ≡ status_of (balance_answer format balance (length gains.old)) }
    ensures gains { gains.new ≡ balance_area format balance gains.old }
{
    status_of(format_balance::balance_of(format, balance, gains))
}

#[unsafe(no_mangle)]
pub extern "C" fn mixer_stereo_matrix(width: f64, balance: f64) -> StereoReply
    ensures { result ≡ stereo_reply (stereo_matrix width balance) }
{
    stereo_reply(format_balance::stereo_matrix(width, balance))
}

#[unsafe(no_mangle)]
pub extern "C" fn mixer_width_matrix(
    src: u32,
    dst: u32,
    gains: FoldGains,
    normalise: bool,
    matrix: &mut [f32],
) -> Status
    ensures reply { result ≡ status_of (width_answer src dst gains (length matrix.old)) }
    ensures matrix { matrix.new ≡ width_area src dst gains normalise matrix.old }
{
    status_of(format_fold::width_matrix(src, dst, gains, normalise, matrix))
}

#[unsafe(no_mangle)]
pub extern "C" fn mixer_width_matrix_with(
    src: u32,
    dst: u32,
    gains: FoldGains,
    normalise: bool,
    pairs: &[u32],
    table_gains: &[f32],
    matrix: &mut [f32],
) -> Status
    ensures reply { result ≡ status_of (with_answer src dst gains (length matrix.old) pairs.now table_gains.now) }
    ensures matrix { matrix.new ≡ with_area src dst gains normalise pairs.now table_gains.now matrix.old }
{
    status_of(format_table::width_matrix_with(
        src,
        dst,
        gains,
        normalise,
        Table {
            pairs,
            gains: table_gains,
        },
        matrix,
    ))
}

#[unsafe(no_mangle)]
pub extern "C" fn mixer_to_f32(x: f64) -> f32
    ensures { result ≡ narrowed x }
{
    rounding::to_f32(x)
}
