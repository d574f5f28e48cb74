// The fold by a house table (request C-14): a sound designer's own coefficients in place of the built-in fold. `applies` ports src/mix/downmix.rs.
#![tactic(auto)]

use format_fold::FoldGains;
use refusal::Answer;

mod pairs;
mod table;

ghost use Rattle.std.specs.Prelude.{◌≡◌, length};
ghost use Rattle.format_table.specs.With.{with_answer, with_area};

pub use table::Table;

// The mapping from the format src to dst, written row by row to the front of `out`: the table's entry where it covers the pair, whatever the flag, else
// what `width_matrix` writes.
#[tactic(auto, using(crate::proofs::With::decides, crate::proofs::Exact::table_sound, format_fold::proofs::Answers::fitting, crate::proofs::Tables::entry_length))]
pub fn width_matrix_with(
    src: u32,
    dst: u32,
    gains: FoldGains,
    normalise: bool,
    table: Table<'_>,
    out: &mut [f32],
) -> Answer
    ensures answer { result ≡ with_answer src dst gains (length out.old) table.entry.pairs.now table.entry.gains.now }
    ensures out { out.new ≡ with_area src dst gains normalise table.entry.pairs.now table.entry.gains.now out.old }
{
    format_fold::width_answer(src, dst, gains, out.len())?;
    table.answer()?;
    if pairs::applies(src, dst) {
        let entry = table.find_entry(src, dst);
        lists::put(entry, 0, out);
        return Ok(());
    }
    format_fold::width_matrix(src, dst, gains, normalise, out)
}
