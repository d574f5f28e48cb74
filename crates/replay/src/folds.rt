// Records of formats, balances, folds and the rounding.
use crate::areas::room;
use crate::compare::{self, Compared};
use crate::data::{Record, double, word};
use comparison::floats;
use format::Format;
use format_fold::FoldGains;
use format_table::Table;

// Numbers: the format, a channel or a label, the channels, the label of the channel, the channel of the label, 1 where there is one.
pub fn labels(record: Record<'_>) -> Compared {
    let format = record.word(5);
    let n = record.word(6);
    compare::never_refused(record)?;
    compare::size(
        "channels",
        record.word(7) as usize,
        Format::channels(format),
    )?;
    compare::number("label", record.word(8), Format::label(format, n as usize))?;
    compare::size("index", record.word(9) as usize, Format::index(format, n))?;
    compare::yes("has", record.word(10), Format::has(format, n))
}

// Numbers: the balance, the two gains.
pub fn balance_gains(record: Record<'_>) -> Compared {
    let answer = format_balance::balance_gains(record.double(5));
    if let Some((left, right)) = compare::accepted(record, answer)? {
        compare::double("left gain", record.long(7), left)?;
        compare::double("right gain", record.long(9), right)?;
    }
    Ok(())
}

// Areas: the gains' area, the same after. Numbers: the format, the balance.
pub fn balance_of(record: Record<'_>) -> Compared {
    let mut out = room::<f32>();
    let out = record.lend(0, &mut out);
    let answer = format_balance::balance_of(record.word(9), record.double(10), out);
    compare::accepted(record, answer)?;
    compare::left("gains", record, 1, out)
}

// Numbers: the width, the balance, the four gains.
pub fn stereo_matrix(record: Record<'_>) -> Compared {
    let answer = format_balance::stereo_matrix(record.double(5), record.double(7));
    if let Some(gains) = compare::accepted(record, answer)? {
        compare::double("left from left", record.long(9), gains[0])?;
        compare::double("left from right", record.long(11), gains[1])?;
        compare::double("right from left", record.long(13), gains[2])?;
        compare::double("right from right", record.long(15), gains[3])?;
    }
    Ok(())
}

// The six gains among the numbers of a fold.
fn gains_of(numbers: &[u32]) -> FoldGains {
    FoldGains {
        pan_left: double(numbers, 3),
        pan_right: double(numbers, 5),
        mono_sum: double(numbers, 7),
        centre: double(numbers, 9),
        surround: double(numbers, 11),
        lfe: double(numbers, 13),
    }
}

// Areas: the matrix's area, the same after. Numbers: the two formats, 1 for normalise, the six gains.
pub fn width_matrix(record: Record<'_>) -> Compared {
    let mut out = room::<f32>();
    let out = record.lend(0, &mut out);
    let numbers = record.numbers();
    let answer = format_fold::width_matrix(
        word(numbers, 0),
        word(numbers, 1),
        gains_of(numbers),
        word(numbers, 2) == 1,
        out,
    );
    compare::accepted(record, answer)?;
    compare::left("matrix", record, 1, out)
}

// A fold with a table. Areas: the table's pairs, its gains, the matrix's area, the same after. Numbers: those of a fold.
pub fn width_matrix_with(record: Record<'_>) -> Compared {
    let mut table_gains = room::<f32>();
    let mut out = room::<f32>();
    let out = record.lend(2, &mut out);
    let numbers = record.numbers();
    let answer = format_table::width_matrix_with(
        word(numbers, 0),
        word(numbers, 1),
        gains_of(numbers),
        word(numbers, 2) == 1,
        Table {
            pairs: record.area(0),
            gains: record.lend(1, &mut table_gains),
        },
        out,
    );
    compare::accepted(record, answer)?;
    compare::left("matrix", record, 3, out)
}

// Numbers: the f64, the f32's bits.
pub fn to_f32(record: Record<'_>) -> Compared {
    let x = rounding::to_f32(record.double(5));
    compare::never_refused(record)?;
    compare::number("rounded", record.word(7), floats::bits_of(x))
}
