// The width mapping from one format to another as a matrix of gains. Ports `width_matrix` and `fold` of src/mix/format.rs.
#![tactic(auto)]

ghost use Rattle.std.specs.Prelude.{◌≡◌, ◌<◌, ◌≤◌, ◌++◌, map, length, drop};
ghost use Rattle.rounding.specs.Narrow.{narrowed};
ghost use Rattle.format.specs.Floats.{zero64};
ghost use Rattle.format_fold.specs.Folds.{gain_in_range, gains_in_range, first_had, folds_to, depth, folded, matrix_of};
ghost use Rattle.format_fold.specs.Width.{absolute, row_sum, larger, divided, normalised, width_answer, width_area};

use format::Format;
use refusal::{Answer, Reason};

// The caller's linear gains. The pan pair is that of a mono signal in the centre, left and right.
#[repr(C)]
#[derive(Clone, Copy)]
pub struct FoldGains {
    pub pan_left: f64,
    pub pan_right: f64,
    pub mono_sum: f64,
    pub centre: f64,
    pub surround: f64,
    pub lfe: f64,
}

// Rows times columns entries, row after row, of at most 12 by 12; the rest is 0.
#[derive(Clone, Copy)]
pub struct Matrix {
    pub entries: [f64; 144],
}

// The labels that a label turns into where the destination lacks it, each with its gain: none, one or two, so that no case of Option or Result fits.
#[derive(Clone, Copy)]
pub enum Targets {
    Nothing,
    One(u32, f64),
    Two(u32, f64, u32, f64),
}

// 1/√2, the f64 with the bits 3FE6A09E667F3BCD.
const HALF_POWER: f64 = 0.7071067811865476;

// From +0 to 16: of an f32 too, which is the same number as an f64. It is for the crates above too, and no call of the interface.
pub fn in_range(g: f64) -> bool
    ensures { result ≡ gain_in_range g }
{
    g <= 16.0 && !g.is_sign_negative()
}

#[tactic(auto, unfolding(crate::specs::Folds::gains_in_range))]
fn gains_in_range(g: FoldGains) -> bool
    ensures { result ≡ gains_in_range g }
{
    in_range(g.pan_left)
        & in_range(g.pan_right)
        & in_range(g.mono_sum)
        & in_range(g.centre)
        & in_range(g.surround)
        & in_range(g.lfe)
}

// The label a at the gain x where the format dst has it, else the label b at the gain y.
fn first_had(dst: u32, a: u32, x: f64, b: u32, y: f64) -> Targets
    ensures { result ≡ first_had dst a x b y }
{
    if Format::has(dst, a) {
        return Targets::One(a, x);
    }
    Targets::One(b, y)
}

// What a label turns into that the format dst lacks.
#[tactic(auto, unfolding(crate::specs::Folds::folds_to))]
fn folds_to(label: u32, dst: u32, g: FoldGains) -> Targets
    ensures { result ≡ folds_to g dst label }
{
    match label {
        format::M => {
            if Format::has(dst, format::C) {
                return Targets::One(format::C, 1.0);
            }
            Targets::Two(format::L, g.pan_left, format::R, g.pan_right)
        }
        format::L => Targets::One(format::M, g.mono_sum),
        format::R => Targets::One(format::M, g.mono_sum),
        format::C => Targets::Two(format::L, g.centre, format::R, g.centre),
        format::LFE => {
            if 0.0 < g.lfe {
                return Targets::Two(format::L, g.lfe, format::R, g.lfe);
            }
            Targets::Nothing
        }
        format::LS => first_had(dst, format::LSS, 1.0, format::L, g.surround),
        format::RS => first_had(dst, format::RSS, 1.0, format::R, g.surround),
        format::LSS => Targets::One(format::LS, HALF_POWER),
        format::RSS => Targets::One(format::RS, HALF_POWER),
        format::LRS => Targets::One(format::LS, HALF_POWER),
        format::RRS => Targets::One(format::RS, HALF_POWER),
        format::LTF => Targets::One(format::L, HALF_POWER),
        format::RTF => Targets::One(format::R, HALF_POWER),
        format::LTR => first_had(dst, format::LRS, HALF_POWER, format::LS, HALF_POWER),
        format::RTR => first_had(dst, format::RRS, HALF_POWER, format::RS, HALF_POWER),
        _ => Targets::Nothing,
    }
}

// A column of the mapping into the format dst: the place s of so many.
#[derive(Clone, Copy)]
struct Column {
    dst: u32,
    gains: FoldGains,
    columns: usize,
    s: usize,
    ghost fits: { (dst < 7) × ((s < columns) × (columns ≤ 12)) },
}

impl Column {
    // m with the label added at the gain x: to its entry where dst has the label, else through what it turns into. Requires a label.
    #[tactic(auto, using(crate::proofs::Ranks::turns, crate::proofs::Rows::cell, format::proofs::Labels::channels_le))]
    fn fold(self, label: u32, x: f64, m: Matrix) -> Matrix
        requires { label < 15 }
        ensures { result.entries ≡ folded depth self.gains self.dst self.columns self.s label x m.entries }
    {
        let d = Format::index(self.dst, label);
        if d < Format::channels(self.dst) {
            let at = d * self.columns + self.s;
            let mut sum = m;
            sum.entries[at] = sum.entries[at] + x;
            return sum;
        }
        match folds_to(label, self.dst, self.gains) {
            Targets::Nothing => m,
            Targets::One(to, by) => self.fold(to, x * by, m),
            Targets::Two(l, by_l, r, by_r) => {
                let first = self.fold(l, x * by_l, m);
                self.fold(r, x * by_r, first)
            }
        }
    }
}

// Every label of src, each in its column. Requires that dst is a format.
#[tactic(auto, using(format::proofs::Labels::channels_le, format::proofs::Labels::label_lt), unfolding(crate::specs::Folds::matrix_of, format::specs::Formats::channels))]
fn mapping(src: u32, dst: u32, gains: FoldGains) -> Matrix
    requires { dst < 7 }
    ensures { result.entries ≡ matrix_of src dst gains }
{
    let columns = Format::channels(src);
    let mut m = Matrix {
        entries: [0.0f64; 144],
    };
    for (s, label) in Format::labels(src).iter().enumerate() {
        let column = Column {
            dst,
            gains,
            columns,
            s,
        };
        m = column.fold(*label, 1.0, m);
    }
    m
}

// Of -0 it is -0: hence not `abs`.
#[tactic(auto, unfolding(crate::specs::Width::absolute))]
fn absolute(x: f64) -> f64
    ensures { result ≡ absolute x }
{
    if x < 0.0 { -x } else { x }
}

// Where a is a NaN it is a: hence not `max`.
#[tactic(auto, unfolding(crate::specs::Width::larger))]
fn larger(a: f64, b: f64) -> f64
    ensures { result ≡ larger a b }
{
    if a < b { b } else { a }
}

// The sum of the magnitudes of a row.
fn row_sum(row: &[f64]) -> f64
    ensures { result ≡ row_sum zero64 row.now }
{
    let mut sum = 0.0;
    for x in row {
        sum = sum + absolute(*x);
    }
    sum
}

#[tactic(auto, using(lists::proofs::Filled::filled_next, lists::proofs::Filled::filled_more, lists::proofs::Filled::filled_all))]
fn divided(m: &mut Matrix, by: f64)
    ensures { m.new.entries ≡ divided by m.old.entries }
{
    for x in m.entries.iter_mut() {
        *x = *x / by;
    }
}

// A mapping from 3.0 or wider into fewer channels, divided, where asked, by its largest row sum, if that is above 1: where it lies, since a matrix
// that is handed back needs `memmove` of C. Not inlined, so that nothing of it is on the stack while the mapping folds. Requires at most 12 rows and columns.
#[tactic(auto, using(crate::proofs::Rows::row_steps), unfolding(crate::specs::Width::normalised))]
#[inline(never)]
fn normalised(m: &mut Matrix, rows: usize, columns: usize, normalise: bool)
    requires { (rows ≤ 12) × (columns ≤ 12) }
    ensures { m.new.entries ≡ normalised normalise rows columns m.old.entries }
{
    if !normalise {
        return;
    }
    if columns <= 2 {
        return;
    }
    if columns <= rows {
        return;
    }
    let mut most = 0.0;
    for row in m.entries[..rows * columns].chunks_exact(columns) {
        most = larger(most, row_sum(row));
    }
    if 1.0 < most {
        divided(m, most);
    }
}

// The entries, as f32. Requires room for them.
#[tactic(auto, using(lists::proofs::Filled::filled_more))]
fn put(entries: &[f64], out: &mut [f32])
    requires { length entries.now ≤ length out.old }
    ensures { out.new ≡ map narrowed entries.now ++ drop (length entries.now) out.old }
{
    for (i, x) in entries.iter().enumerate() {
        out[i] = rounding::to_f32(*x);
    }
}

// The tests of `width_matrix`, for an area of n floats. They are for the crates above too, and no call of the interface.
#[tactic(auto, using(crate::proofs::Rows::size), unfolding(crate::specs::Width::width_answer))]
pub fn width_answer(src: u32, dst: u32, gains: FoldGains, n: usize) -> Answer
    ensures { result ≡ width_answer src dst gains n }
{
    if Format::COUNT <= src {
        return Err(Reason::NoFormat.into());
    }
    if Format::COUNT <= dst {
        return Err(Reason::NoFormat.into());
    }
    if !gains_in_range(gains) {
        return Err(Reason::OutOfRange.into());
    }
    if n < Format::channels(dst) * Format::channels(src) {
        return Err(Reason::ShortArea.into());
    }
    Ok(())
}

// The mapping from the format src to dst, written row by row to the front of `out`: a row for each channel of dst, a column for each of src.
#[tactic(auto, using(crate::proofs::Rows::few, crate::proofs::Rows::size, crate::proofs::Answers::fitting), unfolding(crate::specs::Width::width_area, crate::specs::Width::entries_of))]
pub fn width_matrix(
    src: u32,
    dst: u32,
    gains: FoldGains,
    normalise: bool,
    out: &mut [f32],
) -> Answer
    ensures { (result ≡ width_answer src dst gains (length out.old)) × (out.new ≡ width_area src dst gains normalise out.old) }
{
    width_answer(src, dst, gains, out.len())?;
    let columns = Format::channels(src);
    let rows = Format::channels(dst);
    let mut m = mapping(src, dst, gains);
    normalised(&mut m, rows, columns, normalise);
    put(&m.entries[..rows * columns], out);
    Ok(())
}
