// The records one after the other: whether one is whole, the call of its kind, and the counts.
use crate::compare::{Compared, Difference};
use crate::counts::Tally;
use crate::data::Record;
use crate::kinds::Kind;
use crate::{builds, folds, inserts, runs, traces};
use std::fmt;

// Where the records end before their number, from 1: at one that is not whole, or whose call differs.
#[derive(Clone, Copy, Debug)]
pub enum Stop {
    NotWhole {
        i: u32,
    },
    // Of the number 0, with no area and no number. It is whole, but of no call.
    NoCall {
        i: u32,
    },
    Differs {
        i: u32,
        kind: Kind,
        difference: Difference,
    },
}

impl fmt::Display for Stop {
    fn fmt<W: fmt::Write>(&self, f: &mut fmt::Formatter<W>) -> fmt::Result {
        match *self {
            Stop::NotWhole { i } => write!(f, "bad data: record {i} is not whole\n"),
            // As a difference of the last call, whose name stands for a number that no call has.
            Stop::NoCall { i } => write!(f, "\ndifference in record {i}, {}\n", Kind::ToF32),
            Stop::Differs {
                i,
                kind,
                difference,
            } => write!(f, "{difference}\ndifference in record {i}, {kind}\n"),
        }
    }
}

// The kind of a record that is whole: of a kind that there is, with that kind's areas and numbers, and with its areas in the file.
fn kind_of(record: Record<'_>) -> Option<Kind> {
    let kind = Kind::try_from(record.word(0)).ok()?;
    let (areas, numbers) = kind.shape();
    record.fits(areas, numbers).then_some(kind)
}

// The call of a record: whether everything is what the record has. One `match` over the closed enum is plainer than a table of functions.
fn compared(kind: Kind, record: Record<'_>) -> Compared {
    match kind {
        Kind::New => builds::new(record),
        Kind::Buffers => builds::buffers(record),
        Kind::First => builds::first(record),
        Kind::Buffer => builds::buffer(record),
        Kind::Coefficients => builds::coefficients(record),
        Kind::Node => builds::node(record),
        Kind::Step => builds::step(record),
        Kind::Insert => inserts::insert(record),
        Kind::Finish => builds::finish(record),
        Kind::CheckPlan => runs::check_plan(record),
        Kind::SetParam => runs::set_param(record),
        Kind::Process => runs::process(record),
        Kind::Lookup => runs::lookup(record),
        Kind::DirectoryBad => runs::directory_bad(record),
        Kind::OutputSources => traces::output_sources(record),
        Kind::AllSources => traces::all_sources(record),
        Kind::CleanAnswer => traces::clean_answer(record),
        Kind::Adopt => runs::adopt(record),
        Kind::Labels => folds::labels(record),
        Kind::BalanceGains => folds::balance_gains(record),
        Kind::BalanceOf => folds::balance_of(record),
        Kind::StereoMatrix => folds::stereo_matrix(record),
        Kind::WidthMatrix => folds::width_matrix(record),
        Kind::WidthMatrixWith => folds::width_matrix_with(record),
        Kind::ToF32 => folds::to_f32(record),
    }
}

// Record i, from 1.
fn one(record: Record<'_>, i: u32) -> Result<Kind, Stop> {
    if record.word(0) == 0 && record.fits(0, 0) {
        return Err(Stop::NoCall { i });
    }
    let kind = kind_of(record).ok_or(Stop::NotWhole { i })?;
    compared(kind, record).map_err(|difference| Stop::Differs {
        i,
        kind,
        difference,
    })?;
    Ok(kind)
}

// All n records, from a word of the file on, up to the first one that differs.
// A record begins where the one before it ends: hence its place beside the count.
pub fn all(file: &[u32], start: usize, n: u32, tally: &mut Tally) -> Result<(), Stop> {
    let mut at = start;
    for i in 0..n {
        let record = Record::at(file, at);
        let kind = one(record, i + 1)?;
        tally.count(kind, record);
        at = at.wrapping_add(record.len());
    }
    Ok(())
}
