// What was compared, as counts.
use crate::data::Record;
use crate::kinds::Kind;
use refusal::Reason;
use std::fmt;

// One more than there are kinds, which start at 1.
const KINDS: usize = Kind::ALL.len() + 1;

// The reasons have the numbers from 1 to this one.
const LAST_REASON: u32 = Reason::PairNotCovered as u32;

const REASONS: usize = LAST_REASON as usize + 1;

// How often each number came, of those below N.
#[derive(Clone, Copy)]
struct Counts<const N: usize> {
    of: [u64; N],
}

impl<const N: usize> Counts<N> {
    fn new() -> Counts<N> {
        Counts { of: [0; N] }
    }

    fn add(&mut self, number: u32) {
        if let Some(count) = self.of.get_mut(number as usize) {
            *count = count.wrapping_add(1);
        }
    }

    fn at(&self, number: u32) -> u64 {
        self.of.get(number as usize).copied().unwrap_or(0)
    }
}

#[derive(Drop)]
pub struct Tally {
    // By kind.
    records: Counts<KINDS>,
    // By the refusal's number, with the accepted calls at 0.
    refused: Counts<REASONS>,
    samples: u64,
    // Of single lists.
    inputs: u64,
    // Of calls that list all.
    slots: u64,
}

impl Tally {
    pub fn new() -> Tally {
        Tally {
            records: Counts::new(),
            refused: Counts::new(),
            samples: 0,
            inputs: 0,
            slots: 0,
        }
    }

    // A record that was compared.
    pub fn count(&mut self, kind: Kind, record: Record<'_>) {
        self.records.add(kind as u32);
        self.refused.add(record.word(2));
        // The kinds whose records count something: a table of functions would be no plainer.
        match kind {
            Kind::Process => self.samples = self.samples.wrapping_add(record.long(33)),
            Kind::OutputSources => self.inputs = self.inputs.wrapping_add(record.long(18)),
            Kind::AllSources => self.slots = self.slots.wrapping_add(record.long(21)),
            _ => (),
        }
    }

    fn by_call<W: fmt::Write>(&self, f: &mut fmt::Formatter<W>) -> fmt::Result {
        f.write_str("records compared, by call:\n")?;
        for kind in Kind::ALL {
            write!(f, "  {kind}: {}\n", self.records.at(kind as u32))?;
        }
        Ok(())
    }

    // The number is what is printed.
    fn by_reason<W: fmt::Write>(&self, f: &mut fmt::Formatter<W>) -> fmt::Result {
        f.write_str("refused calls, by number:\n")?;
        for number in 1..=LAST_REASON {
            write!(f, "  {number}: {}\n", self.refused.at(number))?;
        }
        Ok(())
    }
}

impl fmt::Display for Tally {
    fn fmt<W: fmt::Write>(&self, f: &mut fmt::Formatter<W>) -> fmt::Result {
        self.by_call(f)?;
        self.by_reason(f)?;
        write!(
            f,
            "{} output samples, {} inputs listed, ",
            self.samples, self.inputs
        )?;
        write!(f, "{} slots listed at once\n", self.slots)
    }
}
