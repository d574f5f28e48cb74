// What a call gave, beside what the file has.
ghost use Rattle.std.specs.Prelude.{◌≡◌, nat_eq, is_ok, is_none};
ghost use Rattle.comparison.specs.Lists.{compared};

use crate::data::Record;
use comparison::{Entry, floats};
use plan::{Plan, Span};
use refusal::Refusal;
use std::fmt;

// A word of the reference, and the one here.
#[derive(Clone, Copy, Debug, PartialEq, Eq)]
pub struct Words {
    reference: u32,
    here: u32,
}

// The first difference of a record.
#[derive(Clone, Copy, Debug, PartialEq, Eq)]
pub struct Difference {
    what: &'static str,
    // The entry of a list.
    entry: Option<usize>,
    // The upper words, where a number has two.
    upper: Option<Words>,
    lower: Words,
}

pub type Compared = Result<(), Difference>;

impl Words {
    // The lower words of two numbers.
    fn lower(reference: u64, here: u64) -> Words {
        Words {
            reference: (reference % 0x1_0000_0000) as u32,
            here: (here % 0x1_0000_0000) as u32,
        }
    }
}

impl fmt::Display for Words {
    fn fmt<W: fmt::Write>(&self, f: &mut fmt::Formatter<W>) -> fmt::Result {
        write!(
            f,
            "reference {:08x}, here {:08x}",
            self.reference, self.here
        )
    }
}

impl fmt::Display for Difference {
    fn fmt<W: fmt::Write>(&self, f: &mut fmt::Formatter<W>) -> fmt::Result {
        f.write_str(self.what)?;
        if let Some(i) = self.entry {
            write!(f, "[{i}]")?;
        }
        if let Some(upper) = self.upper {
            write!(f, ": {upper}, lower half")?;
        }
        write!(f, ": {}", self.lower)
    }
}

// One number.
// Here and below the same clause for each width of number, which have no type in common.
pub fn number(what: &'static str, reference: u32, here: u32) -> Compared
    ensures { is_ok result ≡ nat_eq reference here }
{
    if reference == here {
        return Ok(());
    }
    Err(Difference {
        what,
        entry: None,
        upper: None,
        lower: Words { reference, here },
    })
}

// Yes or no; the reference's yes is 1.
pub fn yes(what: &'static str, reference: u32, here: bool) -> Compared {
    number(what, reference, u32::from(here))
}

// One number of 64 bits.
fn long(what: &'static str, reference: u64, here: u64) -> Compared
    ensures { is_ok result ≡ nat_eq reference here }
{
    if reference == here {
        return Ok(());
    }
    Err(Difference {
        what,
        entry: None,
        upper: Some(Words::lower(reference >> 32, here >> 32)),
        lower: Words::lower(reference, here),
    })
}

pub fn size(what: &'static str, reference: usize, here: usize) -> Compared
    ensures { is_ok result ≡ nat_eq reference here }
{
    long(what, reference as u64, here as u64)
}

// An f64, by its bits.
pub fn double(what: &'static str, reference: u64, here: f64) -> Compared {
    long(what, reference, floats::bits_of_double(here))
}

// The word of entry i, and 0 past the end.
fn word_at<T: Entry>(list: &[T], i: usize) -> u32 {
    match list.get(i) {
        Some(entry) => entry.word(),
        None => 0,
    }
}

// Whether two lists are the same; if not, their words at the first difference.
fn list<T: Entry>(what: &'static str, reference: &[u32], here: &[T]) -> Compared
    ensures { is_ok result ≡ is_none (compared T.word_of reference.now here.now) }
{
    match comparison::difference(reference, here) {
        Some(i) => Err(Difference {
            what,
            entry: Some(i),
            upper: None,
            lower: Words {
                reference: word_at(reference, i),
                here: word_at(here, i),
            },
        }),
        None => Ok(()),
    }
}

// What a call left, beside area i of the record.
pub fn left<T: Entry>(what: &'static str, record: Record<'_>, i: u8, here: &[T]) -> Compared {
    list(what, record.area(i), here)
}

// The number and the place of a refusal, which are 0 in the record where the call is accepted; the place is 0 where it is at no step.
fn outcome(record: Record<'_>, of: u32, place: u32) -> Compared {
    number("refusal's number", record.word(2), of)?;
    number("refusal's place", record.word(3), place)
}

// The call can't be refused.
pub fn never_refused(record: Record<'_>) -> Compared {
    outcome(record, 0, 0)
}

// What a call answers, where it is accepted; none where it is refused as the record says.
// Either case is compared with the record: no refusal is handed on.
pub fn accepted<T: Drop>(
    record: Record<'_>,
    answer: Result<T, Refusal>,
) -> Result<Option<T>, Difference> {
    match answer {
        Ok(value) => {
            outcome(record, 0, 0)?;
            Ok(Some(value))
        }
        Err(r) => {
            outcome(record, r.reason.number(), r.place.unwrap_or(0))?;
            Ok(None)
        }
    }
}

// An answer of one number, word i of the record.
pub fn numbered(
    what: &'static str,
    record: Record<'_>,
    i: u8,
    answer: Result<u32, Refusal>,
) -> Compared {
    match accepted(record, answer)? {
        Some(n) => number(what, record.word(i), n),
        None => Ok(()),
    }
}

// A span, beside words i and i + 1 of the record.
pub fn span(record: Record<'_>, i: u8, here: Span) -> Compared {
    let reference = record.span(i);
    number("start of the span", reference.start, here.start)?;
    number("length of the span", reference.len, here.len)
}

// A plan's record, beside area i of the record. `==` would not say which count differs.
pub fn plan(record: Record<'_>, i: u8, here: Plan) -> Compared {
    let reference = record.plan(i);
    size("block of the record", reference.block, here.block)?;
    size("buffers of the record", reference.buffers, here.buffers)?;
    size("indices of the record", reference.indices, here.indices)?;
    size(
        "coefficients of the record",
        reference.coefficients,
        here.coefficients,
    )?;
    size("nodes of the record", reference.nodes, here.nodes)?;
    size("steps of the record", reference.steps, here.steps)?;
    size("words of the record", reference.words, here.words)
}
