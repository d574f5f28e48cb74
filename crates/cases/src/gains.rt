// Cases 7, 9 and 10: the rounding, a fold and a balance.
use crate::answers::Entries;
use crate::floats::Exact;
use format::Format;
use format_fold::FoldGains;
use refusal::Refusal;
use std::fmt;
use std::fmt::{Display, Formatter, Write};

// Case 7: a number, and what it is rounded to.
#[derive(Clone, Copy)]
pub struct Rounded(pub f64);

impl Display for Rounded {
    fn fmt<W: Write>(&self, f: &mut Formatter<W>) -> fmt::Result {
        let to = rounding::to_f32(self.0);
        write!(f, "{} to {}", Exact(self.0), Exact::from(to))
    }
}

// Case 9: 5.1 to mono.
pub fn folded(normalise: bool) -> Result<Entries, Refusal> {
    let gains = FoldGains {
        pan_left: 0.5,
        pan_right: 0.5,
        mono_sum: 0.5,
        centre: 0.5,
        surround: 0.5,
        lfe: 0.0,
    };
    let mut out = [0.0f32; 6];
    format_fold::width_matrix(
        Format::SURROUND_51,
        Format::MONO,
        gains,
        normalise,
        &mut out,
    )?;
    Ok(Entries(out))
}

// Case 10: of 5.1.
pub fn balanced(b: f64) -> Result<Entries, Refusal> {
    let mut out = [0.0f32; 6];
    format_balance::balance_of(Format::SURROUND_51, b, &mut out)?;
    Ok(Entries(out))
}
