// What came out of a call, as text.
use crate::floats::Exact;
use refusal::Refusal;
use std::fmt;
use std::fmt::{Display, Formatter, Write};

// What a call handed back, or the number that it was refused with.
#[derive(Drop)]
pub struct Answered<T>(pub Result<T, Refusal>);

impl<T: Display> Display for Answered<T> {
    fn fmt<W: Write>(&self, f: &mut Formatter<W>) -> fmt::Result {
        match &self.0 {
            Ok(x) => x.fmt(f),
            Err(r) => write!(f, "refused {}", r.reason),
        }
    }
}

// Samples, with a text between each two. Not `Joined` of crate `text`: what is written of a sample is the `Exact` that is made of it.
#[derive(Drop)]
struct Samples<'a>(&'a [f32], &'a str);

impl<'a> Display for Samples<'a> {
    fn fmt<W: Write>(&self, f: &mut Formatter<W>) -> fmt::Result {
        for (i, &x) in self.0.iter().enumerate() {
            if i > 0 {
                f.write_str(self.1)?;
            }
            Exact::from(x).fmt(f)?;
        }
        Ok(())
    }
}

// What a run wrote.
#[derive(Drop)]
pub struct Written<const N: usize>(pub [f32; N]);

impl<const N: usize> Display for Written<N> {
    fn fmt<W: Write>(&self, f: &mut Formatter<W>) -> fmt::Result {
        Samples(&self.0, ", ").fmt(f)
    }
}

// The entries of a fold or a balance.
#[derive(Drop)]
pub struct Entries(pub [f32; 6]);

impl Display for Entries {
    fn fmt<W: Write>(&self, f: &mut Formatter<W>) -> fmt::Result {
        Samples(&self.0, " ").fmt(f)
    }
}
