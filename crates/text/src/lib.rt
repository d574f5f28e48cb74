// Text on the standard output, for the programs. No contract says what is written: `rt ci` compares it with a program's file `stdout`.
#![tactic(auto)]

use std::fmt;
use std::fmt::{Display, Write};

// The standard output's descriptor.
const STDOUT: i32 = 1;

// Over crate io: `println!` over the runtime needs more functions of the C library, and an error beside the refusal of each function that prints.
#[derive(Drop)]
struct Stdout;

impl Write for Stdout {
    fn write_str(&mut self, s: &str) -> fmt::Result {
        io::write_all(STDOUT, s.as_bytes());
        Ok(())
    }
}

// A text, or a format with its values. A write that fails is left at that.
pub fn print(what: impl Display + Drop) {
    let mut out = Stdout;
    let _ = write!(out, "{what}");
}

// The entries of a list, with a text between each two.
#[derive(Drop)]
pub struct Joined<'a, T> {
    pub list: &'a [T],
    pub between: &'a str,
}

impl<'a, T: Display> Display for Joined<'a, T> {
    fn fmt<W: Write>(&self, f: &mut fmt::Formatter<W>) -> fmt::Result {
        for (i, entry) in self.list.iter().enumerate() {
            if i > 0 {
                f.write_str(self.between)?;
            }
            entry.fmt(f)?;
        }
        Ok(())
    }
}
