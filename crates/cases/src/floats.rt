// A float, exactly.
use comparison::floats;
use std::fmt;
use std::fmt::{Display, Formatter, Write};

const SIGN: u64 = 0x8000_0000_0000_0000;

const NAN: u64 = 0x7ff8_0000_0000_0000;

// The hidden bit of an f64, which is also the lowest bit of the exponent field.
const HIDDEN: u64 = 0x10_0000_0000_0000;

// The exponent field of the f64 from 2^52 up to 2^53, whose digits are a whole number.
const WHOLE: u64 = 1075;

#[derive(Clone, Copy)]
pub struct Exact(pub f64);

impl From<f32> for Exact {
    fn from(x: f32) -> Exact {
        Exact(std::num::f32_to_f64_with_nan(x))
    }
}

impl Display for Exact {
    fn fmt<W: Write>(&self, f: &mut Formatter<W>) -> fmt::Result {
        let bits = floats::bits_of_double(self.0);
        if bits >= SIGN {
            f.write_str("-")?;
        }
        magnitude(bits % SIGN, f)
    }
}

// With its sign, + too.
#[derive(Clone, Copy)]
pub struct Signed(pub Exact);

impl Display for Signed {
    fn fmt<W: Write>(&self, f: &mut Formatter<W>) -> fmt::Result {
        if floats::bits_of_double(self.0.0) < SIGN {
            f.write_str("+")?;
        }
        self.0.fmt(f)
    }
}

// The number with these bits, whose sign is +.
fn magnitude<W: Write>(bits: u64, f: &mut Formatter<W>) -> fmt::Result {
    let digits = bits % HIDDEN;
    match bits / HIDDEN {
        _ if bits == NAN => f.write_str("NaN"),
        2047 => f.write_str("infinity"),
        0 => ratio(digits, WHOLE - 1, f),
        field @ 1..=WHOLE => ratio(HIDDEN + digits, WHOLE - field, f),
        _ => write!(f, "bits {bits:016x}"),
    }
}

// m / 2^p.
fn ratio<W: Write>(m: u64, p: u64, f: &mut Formatter<W>) -> fmt::Result {
    if m == 0 {
        return f.write_str("0");
    }
    let common = p.min(m.trailing_zeros() as u64);
    lowest(m >> common, p - common, f)
}

// m / 2^p in lowest terms: a decimal of at most three places, or a whole number and a multiple of a power of two.
fn lowest<W: Write>(m: u64, p: u64, f: &mut Formatter<W>) -> fmt::Result {
    match p {
        0 => write!(f, "{m}"),
        1 => write!(f, "{}.{}", m / 2, m % 2 * 5),
        2 => write!(f, "{}.{}", m / 4, m % 4 * 25),
        3 => write!(f, "{}.{}", m / 8, m % 8 * 125),
        4..=63 => {
            let n = m >> p;
            if n > 0 {
                write!(f, "{n} + ")?;
            }
            power(m ^ (n << p), p, f)
        }
        _ => power(m, p, f),
    }
}

fn power<W: Write>(m: u64, p: u64, f: &mut Formatter<W>) -> fmt::Result {
    if m != 1 {
        write!(f, "{m} x ")?;
    }
    write!(f, "2^-{p}")
}
