// An f64 rounded to the nearest f32, a tie to the even one, worked out from the bits. `narrowed` says what that is.
#![tactic(auto)]

ghost use Rattle.std.specs.Prelude.{◌≡◌, ◌+◌, ◌/◌, ◌%◌, ◌^◌, ◌<◌, ◌≤◌};
ghost use Rattle.std.specs.Float.Ieee.Nearest.{closest};
ghost use Rattle.rounding.specs.Narrow.{narrowed, pattern};

// The hidden bit of an f64 and of an f32, the leading digit, which is not stored: also the lowest bit of the exponent field.
const HIDDEN_64: u64 = 0x10_0000_0000_0000;

const HIDDEN_32: u64 = 0x80_0000;

const SIGN_64: u64 = 0x8000_0000_0000_0000;

const SIGN_32: u64 = 0x8000_0000;

const INFINITY_32: u64 = 0x7f80_0000;

// The whole number nearest to m / u; of two that are as near, the even one. Requires an m below 2^53, and a u from 1 to 2^53.
#[tactic(auto, using(crate::proofs::Closest::closest_low, crate::proofs::Closest::closest_tie, crate::proofs::Closest::closest_high))]
fn nearest(m: u64, u: u64) -> u64
    requires { (m < 2 ^ 53) × (0 < u) × (u ≤ 2 ^ 53) }
    ensures { result ≡ closest m u }
{
    let q = m / u;
    let twice = m % u * 2;
    if twice < u {
        return q;
    }
    if u < twice {
        return q + 1;
    }
    q + q % 2
}

// The bits of the f32 nearest to the f64 whose bits are a, both without their sign.
#[tactic(auto, using(crate::proofs::Pattern::cases, crate::proofs::Closest::closest_le))]
fn magnitude(a: u64) -> u64
    ensures { result ≡ pattern (a / 2 ^ 52) (2 ^ 52 + a % 2 ^ 52) }
{
    let field = a / HIDDEN_64;
    let digits = HIDDEN_64 + a % HIDDEN_64;
    if field < 873 {
        // below 2^-150, half of the smallest f32
        return 0;
    }
    if field < 897 {
        // below 2^-126, where an f32 has fewer digits
        return nearest(digits, 1u64 << (926 - field));
    }
    if field < 1151 {
        // a carry out of the digits goes into the field, as it should
        return (field - 897) * HIDDEN_32 + nearest(digits, 0x2000_0000);
    }
    INFINITY_32
}

// x rounded to the nearest f32, a tie to the even one. A NaN gives a NaN, and what is too large an infinity.
#[tactic(auto, using(crate::proofs::Pattern::bits_made, crate::proofs::Laws::no_nan, crate::proofs::Laws::nan_made))]
pub fn to_f32(x: f64) -> f32
    ensures { result ≡ narrowed x }
{
    if x != x {
        return 0.0 / 0.0;
    }
    let bits = f64::to_bits(x);
    let sign = bits / SIGN_64 * SIGN_32;
    f32::from_bits((sign + magnitude(bits % SIGN_64)) as u32)
}
