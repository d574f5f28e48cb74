// The areas that are lent to a call, of the words of the file.
ghost use Rattle.std.specs.Prelude.{◌≡◌, length};

use comparison::{Entry, floats};

// The longest area that a call is lent here: the lists of 32 slots, and some places behind them.
pub const LONGEST: usize = 8200;

// An entry of an area, which stands in the file as a word.
pub trait Loaded: Entry {
    fn of_word(word: u32) -> Self;
}

impl Loaded for u32 {
    fn of_word(word: u32) -> u32 {
        word
    }
}

impl Loaded for u16 {
    fn of_word(word: u32) -> u16 {
        (word % 0x1_0000) as u16
    }
}

impl Loaded for f32 {
    fn of_word(word: u32) -> f32 {
        floats::float_of(word)
    }
}

// Room for the longest area. The `ensures` gives only the length, so that no proof looks at the zeros.
#[tactic(auto, using(crate::proofs::Rooms::filled))]
pub fn room<T: Loaded>() -> [T; LONGEST]
    ensures { 8200 ≡ length result }
{
    [T::of_word(0); LONGEST]
}
