// Lists beside the words that they should be, as the program `replay` compares them: the first place where they differ.
#![tactic(auto)]

pub mod floats;

ghost use Rattle.std.specs.Prelude.{◌≡◌, ℕ};
ghost use Rattle.comparison.specs.Lists.{word, sample, alike, ending, compared};

// An entry of a list, which stands beside a word.
pub trait Entry: Copy {
    ghost word_of: { Self → ℕ };

    // The word that it is the same as.
    fn word(self) -> u32
        ensures { result ≡ word_of self };
}

impl Entry for u32 {
    ghost word_of = { word };

    fn word(self) -> u32 {
        self
    }
}

// A number of 16 bits as a word.
impl Entry for u16 {
    ghost word_of = { word };

    fn word(self) -> u32 {
        self as u32
    }
}

// A sample's bits: a NaN is beside 7FC00000, and +0 is not -0.
impl Entry for f32 {
    ghost word_of = { sample };

    fn word(self) -> u32 {
        floats::bits_of(self)
    }
}

// Of lists of n and m entries that have their first i alike, and no more.
fn ending(i: usize, n: usize, m: usize) -> Option<usize>
    ensures { result ≡ ending i n m }
{
    if (i == n) & (i == m) {
        return None;
    }
    Some(i)
}

// How many entries are alike, from the front on. The place itself answers, also where `here` ends first, so the loop has it.
fn alike_count<T: Entry>(reference: &[u32], here: &[T]) -> usize
    ensures { result ≡ alike T.word_of reference.now here.now }
{
    for (i, &word) in reference.iter().enumerate() {
        if i >= here.len() || word != here[i].word() {
            return i;
        }
    }
    reference.len()
}

// The first place where two lists differ, if there is one: a list that ends differs there from one that goes on.
pub fn difference<T: Entry>(reference: &[u32], here: &[T]) -> Option<usize>
    ensures { result ≡ compared T.word_of reference.now here.now }
{
    ending(alike_count(reference, here), reference.len(), here.len())
}
