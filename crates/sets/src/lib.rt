// Sets of numbers below 256, in the place of the Rust's `BTreeSet`: the inputs behind a buffer, which are document 01's source sets, the buffers of
// a span, and the pairs of formats of a house table.
// All of it is for the crates above and not the interface: a function that has a `requires` says in its comment what it takes.
#![tactic(auto)]

ghost use Rattle.std.specs.Prelude.{◌≡◌, false, not, ◌&&◌, ◌||◌, ◌++◌, ℕ, ◌+◌, ◌<◌, ◌≤◌, eqb, length, drop, get_or};
ghost use Rattle.std.proofs.lemmas.List.Edits.{sets};
ghost use Rattle.sets.specs.Sets.{member, members, places, set_size};

// The number i is in the set where bit i % 64 of word i / 64 is 1.
#[derive(Clone, Copy, Debug, PartialEq, Eq)]
pub struct Set {
    pub words: [u64; Set::WORDS],
}

// Writes the members that one word holds, whose lowest bit is the number `base`, to `out` from `at` on, and returns the place after them.
// Requires a base of one of the four words, and room for the members. The bits are taken by trailing zeros, as document 01 names it, and not counted:
// hence the `while`.
fn list_word(word: u64, base: u16, at: usize, out: &mut [u16]) -> usize
    requires { (base ≤ 192) × (at + length (places base 64 word) ≤ length out.old) }
    ensures { (result ≡ at + length (places base 64 word)) × (out.new ≡ sets out.old at (places base 64 word)) }
{
    let mut rest = word;
    let mut n = at;
    while rest != 0 {
        out[n] = base + rest.trailing_zeros() as u16;
        // Without the lowest bit that is 1.
        rest &= rest - 1;
        n += 1;
    }
    n
}

impl Set {
    pub const WORDS: usize = 4;

    pub fn empty() -> Set
        ensures { (j : ℕ) → member result j ≡ false }
    {
        Set {
            words: [0; Set::WORDS],
        }
    }

    // The set with i too. Requires an i below 256.
    pub fn with(self, i: u32) -> Set
        requires { i < set_size }
        ensures { (j : ℕ) → member result j ≡ (member self j || eqb j i) }
    {
        let mut words = self.words;
        words[(i / 64) as usize] |= 1u64 << (i % 64);
        Set { words }
    }

    fn word(self, k: u32) -> u64
        ensures { result ≡ get_or self.words k 0 }
    {
        match self.words.get(k as usize) {
            Some(&word) => word,
            None => 0,
        }
    }

    pub fn has(self, i: u32) -> bool
        ensures { result ≡ member self i }
    {
        (self.word(i / 64) >> (i % 64)) % 2 == 1
    }

    pub fn union(self, other: Set) -> Set
        ensures { (j : ℕ) → member result j ≡ (member self j || member other j) }
    {
        Set {
            words: [
                self.words[0] | other.words[0],
                self.words[1] | other.words[1],
                self.words[2] | other.words[2],
                self.words[3] | other.words[3],
            ],
        }
    }

    // The members that another set has not.
    pub fn without(self, other: Set) -> Set
        ensures { (j : ℕ) → member result j ≡ (member self j && not (member other j)) }
    {
        Set {
            words: [
                self.words[0] ^ (self.words[0] & other.words[0]),
                self.words[1] ^ (self.words[1] & other.words[1]),
                self.words[2] ^ (self.words[2] & other.words[2]),
                self.words[3] ^ (self.words[3] & other.words[3]),
            ],
        }
    }

    pub fn count(self) -> u32
        ensures { result ≡ length (members self) }
    {
        let mut total = 0;
        for &word in &self.words {
            total += word.count_ones();
        }
        total
    }

    // Writes the members to the front of `out`, ascending. Requires room for all of them.
    pub fn list(self, out: &mut [u16])
        requires { length (members self) ≤ length out.old }
        ensures { out.new ≡ members self ++ drop (length (members self)) out.old }
    {
        let mut n = 0;
        for (k, &word) in self.words.iter().enumerate() {
            n = list_word(word, k as u16 * 64, n, out);
        }
    }
}
