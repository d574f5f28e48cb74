// The input block: a directory of entries, four u32 each (input, channel, start, length), over the lent samples. It stands in for the trait object
// `InputSource` of src/engine/plan.rs. `lookup` and `directory_bad` are calls of the interface; the other `pub` functions are for crate `run_process`.
#![tactic(auto)]

ghost use Rattle.std.specs.Prelude.{◌≡◌, ◌*◌, ◌≤◌, ◌<◌, length, replicate};
ghost use Rattle.lists.specs.Parts.{part};
ghost use Rattle.plan.specs.Limits.{inputs};
ghost use Rattle.input.specs.Input.{entry_words, max_entries, entries, entry_for, entry_part, lookup_below, lookup, some_past, directory_bad};
ghost use Rattle.input.specs.Loops.{Ends};

use plan::Step;

const ENTRY_WORDS: usize = 4;

const MAX_ENTRIES: usize = 512;

// A place for each input.
pub const ENDS: usize = Step::INPUTS as usize;

// The samples from `start` on, `len` at most. Three cuts, since by `min` a Patch is slower. `replay` has such a function for the
// words of its files: this one is not for programs, which have the two calls of the interface alone.
fn part(samples: &[f32], start: usize, len: usize) -> &[f32]
    ensures { result.now ≡ part start len samples.now }
{
    let n = samples.len();
    if n <= start {
        return &samples[n..];
    }
    if n - start <= len {
        return &samples[start..];
    }
    let end = start + len;
    &samples[start..end]
}

// For each input a place from which on no entry is for it: the one behind its last entry, or 0 where it has none. Requires a directory that is
// not too long, and 0 in each place. The entry's number is what is stored: hence the index.
pub fn search_ends(directory: &[u32], ends: &mut [u16; ENDS])
    requires { (entries directory.now ≤ max_entries) × (ends.old ≡ replicate inputs 0) }
    ensures { Ends directory.now (entries directory.now) ends.new }
{
    let n = directory.len() / ENTRY_WORDS;
    for entry in 0..n {
        let input = directory[entry * ENTRY_WORDS];
        if input < Step::INPUTS {
            ends[input as usize] = (entry + 1) as u16;
        }
    }
}

// Below, a count of entries goes with the whole directory: the ends are such counts, and words behind the last whole entry are no entry.

// Entry i is for the channel. Requires that there is such an entry.
#[tactic(auto, using(crate::proofs::Input::entry_is))]
fn entry_for(directory: &[u32], i: usize, input: u32, channel: u32) -> bool
    requires { i < entries directory.now }
    ensures { result ≡ entry_for directory.now input channel i }
{
    let at = i * ENTRY_WORDS;
    (directory[at] == input) & (directory[at + 1] == channel)
}

// The part that entry i names. Requires that there is such an entry.
fn entry_part<'a>(directory: &[u32], samples: &'a [f32], i: usize) -> &'a [f32]
    requires { i < entries directory.now }
    ensures { result.now ≡ entry_part directory.now samples.now i }
{
    let at = i * ENTRY_WORDS;
    part(
        samples,
        directory[at + 2] as usize,
        directory[at + 3] as usize,
    )
}

// The channel lookup among the first n entries. Requires that there are so many. Counted by hand, since by `rev` and `min` a run with an entry for each
// Patch is slower than its budget.
fn lookup_below<'a>(
    directory: &[u32],
    samples: &'a [f32],
    n: usize,
    input: u32,
    channel: u32,
) -> &'a [f32]
    requires { n ≤ entries directory.now }
    ensures { result.now ≡ lookup_below directory.now samples.now input channel n }
{
    let mut left = n;
    while left > 0 {
        let i = left - 1;
        if entry_for(directory, i, input, channel) {
            return entry_part(directory, samples, i);
        }
        left -= 1;
    }
    &samples[0..0]
}

// The channel lookup below the end of the input. Requires an input of a plan, and the ends of the directory.
#[tactic(auto, using(crate::proofs::Input::lookup_below_lem, crate::proofs::Ends::ends_skip))]
pub fn lookup_by_end<'a>(
    directory: &[u32],
    ends: &[u16],
    samples: &'a [f32],
    input: u32,
    channel: u32,
) -> &'a [f32]
    requires { (input < inputs) × Ends directory.now (entries directory.now) ends.now }
    ensures { result.now ≡ lookup directory.now samples.now input channel }
{
    let end = ends[input as usize] as usize;
    lookup_below(directory, samples, end, input, channel)
}

// The channel lookup: the part of the samples that the last entry for the channel names, or an empty part.
#[tactic(auto, unfolding(crate::specs::Input::lookup))]
pub fn lookup<'a>(directory: &[u32], samples: &'a [f32], input: u32, channel: u32) -> &'a [f32]
    ensures { result.now ≡ lookup directory.now samples.now input channel }
{
    let n = directory.len() / ENTRY_WORDS;
    lookup_below(directory, samples, n, input, channel)
}

// One of the first n entries has a part past m samples. Requires the words of all n.
// From the last entry down, as the definition goes.
fn some_past(directory: &[u32], m: usize, n: usize) -> bool
    requires { n * entry_words ≤ length directory.now }
    ensures { result ≡ some_past directory.now m n }
{
    for i in (0..n).rev() {
        let at = i * ENTRY_WORDS;
        if directory[at + 2] as usize + directory[at + 3] as usize > m {
            return true;
        }
    }
    false
}

// Number 12, for `samples` samples.
// Of the samples the count alone is looked at.
#[tactic(auto, unfolding(crate::specs::Input::directory_bad))]
pub fn directory_bad(directory: &[u32], samples: usize) -> bool
    ensures { result ≡ directory_bad directory.now samples }
{
    let n = directory.len() / ENTRY_WORDS;
    (directory.len() % ENTRY_WORDS != 0) | (n > MAX_ENTRIES) | some_past(directory, samples, n)
}
