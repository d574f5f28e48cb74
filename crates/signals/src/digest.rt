// A digest of samples: the 32-bit FNV-1a of their bytes, each sample's lowest byte first. Any file of the samples has it too.
ghost use Rattle.std.specs.Prelude.{◌≡◌, ◌/◌, ◌<◌, length};
ghost use Rattle.signals.specs.Digest.{start, with_byte, with_word, with_sample, of_entries, of_words, of_samples, with_frame, with_frames};

use crate::BLOCK;
use comparison::Entry;

const START: u32 = 0x811c_9dc5;

const PRIME: u64 = 0x0100_0193;

// The digest of nothing.
pub fn empty() -> u32
    ensures { result ≡ start }
{
    START
}

fn wide(n: u32) -> u64
    ensures { result ≡ n }
{
    n as u64
}

fn with_byte(digest: u32, byte: u32) -> u32
    ensures { result ≡ with_byte digest byte }
{
    (wide(digest ^ byte) * PRIME % 0x1_0000_0000) as u32
}

#[tactic(auto, unfolding(crate::specs::Digest::with_word))]
fn with_word(digest: u32, word: u32) -> u32
    ensures { result ≡ with_word digest word }
{
    let first = with_byte(digest, word % 256);
    let second = with_byte(first, word / 256 % 256);
    let third = with_byte(second, word / 65_536 % 256);
    with_byte(third, word / 16_777_216)
}

// The words of a list's entries. A sample's is its bits.
fn of_entries<T: Entry>(digest: u32, list: &[T]) -> u32
    ensures { result ≡ of_entries T.word_of digest list.now }
{
    let mut digest = digest;
    for x in list {
        digest = with_word(digest, x.word());
    }
    digest
}

pub fn of_words(digest: u32, list: &[u32]) -> u32
    ensures { result ≡ of_words digest list.now }
{
    of_entries(digest, list)
}

#[tactic(auto, unfolding(crate::specs::Digest::with_sample))]
pub fn of_samples(digest: u32, list: &[f32]) -> u32
    ensures { result ≡ of_samples digest list.now }
{
    of_entries(digest, list)
}

#[tactic(auto, unfolding(crate::specs::Digest::with_sample))]
fn with_sample(digest: u32, x: f32) -> u32
    ensures { result ≡ with_sample digest x }
{
    with_word(digest, x.word())
}

// Sample k of each channel of a slot, whose blocks stand one after the other. Requires a sample of a block.
#[tactic(auto, using(crate::proofs::Laws::going_starts))]
fn with_frame(digest: u32, blocks: &[f32], k: usize) -> u32
    requires { k < 256 }
    ensures { result ≡ with_frame 256 digest blocks.now k (length blocks.now / 256) }
{
    let mut digest = digest;
    for block in blocks.chunks_exact(BLOCK) {
        digest = with_sample(digest, block[k]);
    }
    digest
}

// A block of each channel of a slot, in the order of a sound file: sample 0 of each channel, sample 1 of each, and so on. So the digest of
// many blocks does not depend on their length.
// k is a sample of every channel at once: no one list is walked.
pub fn with_frames(digest: u32, blocks: &[f32]) -> u32
    ensures { result ≡ with_frames 256 (length blocks.now / 256) digest blocks.now 256 }
{
    let mut digest = digest;
    for k in 0..BLOCK {
        digest = with_frame(digest, blocks, k);
    }
    digest
}
