// What the inputs carry: a triangle wave on each channel, of its own pitch, made from whole numbers.
ghost use Rattle.std.specs.Prelude.{◌≡◌, ◌+◌, ◌≤◌, ◌<◌, length};
ghost use Rattle.signals.specs.Signals.{triangle, signal, filled, played, entered};

use crate::BLOCK;

// Of all inputs, and a stand-in for the first.
pub const CHANNELS: usize = 16;

pub const SAMPLES: usize = CHANNELS * BLOCK;

pub const DIRECTORY: usize = CHANNELS * 4;

const INPUT: [u32; CHANNELS] = [3, 4, 10, 10, 20, 20, 20, 20, 20, 20, 31, 31, 60, 70, 70, 3];

const CHANNEL: [u32; CHANNELS] = [0, 0, 0, 1, 0, 1, 2, 3, 4, 5, 0, 1, 0, 0, 1, 0];

// In 65,536ths of a period a sample.
const PITCH: [u32; CHANNELS] = [
    300, 412, 523, 524, 601, 602, 603, 77, 655, 656, 713, 717, 1201, 1046, 1048, 309,
];

// 0 up to 65,534 and back. Requires a phase below 65,536.
fn triangle(phase: u32) -> u32
    requires { phase < 65536 }
    ensures { (result ≡ triangle phase) × (result < 65536) }
{
    if phase < 32_768 {
        return phase * 2;
    }
    131_070 - phase * 2
}

// Sample k of a pitch, from -1 to just below 1. A u16 and what is made of it here are exact as f32.
fn signal(pitch: u32, k: u32) -> f32
    ensures { result ≡ signal pitch k }
{
    let phase = (pitch as u64 * k as u64 % 65_536) as u32;
    let height = triangle(phase) as u16;
    height as f32 / 32_768.0 - 1.0
}

// A block of one channel from sample `from` on, stored from a place on. Requires room for it, and samples that a u32 counts.
#[tactic(auto, using(crate::proofs::Laws::filled_kept))]
fn fill(pitch: u32, from: u32, at: usize, samples: &mut [f32])
    requires { (from + 256 < 4294967296) × (at + 256 ≤ length samples.old) }
    ensures { samples.new ≡ filled pitch from at 256 samples.old }
{
    // k is the sample's number too, so that an iterator would count it all the same.
    for k in 0..BLOCK {
        samples[at + k] = signal(pitch, from + k as u32);
    }
}

// A block of every channel, one after the other. Requires room for them, and samples that a u32 counts.
// The number of a sample is handed on as it is: that a u32 counts it is a clause here and in each caller.
#[tactic(auto, using(crate::proofs::Laws::played_kept))]
pub fn play(from: u32, samples: &mut [f32])
    requires { (from + 256 < 4294967296) × (length samples.old ≡ 4096) }
    ensures { samples.new ≡ played 256 from 16 samples.old }
{
    for (c, &pitch) in PITCH.iter().enumerate() {
        fill(pitch, from, c * BLOCK, samples);
    }
}

// The directory of such a block. Requires room for it.
pub fn directory(entries: &mut [u32])
    requires { length entries.old ≡ 64 }
    ensures { entries.new ≡ entered 256 16 entries.old }
{
    for (c, &input) in INPUT.iter().enumerate() {
        let entry = [input, CHANNEL[c], (c * BLOCK) as u32, BLOCK as u32];
        entries[c * 4..c * 4 + 4].copy_from_slice(&entry);
    }
}
