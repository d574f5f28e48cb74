// Channel formats and labels by their numbers. Ports the enums of src/mix/format.rs.
#![tactic(auto)]

ghost use Rattle.std.specs.Prelude.{◌≡◌};
ghost use Rattle.format.specs.Formats.{labels, channels, label_of, index_of, has};

// Document 01 hands formats and labels about as numbers: hence constants, and no enum.

// The labels: mono, left, right, centre, low-frequency effects, surround, side, rear, top front, top rear.
pub const M: u32 = 0;

pub const L: u32 = 1;

pub const R: u32 = 2;

pub const C: u32 = 3;

pub const LFE: u32 = 4;

pub const LS: u32 = 5;

pub const RS: u32 = 6;

pub const LSS: u32 = 7;

pub const RSS: u32 = 8;

pub const LRS: u32 = 9;

pub const RRS: u32 = 10;

pub const LTF: u32 = 11;

pub const RTF: u32 = 12;

pub const LTR: u32 = 13;

pub const RTR: u32 = 14;

// The label of a channel that a format does not have.
pub const NO_LABEL: u32 = 15;

// The labels of each format, in channel order.
const MONO: [u32; 1] = [M];

const STEREO: [u32; 2] = [L, R];

const LCR: [u32; 3] = [L, R, C];

const SURROUND_51: [u32; 6] = [L, R, C, LFE, LS, RS];

const SURROUND_71: [u32; 8] = [L, R, C, LFE, LSS, RSS, LRS, RRS];

const SURROUND_514: [u32; 10] = [L, R, C, LFE, LS, RS, LTF, RTF, LTR, RTR];

const SURROUND_714: [u32; 12] = [L, R, C, LFE, LSS, RSS, LRS, RRS, LTF, RTF, LTR, RTR];

// A format by its number, in the order of the Rust's enum.
#[derive(Clone, Copy)]
pub struct Format {
    pub number: u32,
}

impl Format {
    pub const MONO: u32 = 0;

    pub const STEREO: u32 = 1;

    pub const LCR: u32 = 2;

    pub const SURROUND_51: u32 = 3;

    pub const SURROUND_71: u32 = 4;

    pub const SURROUND_514: u32 = 5;

    pub const SURROUND_714: u32 = 6;

    pub const COUNT: u32 = 7;

    // The most channels that a format has.
    pub const MAX_CHANNELS: usize = 12;

    // The labels of a format in channel order: none where there is no such format.
    #[tactic(auto, using(crate::proofs::Labels::no_format_lem), unfolding(crate::specs::Formats::labels))]
    pub fn labels(format: u32) -> &'static [u32]
        ensures { result.now ≡ labels format }
    {
        match format {
            Format::MONO => &MONO,
            Format::STEREO => &STEREO,
            Format::LCR => &LCR,
            Format::SURROUND_51 => &SURROUND_51,
            Format::SURROUND_71 => &SURROUND_71,
            Format::SURROUND_514 => &SURROUND_514,
            Format::SURROUND_714 => &SURROUND_714,
            _ => &[],
        }
    }

    // How many channels a format has: none where there is no such format.
    #[tactic(auto, unfolding(crate::specs::Formats::channels))]
    pub fn channels(format: u32) -> usize
        ensures { result ≡ channels format }
    {
        Format::labels(format).len()
    }

    // The label of a channel, `NO_LABEL` where the format has no such channel.
    #[tactic(auto, unfolding(crate::specs::Formats::label_of))]
    pub fn label(format: u32, channel: usize) -> u32
        ensures { result ≡ label_of format channel }
    {
        match Format::labels(format).get(channel) {
            Some(label) => *label,
            None => NO_LABEL,
        }
    }

    // The channel of a label, the format's count of channels where it has none of that label.
    pub fn index(format: u32, label: u32) -> usize
        ensures { result ≡ index_of format label }
    {
        let labels = Format::labels(format);
        let found = labels.iter().position(|known| *known == label);
        found.unwrap_or(labels.len())
    }

    // Whether one of the format's channels has the label.
    #[tactic(auto, unfolding(crate::specs::Formats::has))]
    pub fn has(format: u32, label: u32) -> bool
        ensures { result ≡ has format label }
    {
        Format::index(format, label) < Format::channels(format)
    }
}
