// The default layout, as tables: seven strips, each on an input, nine outputs, each with a bus, an output of the announcement's strip alone, and an
// insert on the band's strip, with an input and an output of its own. A line is where a strip or a bus ends: the strips are lines 0 to 6, and the bus of
// slot s is line 7 + s.
ghost use Rattle.std.specs.Prelude.{◌<◌};

use desk::draft::FADE;
use format::Format;

pub const STRIPS: usize = 7;

// The slots that have a bus. Behind them are the insert's and the announcement's.
pub const BUSES: usize = 9;

pub const SLOTS: usize = 11;

pub const SENDS: usize = 23;

// The lines of the strips.
pub const NARRATOR: usize = 0;

pub const SINGER: usize = 1;

pub const BAND: usize = 2;

pub const FILM: usize = 3;

pub const EFFECTS: usize = 4;

pub const TALKBACK: usize = 5;

pub const ANNOUNCEMENT: usize = 6;

// The slots.
pub const HALL: usize = 0;

pub const BALCONY: usize = 1;

pub const FOYER: usize = 2;

pub const STAGE: usize = 3;

pub const PIT: usize = 4;

pub const LOOP: usize = 5;

pub const RECORDING: usize = 6;

pub const CREW: usize = 7;

pub const LOUNGE: usize = 8;

pub const BAND_SEND: usize = 9;

pub const VOICE_ALARM: usize = 10;

// The input that comes back to the band's insert: a number of an input, and of no kind.
pub const BAND_RETURN: u32 = 70;

// The ids of the nodes that settings change, numbers that the layout's writer chooses, and of no kind: four levels, the singer's panner, the band's
// width, the dry signal and the return of its insert.
pub const NARRATOR_LEVEL: u32 = 100;

pub const ANNOUNCEMENT_LEVEL: u32 = 106;

pub const FILM_IN_HALL: u32 = 203;

pub const TALKBACK_IN_HALL: u32 = 205;

pub const PAN: u32 = 111;

pub const WIDTH: u32 = 112;

pub const DRY: u32 = 122;

pub const WET: u32 = 123;

// As many gains as the widest strip has channels.
pub const STRIP_GAINS: usize = 6;

// What the areas of a plan have room for, each for more than the layout needs.
pub const INDICES: usize = 64;

pub const COEFFICIENTS: usize = 256;

pub const NODES: usize = 48;

pub const STEPS: usize = 512;

pub const SAMPLES: usize = 16_384;

// The id of its level, the input, the input's format, the format of the line, the level, the ramp to it, and whether no adoption may touch it.
#[derive(Clone, Copy)]
pub struct Strip(
    pub u32,
    pub u32,
    pub u32,
    pub u32,
    pub f32,
    pub u32,
    pub u32,
);

// What a slot carries: a bus of sends; the fold of another slot's bus, with the id of the fold's gains; what the insert sends; the announcement's strip.
#[derive(Clone, Copy)]
pub enum Source {
    Sends,
    Fold(usize, u32),
    Insert,
    Announcement,
}

// The format of a slot, and what it carries.
#[derive(Clone, Copy)]
pub struct Slot(pub u32, pub Source);

// The id of its level, the line that is sent, the slot whose bus takes it, the level.
#[derive(Clone, Copy)]
pub struct Send(pub u32, pub usize, pub usize, pub f32);

// The emergency announcement is spoken into the talkback's microphone. Its level is there at once, at its own value, in a new layout too: it is safe.
pub const STRIP_TABLE: [Strip; STRIPS] = [
    Strip(NARRATOR_LEVEL, 3, Format::MONO, Format::MONO, 1.0, FADE, 0),
    Strip(101, 4, Format::MONO, Format::STEREO, 0.75, FADE, 0),
    Strip(102, 10, Format::STEREO, Format::STEREO, 0.5, FADE, 0),
    Strip(
        103,
        20,
        Format::SURROUND_51,
        Format::SURROUND_51,
        0.75,
        FADE,
        0,
    ),
    Strip(104, 31, Format::STEREO, Format::STEREO, 0.5, FADE, 0),
    Strip(105, 60, Format::MONO, Format::MONO, 1.0, FADE, 0),
    Strip(
        ANNOUNCEMENT_LEVEL,
        60,
        Format::MONO,
        Format::MONO,
        1.0,
        0,
        1,
    ),
];

pub const SLOT_TABLE: [Slot; SLOTS] = [
    Slot(Format::SURROUND_51, Source::Sends),
    Slot(Format::STEREO, Source::Fold(HALL, 301)),
    Slot(Format::MONO, Source::Fold(BALCONY, 302)),
    Slot(Format::STEREO, Source::Sends),
    Slot(Format::MONO, Source::Sends),
    Slot(Format::MONO, Source::Sends),
    Slot(Format::STEREO, Source::Sends),
    Slot(Format::MONO, Source::Sends),
    Slot(Format::LCR, Source::Sends),
    Slot(Format::STEREO, Source::Insert),
    Slot(Format::MONO, Source::Announcement),
];

// The talkback is closed in the hall until a setting opens it. The cue sheet lists it all the same.
pub const SEND_TABLE: [Send; SENDS] = [
    Send(200, NARRATOR, HALL, 1.0),
    Send(201, SINGER, HALL, 0.75),
    Send(202, BAND, HALL, 0.5),
    Send(FILM_IN_HALL, FILM, HALL, 1.0),
    Send(204, EFFECTS, HALL, 0.5),
    Send(TALKBACK_IN_HALL, TALKBACK, HALL, 0.0),
    Send(231, SINGER, STAGE, 1.0),
    Send(232, BAND, STAGE, 0.5),
    Send(240, NARRATOR, PIT, 0.5),
    Send(241, SINGER, PIT, 1.0),
    Send(244, EFFECTS, PIT, 0.25),
    Send(250, NARRATOR, LOOP, 1.0),
    Send(251, SINGER, LOOP, 1.0),
    Send(253, FILM, LOOP, 0.5),
    Send(260, NARRATOR, RECORDING, 0.5),
    Send(261, SINGER, RECORDING, 0.5),
    Send(262, BAND, RECORDING, 0.5),
    Send(263, FILM, RECORDING, 0.5),
    Send(264, EFFECTS, RECORDING, 0.25),
    Send(270, NARRATOR, CREW, 0.25),
    Send(275, TALKBACK, CREW, 1.0),
    Send(282, BAND, LOUNGE, 0.5),
    Send(283, FILM, LOUNGE, 1.0),
];

// i, or the first of a table of n rows that has no row i. Requires that it has a first.
fn row(i: usize, n: usize) -> usize
    requires { 0 < n }
    ensures { result < n }
{
    if i < n {
        return i;
    }
    0
}

pub fn strip_at(i: usize) -> Strip {
    STRIP_TABLE[row(i, STRIPS)]
}

pub fn slot_at(i: usize) -> Slot {
    SLOT_TABLE[row(i, SLOTS)]
}

// The slot of the plan's Output i: the insert's, those of the buses, the announcement's.
pub fn output_slot(i: usize) -> usize
    ensures { result < 11 }
{
    if i == 0 {
        return BAND_SEND;
    }
    if i > BUSES {
        return VOICE_ALARM;
    }
    i - 1
}

// The line of a slot's bus.
pub fn bus(slot: usize) -> usize {
    STRIPS + row(slot, BUSES)
}

// The line that goes to a slot, which is not the insert's.
pub fn output_line(slot: usize) -> usize {
    if slot == VOICE_ALARM {
        return ANNOUNCEMENT;
    }
    bus(slot)
}

pub fn line_format(line: usize) -> u32 {
    if line < STRIPS {
        return strip_at(line).3;
    }
    slot_at(line - STRIPS).0
}
