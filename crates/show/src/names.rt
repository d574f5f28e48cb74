// Names.
use crate::layout;
use format::Format;

pub fn format(number: u32) -> &'static str {
    match number {
        Format::MONO => "mono",
        Format::STEREO => "stereo",
        Format::LCR => "3.0",
        _ => "5.1",
    }
}

pub fn strip(line: usize) -> &'static str {
    match line {
        layout::NARRATOR => "narrator",
        layout::SINGER => "singer",
        layout::BAND => "band",
        layout::FILM => "film",
        layout::EFFECTS => "effects",
        layout::TALKBACK => "talkback",
        _ => "announcement",
    }
}

pub fn slot(number: usize) -> &'static str {
    match number {
        layout::HALL => "hall",
        layout::BALCONY => "balcony",
        layout::FOYER => "foyer",
        layout::STAGE => "stage",
        layout::PIT => "pit",
        layout::LOOP => "hearing loop",
        layout::RECORDING => "recording",
        layout::CREW => "crew",
        layout::LOUNGE => "lounge",
        layout::BAND_SEND => "band send",
        _ => "voice alarm",
    }
}

// Whether something is so.
pub fn yes(so: bool) -> &'static str {
    if so { "yes" } else { "no" }
}
