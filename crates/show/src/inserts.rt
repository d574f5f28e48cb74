// The insert on the band's strip, before its level: an effects box of the house, with a slot and an input of its own.
use crate::{layout, names};
use desk::draft;
use desk::draft::DraftAreas;
use format::Format;
use insert::{InsertIds, InsertPoint, InsertReturn};
use plan::Span;
use refusal::Refusal;

// That of the band's input.
const FORMAT: u32 = Format::STEREO;

// What comes back. An insert counts inputs and channels from 1, the layout and the cue sheet count inputs from 0.
fn back() -> InsertReturn {
    InsertReturn {
        input: layout::BAND_RETURN + 1,
        channel: 1,
        gain: 0.5,
        bypass: false,
    }
}

fn ids() -> InsertIds {
    InsertIds {
        send: 120,
        ret: 121,
        dry: layout::DRY,
        wet: layout::WET,
        dryin: 124,
        wetin: 125,
    }
}

fn point(src: Span) -> InsertPoint {
    let ids = ids();
    let back = back();
    InsertPoint {
        format: FORMAT,
        src,
        gain: 1.0,
        slot: layout::BAND_SEND as u32,
        ramp: draft::FADE,
        ids,
        returns: true,
        back,
    }
}

// The insert on these buffers, where the strip is the band's: the buffers that the strip goes on with.
pub fn made(draft: &mut DraftAreas<'_>, line: usize, src: Span) -> Result<Span, Refusal> {
    if line != layout::BAND {
        return Ok(src);
    }
    draft.insert(point(src))
}

// The input that comes back, in the list of inputs.
pub fn input() {
    let input = layout::BAND_RETURN;
    let format = names::format(FORMAT);
    text::print(format_args!("{input:>6}  band return   {format}, to the insert on band\n"));
}

// The insert in words.
pub fn told() {
    text::print(format_args!(
        "\nInsert\n        {:<14}{:<8}send to slot {}, return from input {}, bypass: {}\n",
        names::strip(layout::BAND),
        names::format(FORMAT),
        layout::BAND_SEND,
        layout::BAND_RETURN,
        names::yes(back().bypass)
    ));
}
