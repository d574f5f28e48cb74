// Steps with buffers of their own, whose span each hands back.
use crate::layout;
use desk::draft;
use desk::draft::DraftAreas;
use format::Format;
use plan::{Span, Step};
use refusal::{Answer, Refusal};

// Every channel of an input into the buffer of that channel.
// The channel is what the step names: no list is walked.
fn patches(draft: &mut DraftAreas<'_>, input: u32, dst: Span) -> Answer {
    for channel in 0..dst.len {
        let builder = draft.areas.builder;
        let buffer = builder.buffer(dst, channel as usize, &draft.areas.indices[..]);
        let buffer = draft.asked(buffer)?;
        draft.step(&[Step::PATCH_MAP, input, channel, buffer])?;
    }
    Ok(())
}

// An input of a format.
pub fn patched(draft: &mut DraftAreas<'_>, input: u32, format: u32) -> Result<Span, Refusal> {
    let dst = draft.buffers(Format::channels(format))?;
    patches(draft, input, dst)?;
    Ok(dst)
}

// A Gain of `src`.
pub fn level(
    draft: &mut DraftAreas<'_>,
    id: u32,
    gain: f32,
    ramp: u32,
    safe: u32,
    src: Span,
) -> Result<Span, Refusal> {
    let dst = draft.buffers(src.len as usize)?;
    let node = draft.node(id, &[gain; layout::STRIP_GAINS], ramp, safe)?;
    draft.step(&[Step::GAIN_MAP, node, src.start, src.len, dst.start, dst.len])?;
    Ok(dst)
}

// A Matrix of `src`, of as many rows.
// The gains are rows times columns: their length does not say how many rows there are.
pub fn matrix(
    draft: &mut DraftAreas<'_>,
    id: u32,
    rows: usize,
    gains: &[f32],
    src: Span,
) -> Result<Span, Refusal> {
    let dst = draft.buffers(rows)?;
    let node = draft.node(id, gains, draft::FADE, 0)?;
    draft.step(&[
        Step::MATRIX_MAP,
        node,
        src.start,
        src.len,
        dst.start,
        dst.len,
    ])?;
    Ok(dst)
}
