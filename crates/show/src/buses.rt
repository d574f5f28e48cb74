// The buses: those that are made of sends, those that are folds of others, and the output of each.
ghost use Rattle.std.specs.Prelude.{◌≤◌};

use crate::layout::{Send, Slot, Source};
use crate::{layout, steps};
use desk::draft::DraftAreas;
use desk::{draft, gains};
use format::Format;
use plan::{Span, Step};
use refusal::{Answer, Refusal};

// The most entries that a fold has.
const ENTRIES: usize = Format::MAX_CHANNELS * Format::MAX_CHANNELS;

// A bus of sends: buffers of silence, to which each of them adds.
fn cleared(draft: &mut DraftAreas<'_>, slot: usize) -> Answer {
    let Slot(format, Source::Sends) = layout::slot_at(slot) else {
        return Ok(());
    };
    let dst = draft.buffers(Format::channels(format))?;
    draft.step(&[Step::CLEAR_MAP, dst.start, dst.len])?;
    draft.so_far.lines.set(layout::bus(slot), dst);
    Ok(())
}

// The buses of sends, before any send.
// Here and below the number is what is handed on: no list is walked.
pub fn all(draft: &mut DraftAreas<'_>) -> Answer {
    for slot in 0..layout::BUSES {
        cleared(draft, slot)?;
    }
    Ok(())
}

// How many gains a fold has.
fn entry_count(src: u32, dst: u32) -> usize
    ensures { result ≤ 144 }
{
    Format::channels(dst) * Format::channels(src)
}

// The weights of a send, from one line's format to another's.
fn weights(draft: &mut DraftAreas<'_>, from: usize, to: usize) -> Result<Span, Refusal> {
    let src = layout::line_format(from);
    let dst = layout::line_format(to);
    let mut entries = [0.0f32; ENTRIES];
    draft.asked(gains::folded(src, dst, &mut entries))?;
    let n = entry_count(src, dst);
    draft.coefficients(&entries[..n])
}

// A line into a bus.
fn send(draft: &mut DraftAreas<'_>, send: Send) -> Answer {
    let Send(id, line, slot, gain) = send;
    let to = layout::bus(slot);
    let src = draft.so_far.lines.get(line);
    let dst = draft.so_far.lines.get(to);
    let w = weights(draft, line, to)?;
    let node = draft.node(id, &[gain], draft::FADE, 0)?;
    draft.step(&[
        Step::SEND_MAP,
        node,
        src.start,
        src.len,
        dst.start,
        dst.len,
        w.start,
        w.len,
    ])
}

pub fn sends(draft: &mut DraftAreas<'_>) -> Answer {
    for &row in &layout::SEND_TABLE {
        send(draft, row)?;
    }
    Ok(())
}

// A bus that is the fold of another: a Matrix with the gains from that one's format to its own.
fn folded(draft: &mut DraftAreas<'_>, slot: usize) -> Answer {
    let Slot(format, Source::Fold(from, id)) = layout::slot_at(slot) else {
        return Ok(());
    };
    let from = layout::bus(from);
    let src = layout::line_format(from);
    let mut entries = [0.0f32; ENTRIES];
    draft.asked(gains::folded(src, format, &mut entries))?;
    let n = entry_count(src, format);
    let line = draft.so_far.lines.get(from);
    let rows = Format::channels(format);
    let span = steps::matrix(draft, id, rows, &entries[..n], line)?;
    draft.so_far.lines.set(layout::bus(slot), span);
    Ok(())
}

// A loop of its own, behind the sends: one that takes what it does to each as a closure is no shorter than the three.
pub fn folds(draft: &mut DraftAreas<'_>) -> Answer {
    for slot in 0..layout::BUSES {
        folded(draft, slot)?;
    }
    Ok(())
}

// The Outputs behind the insert's.
pub fn outputs(draft: &mut DraftAreas<'_>) -> Answer {
    for i in 1..layout::SLOTS {
        let slot = layout::output_slot(i);
        let src = draft.so_far.lines.get(layout::output_line(slot));
        draft.step(&[Step::OUTPUT_MAP, src.start, src.len, slot as u32])?;
    }
    Ok(())
}
