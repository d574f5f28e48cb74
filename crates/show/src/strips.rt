// The strips: an input each, its level, the band's insert before it, and behind it the singer's panner and the band's width.
use crate::layout::Strip;
use crate::{inserts, layout, steps};
use desk::draft::DraftAreas;
use desk::gains;
use plan::Span;
use refusal::{Answer, Refusal};

// The singer's panner, to the left at first.
fn panned(draft: &mut DraftAreas<'_>, src: Span) -> Result<Span, Refusal> {
    let mut pan = [0.0f32; 2];
    draft.asked(gains::pan(-0.5, &mut pan))?;
    steps::matrix(draft, layout::PAN, 2, &pan, src)
}

// The band's width, unchanged at first.
fn widened(draft: &mut DraftAreas<'_>, src: Span) -> Result<Span, Refusal> {
    let mut width = [0.0f32; 4];
    draft.asked(gains::width(1.0, &mut width))?;
    steps::matrix(draft, layout::WIDTH, 2, &width, src)
}

// What a strip has behind its level.
fn placed(draft: &mut DraftAreas<'_>, line: usize, src: Span) -> Result<Span, Refusal> {
    match line {
        layout::SINGER => panned(draft, src),
        layout::BAND => widened(draft, src),
        _ => Ok(src),
    }
}

// An input, its insert and its level.
fn input(draft: &mut DraftAreas<'_>, line: usize) -> Result<Span, Refusal> {
    let Strip(id, input, format, _, gain, ramp, safe) = layout::strip_at(line);
    let src = steps::patched(draft, input, format)?;
    let src = inserts::made(draft, line, src)?;
    steps::level(draft, id, gain, ramp, safe, src)
}

fn strip(draft: &mut DraftAreas<'_>, line: usize) -> Answer {
    let src = input(draft, line)?;
    let span = placed(draft, line, src)?;
    draft.so_far.lines.set(line, span);
    Ok(())
}

// As in `all` and `folds` of the buses the number is what is handed on, and a closure would be no shorter.
pub fn all(draft: &mut DraftAreas<'_>) -> Answer {
    for line in 0..layout::STRIPS {
        strip(draft, line)?;
    }
    Ok(())
}
