// The layout's tables as a plan, in the order of the signal: strips, buses, sends, folds, outputs.
use crate::areas::Areas;
use crate::{buses, strips};
use builder_calls::areas::PlanAreas;
use desk::draft::{Draft, DraftAreas};
use refusal::Answer;

fn lay_out(draft: &mut DraftAreas<'_>) -> Answer {
    strips::all(draft)?;
    buses::all(draft)?;
    buses::sends(draft)?;
    buses::folds(draft)?;
    buses::outputs(draft)
}

// The whole layout, ready to run, in areas of zeros. They are lent, since areas that are handed back are on the stack once more in each function on their way.
pub fn laid_out(laid: &mut Areas) -> Answer {
    let (builder, so_far) = Draft::new(signals::BLOCK);
    let areas = PlanAreas {
        builder,
        indices: &mut laid.indices,
        coefficients: &mut laid.coefficients,
        floats: &mut laid.floats,
        words: &mut laid.words,
        steps: &mut laid.steps,
    };
    let mut draft = DraftAreas { areas, so_far };
    lay_out(&mut draft)?;
    draft.finish(&mut laid.buffers)?;
    laid.plan = draft.areas.builder.plan;
    Ok(())
}
