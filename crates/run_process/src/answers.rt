// The tests of a run, in their order. None writes.
ghost use Rattle.std.specs.Prelude.{◌≡◌};
ghost use Rattle.run.specs.Run.{state, admission};
ghost use Rattle.run.specs.Lent.{given_by};

use plan_areas::Areas;
use plan_check::count_channels;
use refusal::{Answer, Reason};
use run::Given;

// The plan check, then 14, 12 and 13.
pub fn admission(
    given: &Given<'_>,
    floats: &[f32],
    words: &[u32],
    buffers: &[f32],
    output: &[f32],
) -> Answer
    ensures { result ≡ admission (given_by given.now) (state floats.now words.now buffers.now output.now 0) }
{
    let plan = given.plan;
    let areas = Areas {
        indices: given.indices,
        coefficients: given.coefficients,
        node_floats: floats,
        node_words: words,
        steps: given.steps,
        buffers,
    };
    let channels = count_channels(plan, &areas)?;
    if node_areas::any_bad(words, plan.nodes) {
        return Err(Reason::BadNode.into());
    }
    if input::directory_bad(given.directory, given.samples.len()) {
        return Err(Reason::BadDirectory.into());
    }
    if plan_areas::shorter(output.len(), channels, plan.block) {
        return Err(Reason::ShortOutput.into());
    }
    Ok(())
}
