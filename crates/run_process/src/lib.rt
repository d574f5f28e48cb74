// A run of a plan over one block. Ports `Plan::process` of src/engine/plan.rs. The call is total, and a refused one changes nothing. `process` is a call of
// the interface; the two halves of it that are `pub` too are for the crates above, and `run_block` says in its comment what it takes.
#![tactic(auto)]

mod answers;
mod steps;

ghost use Rattle.std.specs.Prelude.{◌≡◌};
ghost use Rattle.run.specs.Run.{state, processed, process_answer};
ghost use Rattle.run.specs.Lent.{given_by};

pub use answers::admission;
use refusal::Refusal;
use run::Given;
pub use steps::run_block;

// One block of a plan: its steps, in order, over the lent areas.
pub fn process(
    given: &Given<'_>,
    node_floats: &mut [f32],
    node_words: &mut [u32],
    buffers: &mut [f32],
    output: &mut [f32],
) -> Result<usize, Refusal>
    ensures answer { result ≡ process_answer (given_by given.now) (state node_floats.old node_words.old buffers.old output.old 0) }
    ensures floats { node_floats.new ≡ (processed (given_by given.now) (state node_floats.old node_words.old buffers.old output.old 0)).floats }
    ensures words { node_words.new ≡ (processed (given_by given.now) (state node_floats.old node_words.old buffers.old output.old 0)).words }
    ensures buffers { buffers.new ≡ (processed (given_by given.now) (state node_floats.old node_words.old buffers.old output.old 0)).buffers }
    ensures output { output.new ≡ (processed (given_by given.now) (state node_floats.old node_words.old buffers.old output.old 0)).output }
{
    admission(
        given,
        &node_floats[..],
        &node_words[..],
        &buffers[..],
        &output[..],
    )?;
    let counted = Given {
        steps: &given.steps[..given.plan.words],
        ..*given
    };
    Ok(run_block(&counted, node_floats, node_words, buffers, output))
}
