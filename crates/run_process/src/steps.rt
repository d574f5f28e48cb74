// The steps of a run, one after another. The four areas that they change are slices of their own: of a record of `&mut`s no field can be lent to be read beside a
// loan of another, as an Output and a step with a node need, and each function would have to say that the fields keep their references.
ghost use Rattle.std.specs.Prelude.{◌≡◌, ◌+◌, ◌*◌, ◌≤◌, length};
ghost use Rattle.plan.specs.Loops.{channels};
ghost use Rattle.input.specs.Input.{max_entries, entries};
ghost use Rattle.input.specs.Loops.{Ends};
ghost use Rattle.run.specs.Run.{state};
ghost use Rattle.run.specs.Lent.{given_by, stepped_in, run_in, RunTested, StepTested, OutputRoom};

use plan::Step;
use run::{Given, Wires};
use run_kinds::{Gain, Matrix, Send, patch, run_clear, run_node, run_output};

// A step, after `wrote` samples of output; the answer is how many are written then. `wrote` goes beside the whole output, as in the state of a run: a step
// that is no Output leaves both. Requires what the tests said of the plan and of it, and the ends of the directory. All kinds are in one match: a second one
// costs some nanoseconds a step, and `ends` in one record with what is given three instructions a step.
fn run_step(
    given: &Given<'_>,
    ends: &[u16],
    floats: &mut [f32],
    words: &mut [u32],
    buffers: &mut [f32],
    output: &mut [f32],
    wrote: usize,
    step: Step,
) -> usize
    requires tested { StepTested (given_by given.now) (state floats.old words.old buffers.old output.old wrote) step }
    requires output_room { wrote + channels step * given.now.plan.block ≤ length output.old }
    requires ends { Ends given.now.directory.now (entries given.now.directory.now) ends.now }
    ensures { state floats.new words.new buffers.new output.new result
        ≡ stepped_in (given_by given.now) step (state floats.old words.old buffers.old output.old wrote) }
{
    match step {
        Step::Patch {
            input,
            channel,
            dst,
        } => {
            let part = input::lookup_by_end(given.directory, ends, given.samples, input, channel);
            patch(buffers, given.plan.block, dst as usize, part);
        }
        Step::Gain { node, src, dst } => {
            let wires = Wires { node, src, dst };
            run_node(Gain, given, wires, floats, words, buffers);
        }
        Step::Matrix { node, src, dst } => {
            let wires = Wires { node, src, dst };
            run_node(Matrix, given, wires, floats, words, buffers);
        }
        Step::Clear { dst } => run_clear(given.plan, given.indices, buffers, dst),
        Step::Send {
            node,
            src,
            dst,
            coefficients,
        } => {
            let wires = Wires { node, src, dst };
            run_node(Send(coefficients), given, wires, floats, words, buffers);
        }
        Step::Output { src, slot: _ } => {
            return run_output(given.plan, given.indices, &buffers[..], output, wrote, src);
        }
    }
    wrote
}

// The steps of the step words, in order; the answer is how many samples were written. Requires what the tests said of the plan and its
// steps, and the ends of the directory.
// A record begins where the one before it ends: hence its place beside the count.
fn run_steps(
    given: &Given<'_>,
    ends: &[u16],
    floats: &mut [f32],
    words: &mut [u32],
    buffers: &mut [f32],
    output: &mut [f32],
) -> usize
    requires tested { RunTested (given_by given.now) (state floats.old words.old buffers.old output.old 0) }
    requires ends { Ends given.now.directory.now (entries given.now.directory.now) ends.now }
    requires output_room { OutputRoom (given_by given.now) (state floats.old words.old buffers.old output.old 0) }
    ensures { state floats.new words.new buffers.new output.new result ≡ run_in (given_by given.now) (state floats.old words.old buffers.old output.old 0) }
{
    let mut wrote = 0;
    let mut at = 0;
    for i in 0..given.plan.steps {
        let Some((step, next)) = plan_reader::read_step(given.steps, at) else {
            return wrote;
        };
        wrote = run_step(given, ends, floats, words, buffers, output, wrote, step);
        at = next;
    }
    wrote
}

// All steps of a run, over the step words that the plan counts. Requires what the tests said of the plan, its steps, the directory and the output area.
pub fn run_block(
    given: &Given<'_>,
    floats: &mut [f32],
    words: &mut [u32],
    buffers: &mut [f32],
    output: &mut [f32],
) -> usize
    requires tested { RunTested (given_by given.now) (state floats.old words.old buffers.old output.old 0) }
    requires output_room { OutputRoom (given_by given.now) (state floats.old words.old buffers.old output.old 0) }
    requires few_entries { entries given.now.directory.now ≤ max_entries }
    ensures { state floats.new words.new buffers.new output.new result ≡ run_in (given_by given.now) (state floats.old words.old buffers.old output.old 0) }
{
    // So that a Patch searches from the last entry of its input down; an input without one keeps 0, below which there is no entry.
    let mut ends = [0; input::ENDS];
    input::search_ends(given.directory, &mut ends);
    run_steps(given, &ends[..], floats, words, buffers, output)
}
