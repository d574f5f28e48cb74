// The six kinds of steps: Gain, Matrix and Send, which have a node, by one function, then Patch, Clear and Output.
// All of it is for the crates above and not the interface: a function that has a `requires` says in its comment what it takes.
#![tactic(auto)]

mod kinds;

ghost use Rattle.std.specs.Prelude.{◌≡◌, ◌+◌, ◌*◌, ◌≤◌, length};
ghost use Rattle.mix.specs.Samples.{put};
ghost use Rattle.mix.specs.Mix.{patched, cleared, appended, Inside};
ghost use Rattle.plan.specs.Check.{named};
ghost use Rattle.plan.specs.Sound.{Names};

pub use kinds::{Gain, Kind, Matrix, Send, run_node};
use plan::{Plan, Span};

// Patch: the first block samples of a channel's part, or +0 where it counts as absent. Requires that the buffer lies within the area.
pub fn patch(buffers: &mut [f32], block: usize, dst: usize, part: &[f32])
    requires { Inside block dst buffers.old }
    ensures { buffers.new ≡ put block dst (patched block part.now) buffers.old }
{
    if part.len() < block {
        mix_buffers::fill_buffer(buffers, block, dst);
        return;
    }
    mix_buffers::copy_buffer(buffers, block, dst, part);
}

// Clear. Requires a span that names buffers, and all buffers.
pub fn run_clear(plan: Plan, indices: &[u32], buffers: &mut [f32], dst: Span)
    requires { Names plan indices.now dst × (plan.buffers * plan.block ≤ length buffers.old) }
    ensures { buffers.new ≡ cleared plan.block (named indices.now dst) buffers.old }
{
    mix_buffers::clear(buffers, plan.block, plan_steps::numbers(indices, dst));
}

// Output, after `wrote` samples; the answer is how many are written then. Requires as `run_clear`, and room in the output.
pub fn run_output(
    plan: Plan,
    indices: &[u32],
    buffers: &[f32],
    output: &mut [f32],
    wrote: usize,
    src: Span,
) -> usize
    requires names { Names plan indices.now src × (plan.buffers * plan.block ≤ length buffers.now) }
    requires block_in_bounds { wrote + src.len * plan.block ≤ length output.old }
    ensures wrote { result ≡ wrote + length (named indices.now src) * plan.block }
    ensures output { output.new ≡ appended plan.block buffers.now (named indices.now src) wrote output.old }
{
    let from = plan_steps::numbers(indices, src);
    mix_buffers::append(buffers, plan.block, from, output, wrote);
    wrote + from.len() * plan.block
}
