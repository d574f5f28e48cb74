// The plan check, of crate `plan_check`; `process`, of crate `run_process`; the calls of crates `setting`, `input` and `adoption`.
// The parameters are those of include/mixer.h, area by area.
ghost use Rattle.std.specs.Prelude.{◌≡◌, length};
ghost use Rattle.plan.specs.Areas.{areas};
ghost use Rattle.plan.specs.Check.{check_plan};
ghost use Rattle.input.specs.Input.{directory_bad};
ghost use Rattle.setting.specs.Setting.{setting_answer, setting_floats, setting_words};
ghost use Rattle.run.specs.Run.{given, state, processed, process_answer};
ghost use Rattle.adoption.specs.Adoption.{lent, adoption_answer, adoption_floats, adoption_words};
ghost use Rattle.mixer_replies.specs.Replies.{status_of, count_reply};
ghost use Rattle.mixer.specs.Lookup.{lookup_reply, lookup_area};

use adoption::Nodes;
use mixer_replies::{CountReply, Status, count_reply, status_of};
use plan::Plan;
use plan_areas::Areas;
use refusal::Reason;
use run::Given;

#[unsafe(no_mangle)]
pub extern "C" fn mixer_check_plan(
    plan: Plan,
    indices: &[u32],
    coefficients: &[f32],
    node_floats: &[f32],
    node_words: &[u32],
    steps: &[u32],
    buffers: &[f32],
) -> Status
    ensures { result ≡ status_of (check_plan plan (areas indices.now coefficients.now node_floats.now node_words.now steps.now buffers.now)) }
{
    let areas = Areas {
        indices,
        coefficients,
        node_floats,
        node_words,
        steps,
        buffers,
    };
    status_of(plan_check::check_plan(plan, &areas))
}

// Of the plan only its count of nodes is used.
#[unsafe(no_mangle)]
pub extern "C" fn mixer_set_param(
    plan: Plan,
    id: u32,
    values: &[f32],
    ramp: u32,
    node_floats: &mut [f32],
    node_words: &mut [u32],
) -> Status
    ensures reply { result ≡ status_of (setting_answer plan.nodes id ramp (length node_floats.old) node_words.old) }
    ensures floats { node_floats.new ≡ setting_floats plan.nodes id values.now ramp node_floats.old node_words.old }
    ensures words { node_words.new ≡ setting_words plan.nodes id values.now ramp node_floats.old node_words.old }
{
    status_of(setting::set_param(plan.nodes, id, values, ramp, node_floats, node_words))
}

#[unsafe(no_mangle)]
pub extern "C" fn mixer_process(
    plan: Plan,
    indices: &[u32],
    coefficients: &[f32],
    node_floats: &mut [f32],
    node_words: &mut [u32],
    steps: &[u32],
    buffers: &mut [f32],
    directory: &[u32],
    samples: &[f32],
    output: &mut [f32],
) -> CountReply
    ensures reply { result ≡ count_reply (process_answer (given plan indices.now coefficients.now steps.now directory.now samples.now) (state node_floats.old node_words.old buffers.old output.old 0)) }
    ensures floats { node_floats.new ≡ (processed (given plan indices.now coefficients.now steps.now directory.now samples.now) (state node_floats.old node_words.old buffers.old output.old 0)).floats }
    ensures words { node_words.new ≡ (processed (given plan indices.now coefficients.now steps.now directory.now samples.now) (state node_floats.old node_words.old buffers.old output.old 0)).words }
    ensures buffers { buffers.new ≡ (processed (given plan indices.now coefficients.now steps.now directory.now samples.now) (state node_floats.old node_words.old buffers.old output.old 0)).buffers }
    ensures output { output.new ≡ (processed (given plan indices.now coefficients.now steps.now directory.now samples.now) (state node_floats.old node_words.old buffers.old output.old 0)).output }
{
    let given = Given {
        plan,
        indices,
        coefficients,
        steps,
        directory,
        samples,
    };
    count_reply(run_process::process(&given, node_floats, node_words, buffers, output))
}

// C gets no reference back, so the part of the channel is copied to the front of `part`.
#[unsafe(no_mangle)]
pub extern "C" fn mixer_lookup(
    directory: &[u32],
    samples: &[f32],
    input: u32,
    channel: u32,
    part: &mut [f32],
) -> CountReply
    ensures reply { result ≡ lookup_reply directory.now samples.now input channel (length part.old) }
    ensures part { part.new ≡ lookup_area directory.now samples.now input channel part.old }
{
    let found = input::lookup(directory, samples, input, channel);
    if part.len() < found.len() {
        return count_reply(Err(Reason::ShortArea.into()));
    }
    lists::put(found, 0, part);
    count_reply(Ok(found.len()))
}

#[unsafe(no_mangle)]
pub extern "C" fn mixer_directory_bad(directory: &[u32], samples: usize) -> bool
    ensures { result ≡ directory_bad directory.now samples }
{
    input::directory_bad(directory, samples)
}

// Of the plans only their counts of nodes are used.
#[unsafe(no_mangle)]
pub extern "C" fn mixer_adopt(
    plan: Plan,
    node_floats: &mut [f32],
    node_words: &mut [u32],
    old_plan: Plan,
    old_floats: &[f32],
    old_words: &[u32],
    pairs: &[u32],
    ramp: u32,
) -> Status
    ensures reply { result ≡ status_of (adoption_answer (lent plan.nodes node_floats.old node_words.old) (lent old_plan.nodes old_floats.now old_words.now) pairs.now ramp) }
    ensures floats { node_floats.new ≡ adoption_floats (lent plan.nodes node_floats.old node_words.old) (lent old_plan.nodes old_floats.now old_words.now) pairs.now ramp }
    ensures words { node_words.new ≡ adoption_words (lent plan.nodes node_floats.old node_words.old) (lent old_plan.nodes old_floats.now old_words.now) pairs.now ramp }
{
    let old = Nodes {
        count: old_plan.nodes,
        floats: old_floats,
        words: old_words,
    };
    status_of(adoption::adopt(plan.nodes, node_floats, node_words, old, pairs, ramp))
}
