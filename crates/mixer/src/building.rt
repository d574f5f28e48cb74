// The builder calls, of crate `builder_calls`, and the insert, of crate `insert_calls`. The areas travel one by one, as the C interface lends them. Each call is an
// export of its own name, so that two of the same text stay two.
ghost use Rattle.std.specs.Prelude.{◌≡◌, length};
ghost use Rattle.plan.specs.Limits.{unit_limits};
ghost use Rattle.builder.specs.Growth.{buffers_growth, coefficients_growth, node_growth, step_growth};
ghost use Rattle.builder.specs.Calls.{plan_after, new_answer, empty_plan, buffers_answer, buffers_indices, buffers_span, first_buffers, buffer_number, coefficients_answer, coefficients_area, coefficients_span, node_answer, node_floats_area, node_words_area, node_number, record_length, step_answer, step_area, finish_answer, finish_area};
ghost use Rattle.builder.specs.Built.{builder_state};
ghost use Rattle.insert.specs.Insert.{insert_span, inserted};
ghost use Rattle.mixer_replies.specs.Replies.{plan_reply, span_reply, node_reply, buffer_reply};

use builder_calls::PlanBuilder;
use builder_calls::areas::PlanAreas;
use insert::InsertPoint;
use mixer_replies::{
    BufferReply, NodeReply, PlanReply, SpanReply, buffer_reply, node_reply, plan_reply, span_reply,
};
use plan::{Plan, Span};

#[unsafe(no_mangle)]
pub extern "C" fn mixer_new(block: usize) -> PlanReply
    ensures { result ≡ plan_reply (empty_plan block) (new_answer block) }
{
    match PlanBuilder::new(block) {
        Ok(builder) => plan_reply(builder.plan, Ok(())),
        Err(refused) => plan_reply(refused.builder.plan, Err(refused.refusal)),
    }
}

#[unsafe(no_mangle)]
pub extern "C" fn mixer_buffers(plan: Plan, n: usize, indices: &mut [u32]) -> SpanReply
    ensures reply { result ≡ span_reply (plan_after (buffers_answer unit_limits plan n (length indices.old)) plan (buffers_growth n)) (buffers_span unit_limits plan n (length indices.old)) }
    ensures indices { indices.new ≡ buffers_indices unit_limits plan n indices.old }
{
    let mut builder = PlanBuilder { plan };
    let answer = builder.buffers(n, indices);
    span_reply(builder.plan, answer)
}

#[unsafe(no_mangle)]
pub extern "C" fn mixer_first(span: Span, n: u32) -> Span
    ensures { result ≡ first_buffers span n }
{
    PlanBuilder::first(span, n)
}

#[unsafe(no_mangle)]
pub extern "C" fn mixer_buffer(plan: Plan, span: Span, i: usize, indices: &[u32]) -> BufferReply
    ensures { result ≡ buffer_reply (buffer_number plan span i indices.now) }
{
    let builder = PlanBuilder { plan };
    buffer_reply(builder.buffer(span, i, indices))
}

#[unsafe(no_mangle)]
pub extern "C" fn mixer_coefficients(
    plan: Plan,
    values: &[f32],
    coefficients: &mut [f32],
) -> SpanReply
    ensures reply { result ≡ span_reply (plan_after (coefficients_answer unit_limits plan (length values.now) (length coefficients.old)) plan (coefficients_growth (length values.now))) (coefficients_span unit_limits plan (length values.now) (length coefficients.old)) }
    ensures coefficients { coefficients.new ≡ coefficients_area unit_limits plan values.now coefficients.old }
{
    let mut builder = PlanBuilder { plan };
    let answer = builder.coefficients(values, coefficients);
    span_reply(builder.plan, answer)
}

#[unsafe(no_mangle)]
pub extern "C" fn mixer_node(
    plan: Plan,
    id: u32,
    values: &[f32],
    ramp: u32,
    safe: u32,
    node_floats: &mut [f32],
    node_words: &mut [u32],
) -> NodeReply
    ensures reply { result ≡ node_reply (plan_after (node_answer unit_limits plan id (length values.now) ramp safe (length node_floats.old) node_words.old) plan node_growth) (node_number unit_limits plan id (length values.now) ramp safe (length node_floats.old) node_words.old) }
    ensures floats { node_floats.new ≡ node_floats_area unit_limits plan id values.now ramp safe node_floats.old node_words.old }
    ensures words { node_words.new ≡ node_words_area unit_limits plan id values.now ramp safe node_floats.old node_words.old }
{
    let mut builder = PlanBuilder { plan };
    let answer = builder.node(id, values, ramp, safe, node_floats, node_words);
    node_reply(builder.plan, answer)
}

#[unsafe(no_mangle)]
pub extern "C" fn mixer_step(plan: Plan, record: &[u32], steps: &mut [u32]) -> PlanReply
    ensures reply { result ≡ plan_reply (plan_after (step_answer unit_limits plan «record».now (length steps.old)) plan (step_growth (record_length «record».now))) (step_answer unit_limits plan «record».now (length steps.old)) }
    ensures steps { steps.new ≡ step_area unit_limits plan «record».now steps.old }
{
    let mut builder = PlanBuilder { plan };
    let answer = builder.step(record, steps);
    plan_reply(builder.plan, answer)
}

#[unsafe(no_mangle)]
pub extern "C" fn mixer_insert(
    plan: Plan,
    insert: InsertPoint,
    indices: &mut [u32],
    coefficients: &mut [f32],
    node_floats: &mut [f32],
    node_words: &mut [u32],
    steps: &mut [u32],
) -> SpanReply
    ensures reply { result ≡ span_reply (inserted unit_limits (builder_state plan indices.old coefficients.old node_floats.old node_words.old steps.old) insert).plan (insert_span unit_limits (builder_state plan indices.old coefficients.old node_floats.old node_words.old steps.old) insert) }
    ensures indices { indices.new ≡ (inserted unit_limits (builder_state plan indices.old coefficients.old node_floats.old node_words.old steps.old) insert).indices }
    ensures coefficients { coefficients.new ≡ (inserted unit_limits (builder_state plan indices.old coefficients.old node_floats.old node_words.old steps.old) insert).coefficients }
    ensures floats { node_floats.new ≡ (inserted unit_limits (builder_state plan indices.old coefficients.old node_floats.old node_words.old steps.old) insert).floats }
    ensures words { node_words.new ≡ (inserted unit_limits (builder_state plan indices.old coefficients.old node_floats.old node_words.old steps.old) insert).words }
    ensures steps { steps.new ≡ (inserted unit_limits (builder_state plan indices.old coefficients.old node_floats.old node_words.old steps.old) insert).steps }
{
    let mut areas = PlanAreas {
        builder: PlanBuilder { plan },
        indices,
        coefficients,
        floats: node_floats,
        words: node_words,
        steps,
    };
    let answer = insert_calls::insert(&mut areas, insert);
    span_reply(areas.builder.plan, answer)
}

#[unsafe(no_mangle)]
pub extern "C" fn mixer_finish(plan: Plan, buffers: &mut [f32]) -> PlanReply
    ensures reply { result ≡ plan_reply plan (finish_answer unit_limits plan (length buffers.old)) }
    ensures buffers { buffers.new ≡ finish_area unit_limits plan buffers.old }
{
    let builder = PlanBuilder { plan };
    plan_reply(plan, builder.finish(buffers))
}
