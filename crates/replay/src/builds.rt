// Records of builder calls. Areas of a record: those that are lent, the record before, and what the call leaves.
use crate::areas::room;
use crate::compare::{self, Compared};
use crate::data::Record;
use builder_calls::PlanBuilder;
use plan::{Plan, Span};
use refusal::Refusal;

// The answer of a call that makes a span, and the record after, which is area 1. A refused call makes none, and the record has 0 and 0.
pub fn spanned(record: Record<'_>, i: u8, answer: Result<Span, Refusal>, after: Plan) -> Compared {
    if let Some(span) = compare::accepted(record, answer)? {
        compare::span(record, i, span)?;
    }
    compare::plan(record, 1, after)
}

// Areas: the record after. Numbers: the block.
pub fn new(record: Record<'_>) -> Compared {
    let (answer, builder) = match PlanBuilder::new(record.size(7)) {
        Ok(builder) => (Ok(()), builder),
        Err(block) => (Err(block.refusal), block.builder),
    };
    compare::accepted(record, answer)?;
    compare::plan(record, 0, builder.plan)
}

// Areas: the record, the record after, the index list, the index list after. Numbers: how many, the span.
pub fn buffers(record: Record<'_>) -> Compared {
    let mut indices = room::<u32>();
    let indices = record.lend(2, &mut indices);
    let mut builder = record.builder(0);
    let made = builder.buffers(record.size(13), indices);
    spanned(record, 15, made, builder.plan)?;
    compare::left("indices", record, 3, indices)
}

// Numbers: the span, how many, the span after.
pub fn first(record: Record<'_>) -> Compared {
    compare::never_refused(record)?;
    compare::span(
        record,
        8,
        PlanBuilder::first(record.span(5), record.word(7)),
    )
}

// Areas: the record, the index list. Numbers: the span, the place in it, the buffer.
pub fn buffer(record: Record<'_>) -> Compared {
    let made = record
        .builder(0)
        .buffer(record.span(9), record.size(11), record.area(1));
    compare::numbered("number", record, 13, made)
}

// Areas: the record, the record after, the values, the coefficients, the coefficients after. Numbers: the span.
pub fn coefficients(record: Record<'_>) -> Compared {
    let mut values = room::<f32>();
    let mut coefficients = room::<f32>();
    let values = record.lend(2, &mut values);
    let coefficients = record.lend(3, &mut coefficients);
    let mut builder = record.builder(0);
    let made = builder.coefficients(values, coefficients);
    spanned(record, 15, made, builder.plan)?;
    compare::left("coefficients", record, 4, coefficients)
}

// Areas: the record, the record after, the values, the node floats and words, both after. Numbers: the id, the ramp, safe, the node's number.
pub fn node(record: Record<'_>) -> Compared {
    let mut values = room::<f32>();
    let mut floats = room::<f32>();
    let mut node_words = room::<u32>();
    let values = record.lend(2, &mut values);
    let floats = record.lend(3, &mut floats);
    let node_words = record.lend(4, &mut node_words);
    let id = record.word(19);
    let ramp = record.word(20);
    let safe = record.word(21);
    let mut builder = record.builder(0);
    let made = builder.node(id, values, ramp, safe, floats, node_words);
    compare::numbered("number", record, 22, made)?;
    compare::plan(record, 1, builder.plan)?;
    compare::left("node floats", record, 5, floats)?;
    compare::left("node words", record, 6, node_words)
}

// Areas: the record, the record after, the step's record, the step words, the step words after.
pub fn step(record: Record<'_>) -> Compared {
    let mut steps = room::<u32>();
    let steps = record.lend(3, &mut steps);
    let mut builder = record.builder(0);
    let made = builder.step(record.area(2), steps);
    compare::accepted(record, made)?;
    compare::plan(record, 1, builder.plan)?;
    compare::left("step words", record, 4, steps)
}

// Areas: the record, the record after, the buffers, the buffers after.
pub fn finish(record: Record<'_>) -> Compared {
    let mut buffers = room::<f32>();
    let buffers = record.lend(2, &mut buffers);
    let builder = record.builder(0);
    compare::accepted(record, builder.finish(buffers))?;
    compare::plan(record, 1, builder.plan)?;
    compare::left("buffers", record, 3, buffers)
}
