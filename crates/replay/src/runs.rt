// Records of the check, `set_param`, `process`, `adopt` and the channel lookup.
use crate::areas::room;
use crate::compare::{self, Compared};
use crate::data::Record;
use adoption::Nodes;
use plan_areas::Areas;
use run::Given;

// Areas: the values, the node floats and words, both after. Numbers: how many nodes, the id, the ramp.
pub fn set_param(record: Record<'_>) -> Compared {
    let mut values = room::<f32>();
    let mut floats = room::<f32>();
    let mut node_words = room::<u32>();
    let values = record.lend(0, &mut values);
    let floats = record.lend(1, &mut floats);
    let node_words = record.lend(2, &mut node_words);
    let nodes = record.size(15);
    let id = record.word(17);
    let ramp = record.word(18);
    let answer = setting::set_param(nodes, id, values, ramp, floats, node_words);
    compare::accepted(record, answer)?;
    compare::left("node floats", record, 3, floats)?;
    compare::left("node words", record, 4, node_words)
}

// Areas: the record, the index list, the coefficients, the node floats and words, the step words, the buffers. It has no numbers.
pub fn check_plan(record: Record<'_>) -> Compared {
    let mut coefficients = room::<f32>();
    let mut floats = room::<f32>();
    let mut buffers = room::<f32>();
    let areas = Areas {
        indices: record.area(1),
        coefficients: record.lend(2, &mut coefficients),
        node_floats: record.lend(3, &mut floats),
        node_words: record.area(4),
        steps: record.area(5),
        buffers: record.lend(6, &mut buffers),
    };
    let answer = plan_check::check_plan(record.plan(0), &areas);
    compare::accepted(record, answer)?;
    Ok(())
}

// Areas: those of the check, then the directory, the samples, the output area; the node floats and words, the buffers and the output area after.
// Numbers: the samples written.
pub fn process(record: Record<'_>) -> Compared {
    let mut coefficients = room::<f32>();
    let mut floats = room::<f32>();
    let mut node_words = room::<u32>();
    let mut buffers = room::<f32>();
    let mut samples = room::<f32>();
    let mut output = room::<f32>();
    let floats = record.lend(3, &mut floats);
    let node_words = record.lend(4, &mut node_words);
    let buffers = record.lend(6, &mut buffers);
    let output = record.lend(9, &mut output);
    let given = Given {
        plan: record.plan(0),
        indices: record.area(1),
        coefficients: record.lend(2, &mut coefficients),
        steps: record.area(5),
        directory: record.area(7),
        samples: record.lend(8, &mut samples),
    };
    let answer = run_process::process(&given, floats, node_words, buffers, output);
    if let Some(n) = compare::accepted(record, answer)? {
        compare::size("samples written", record.size(33), n)?;
    }
    compare::left("node floats", record, 10, floats)?;
    compare::left("node words", record, 11, node_words)?;
    compare::left("buffers", record, 12, buffers)?;
    compare::left("output", record, 13, output)
}

// Areas: the node floats and words, the old ones, the pairs, the node floats and words after. Numbers: how many nodes, how many old ones, the ramp.
pub fn adopt(record: Record<'_>) -> Compared {
    let mut floats = room::<f32>();
    let mut node_words = room::<u32>();
    let mut old_floats = room::<f32>();
    let floats = record.lend(0, &mut floats);
    let node_words = record.lend(1, &mut node_words);
    let old = Nodes {
        count: record.size(21),
        floats: record.lend(2, &mut old_floats),
        words: record.area(3),
    };
    let answer = adoption::adopt(
        record.size(19),
        floats,
        node_words,
        old,
        record.area(4),
        record.word(23),
    );
    compare::accepted(record, answer)?;
    compare::left("node floats", record, 5, floats)?;
    compare::left("node words", record, 6, node_words)
}

// Areas: the directory, the samples, the part. Numbers: the input, the channel.
pub fn lookup(record: Record<'_>) -> Compared {
    let mut samples = room::<f32>();
    let samples = record.lend(1, &mut samples);
    let found = input::lookup(record.area(0), samples, record.word(11), record.word(12));
    compare::never_refused(record)?;
    compare::left("part", record, 2, found)
}

// Areas: the directory. Numbers: how many samples, 1 where it is bad.
pub fn directory_bad(record: Record<'_>) -> Compared {
    let bad = input::directory_bad(record.area(0), record.size(7));
    compare::never_refused(record)?;
    compare::yes("directory", record.word(9), bad)
}
