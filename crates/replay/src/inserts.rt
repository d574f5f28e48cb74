// Records of inserts. Areas: the record, the record after, the index list, the coefficients, the node floats and words and the step words, these five after.
// Numbers: the format, the source span, the gain, the slot, the ramp, the six ids, whether there is a return, its input, channel and gain, whether it is at
// bypass, the span handed back.
use crate::areas::room;
use crate::builds::spanned;
use crate::compare::{self, Compared};
use crate::data::Record;
use builder_calls::areas::PlanAreas;
use comparison::floats;
use insert::{InsertIds, InsertPoint, InsertReturn};

fn ids_of(record: Record<'_>) -> InsertIds {
    InsertIds {
        send: record.word(35),
        ret: record.word(36),
        dry: record.word(37),
        wet: record.word(38),
        dryin: record.word(39),
        wetin: record.word(40),
    }
}

fn return_of(record: Record<'_>) -> InsertReturn {
    InsertReturn {
        input: record.word(42),
        channel: record.word(43),
        gain: floats::float_of(record.word(44)),
        bypass: record.word(45) == 1,
    }
}

fn point_of(record: Record<'_>) -> InsertPoint {
    InsertPoint {
        format: record.word(29),
        src: record.span(30),
        gain: floats::float_of(record.word(32)),
        slot: record.word(33),
        ramp: record.word(34),
        ids: ids_of(record),
        returns: record.word(41) == 1,
        back: return_of(record),
    }
}

pub fn insert(record: Record<'_>) -> Compared {
    let mut indices = room::<u32>();
    let mut coefficients = room::<f32>();
    let mut floats = room::<f32>();
    let mut node_words = room::<u32>();
    let mut steps = room::<u32>();
    let mut areas = PlanAreas {
        builder: record.builder(0),
        indices: record.lend(2, &mut indices),
        coefficients: record.lend(3, &mut coefficients),
        floats: record.lend(4, &mut floats),
        words: record.lend(5, &mut node_words),
        steps: record.lend(6, &mut steps),
    };
    let made = insert_calls::insert(&mut areas, point_of(record));
    spanned(record, 46, made, areas.builder.plan)?;
    compare::left("indices", record, 7, areas.indices)?;
    compare::left("coefficients", record, 8, areas.coefficients)?;
    compare::left("node floats", record, 9, areas.floats)?;
    compare::left("node words", record, 10, areas.words)?;
    compare::left("step words", record, 11, areas.steps)
}
