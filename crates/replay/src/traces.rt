// Records of the trace and the clean answer.
use crate::areas::room;
use crate::compare::{self, Compared};
use crate::data::Record;

// Areas: the record, the index list, the node words, the step words, the list's area, the same after. Numbers: the slot, how many are listed.
pub fn output_sources(record: Record<'_>) -> Compared {
    let mut list = room::<u16>();
    let list = record.lend(4, &mut list);
    let answer = trace_calls::output_sources(
        record.plan(0),
        record.word(17),
        record.area(1),
        record.area(2),
        record.area(3),
        list,
    );
    compare::numbered("count", record, 18, answer)?;
    compare::left("source list", record, 5, list)
}

// Areas: the record, the index list, the node words, the step words, the counts' and the lists' area, both after. Numbers: how many slots are listed.
pub fn all_sources(record: Record<'_>) -> Compared {
    let mut counts = room::<u32>();
    let mut lists = room::<u16>();
    let counts = record.lend(4, &mut counts);
    let lists = record.lend(5, &mut lists);
    let answer = trace_calls::all_sources(
        record.plan(0),
        record.area(1),
        record.area(2),
        record.area(3),
        counts,
        lists,
    );
    compare::numbered("count", record, 21, answer)?;
    compare::left("counts", record, 6, counts)?;
    compare::left("source lists", record, 7, lists)
}

// Areas: the record, the index list, the node words, the step words. Numbers: 1 where it is clean.
pub fn clean_answer(record: Record<'_>) -> Compared {
    let answer = trace_calls::clean_answer(
        record.plan(0),
        record.area(1),
        record.area(2),
        record.area(3),
    );
    match compare::accepted(record, answer)? {
        Some(clean) => compare::yes("clean answer", record.word(13), clean),
        None => Ok(()),
    }
}
