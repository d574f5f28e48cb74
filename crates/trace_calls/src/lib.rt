// The calls of the trace: the inputs behind each output of a plan. Ports `output_sources` of src/engine/plan.rs; the clean answer is added.
#![tactic(auto)]

mod slots;

ghost use Rattle.std.specs.Prelude.{◌≡◌, length};
ghost use Rattle.trace.specs.Calls.{sources_answer, sources_area, all_answer, all_counts, all_lists, clean_answer};

use plan::Plan;
use plan_check::check_lists;
use refusal::{Reason, Refusal};
use sets::Set;
use slots::{LIST_PLACES, SLOTS, write_lists};
use trace_clean::all_clean;
use trace_sources::behind;

// The inputs behind one slot, ascending, at the front of `list`.
pub fn output_sources(
    plan: Plan,
    slot: u32,
    indices: &[u32],
    node_words: &[u32],
    steps: &[u32],
    list: &mut [u16],
) -> Result<u32, Refusal>
    ensures answer { result ≡ sources_answer plan slot indices.now node_words.now steps.now (length list.old) }
    ensures list { list.new ≡ sources_area plan slot indices.now node_words.now steps.now list.old }
{
    check_lists(plan, indices, node_words, steps)?; // before the slot's own reason
    let words = plan.words;
    let mut slots = [Set::empty(); SLOTS];
    let n = behind(plan, indices, &steps[..words], &mut slots);
    if n <= slot as usize {
        return Err(Reason::NoSlot.into());
    }
    let set = slots[slot as usize];
    let count = set.count();
    if list.len() < count as usize {
        return Err(Reason::ShortArea.into());
    }
    set.list(list);
    Ok(count)
}

// The inputs behind every slot s: how many at place s of `counts`, and which, ascending, from place 256 * s of `lists` on. One walk of the steps, as
// in the Rust.
pub fn all_sources(
    plan: Plan,
    indices: &[u32],
    node_words: &[u32],
    steps: &[u32],
    counts: &mut [u32],
    lists: &mut [u16],
) -> Result<u32, Refusal>
    ensures answer { result ≡ all_answer plan indices.now node_words.now steps.now (length counts.old) (length lists.old) }
    ensures counts { counts.new ≡ all_counts plan indices.now node_words.now steps.now counts.old (length lists.old) }
    ensures lists { lists.new ≡ all_lists plan indices.now node_words.now steps.now (length counts.old) lists.old }
{
    check_lists(plan, indices, node_words, steps)?;
    let words = plan.words;
    let mut sets = [Set::empty(); SLOTS];
    let n = behind(plan, indices, &steps[..words], &mut sets);
    if (counts.len() < n) | (lists.len() < n * LIST_PLACES) {
        return Err(Reason::ShortArea.into());
    }
    write_lists(&sets, n, counts, lists);
    Ok(n as u32)
}

// Whether a plan is clean, as document 01 has it.
pub fn clean_answer(
    plan: Plan,
    indices: &[u32],
    node_words: &[u32],
    steps: &[u32],
) -> Result<bool, Refusal>
    ensures { result ≡ clean_answer plan indices.now node_words.now steps.now }
{
    check_lists(plan, indices, node_words, steps)?;
    let words = plan.words;
    Ok(all_clean(plan, indices, &steps[..words]))
}
