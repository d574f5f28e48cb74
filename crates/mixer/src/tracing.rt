// The calls of crate `trace_calls`. The parameters are those of include/mixer.h, area by area. Each call is an export of its own name, so that
// two of the same text stay two.
ghost use Rattle.std.specs.Prelude.{◌≡◌, length};
ghost use Rattle.trace.specs.Calls.{sources_answer, sources_area, all_answer, all_counts, all_lists, clean_answer};
ghost use Rattle.mixer_replies.specs.Replies.{count_reply, clean_reply};

use mixer_replies::{CleanReply, CountReply, clean_reply, count_reply};
use plan::Plan;

#[unsafe(no_mangle)]
pub extern "C" fn mixer_output_sources(
    plan: Plan,
    slot: u32,
    indices: &[u32],
    node_words: &[u32],
    steps: &[u32],
    list: &mut [u16],
) -> CountReply
    ensures reply { result ≡ count_reply (sources_answer plan slot indices.now node_words.now steps.now (length list.old)) }
    ensures list { list.new ≡ sources_area plan slot indices.now node_words.now steps.now list.old }
{
    let answer = trace_calls::output_sources(plan, slot, indices, node_words, steps, list);
    count_reply(answer.map(|n| n as usize))
}

#[unsafe(no_mangle)]
pub extern "C" fn mixer_all_sources(
    plan: Plan,
    indices: &[u32],
    node_words: &[u32],
    steps: &[u32],
    counts: &mut [u32],
    lists: &mut [u16],
) -> CountReply
    ensures reply { result ≡ count_reply (all_answer plan indices.now node_words.now steps.now (length counts.old) (length lists.old)) }
    ensures counts { counts.new ≡ all_counts plan indices.now node_words.now steps.now counts.old (length lists.old) }
    ensures lists { lists.new ≡ all_lists plan indices.now node_words.now steps.now (length counts.old) lists.old }
{
    let answer = trace_calls::all_sources(plan, indices, node_words, steps, counts, lists);
    count_reply(answer.map(|n| n as usize))
}

#[unsafe(no_mangle)]
pub extern "C" fn mixer_clean_answer(
    plan: Plan,
    indices: &[u32],
    node_words: &[u32],
    steps: &[u32],
) -> CleanReply
    ensures { result ≡ clean_reply (clean_answer plan indices.now node_words.now steps.now) }
{
    clean_reply(trace_calls::clean_answer(plan, indices, node_words, steps))
}
