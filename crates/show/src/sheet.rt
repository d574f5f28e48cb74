// The cue sheet: for each slot the inputs behind it, as the trace lists them, and the digest of what was written to it.
use crate::areas::Areas;
use crate::{layout, names};
use refusal::Answer;
use text::Joined;

fn row(slot: u32, digest: u32, areas: &Areas) -> Answer {
    let mut inputs = [0u16; 256];
    let list = areas.sources(slot, &mut inputs)?;
    let name = names::slot(slot as usize);
    let count = list.len();
    let inputs = Joined { list, between: " " };
    text::print(format_args!("{slot:>6}  {name:<14}{digest:08x}{count:>7}  {inputs}\n"));
    Ok(())
}

// The rows of all slots, each with its digest.
pub fn rows(digests: &[u32; layout::SLOTS], areas: &Areas) -> Answer {
    text::print("\nCue sheet\n  slot  output        digest    count  inputs behind it\n");
    for (slot, &digest) in digests.iter().enumerate() {
        row(slot as u32, digest, areas)?;
    }
    Ok(())
}
