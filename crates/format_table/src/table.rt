// A table: its tests, and the gains of the entry for a pair.
ghost use Rattle.std.specs.Prelude.{◌≡◌, ◌*◌, ◌≤◌, length};
ghost use Rattle.format.specs.Formats.{channels};
ghost use Rattle.format_table.specs.Tables.{entries, needed, times, table_entry, some_unknown, some_outside, table_answer};
ghost use Rattle.format_table.specs.Loops.{needs_of};

use crate::pairs;
use format::Format;
use format_fold::in_range;
use refusal::{Answer, Reason};

// A house table. `pairs` has two numbers an entry, its source and its destination, and a last odd one is ignored; `gains` has their gains, entry after
// entry, row by row, and the rest is ignored.
#[derive(Clone, Copy)]
pub struct Table<'a> {
    pub pairs: &'a [u32],
    pub gains: &'a [f32],
}

// An entry has a format above 6.
fn some_unknown(pairs: &[u32]) -> bool
    ensures { result ≡ some_unknown pairs.now (entries pairs.now) }
{
    let entries = pairs::entries(pairs);
    entries.iter().any(|[src, dst]| (Format::COUNT <= *src) | (Format::COUNT <= *dst))
}

// The gains of an entry.
#[tactic(auto, using(format::proofs::Labels::channels_le))]
fn size(src: u32, dst: u32) -> usize
    ensures { (result ≡ channels dst * channels src) × (result ≤ 144) }
{
    Format::channels(dst) * Format::channels(src)
}

impl<'a> Table<'a> {
    // The gains that the entries need, of those that there are. Their sum is never above that.
    // It stops where the sum is past what is lent.
    #[tactic(auto, using(crate::proofs::Tables::entry_steps))]
    fn gains_needed(self) -> Option<usize>
        ensures { result ≡ needs_of (needed self.entry.pairs.now (entries self.entry.pairs.now)) (length self.entry.gains.now) }
    {
        let mut n = 0;
        for [src, dst] in pairs::entries(self.pairs) {
            let size = size(*src, *dst);
            if self.gains.len() - n < size {
                return None;
            }
            n += size;
        }
        Some(n)
    }

    // The gains of the pair's entry. Requires that the pair has one entry, and as many gains as all entries need.
    #[tactic(auto, using(crate::proofs::Tables::entry_steps, crate::proofs::Tables::entry_part))]
    pub fn find_entry(self, src: u32, dst: u32) -> &'a [f32]
        requires { (times self.pairs.now src dst (entries self.pairs.now) ≡ 1) × (needed self.pairs.now (entries self.pairs.now) ≤ length self.gains.now) }
        ensures { result.now ≡ table_entry self.entry.pairs.now self.entry.gains.now src dst }
    {
        let mut at = 0;
        for [from, to] in pairs::entries(self.pairs) {
            let end = at + size(*from, *to);
            let wanted = (*from == src) & (*to == dst);
            if wanted {
                return &self.gains[at..end];
            }
            at = end;
        }
        &self.gains[0..0]
    }

    // One of the first n gains is not from +0 to 16. Requires so many.
    fn some_outside(self, n: usize) -> bool
        requires { n ≤ length self.gains.now }
        ensures { result ≡ some_outside self.entry.gains.now n }
    {
        self.gains[..n]
            .iter()
            .any(|gain| !in_range(f64::from(*gain)))
    }

    // The table's tests.
    #[tactic(auto, unfolding(crate::specs::Tables::table_answer))]
    pub fn answer(self) -> Answer
        ensures { result ≡ table_answer self.entry.pairs.now self.entry.gains.now }
    {
        if some_unknown(self.pairs) {
            return Err(Reason::NoFormat.into());
        }
        let Some(n) = self.gains_needed() else {
            return Err(Reason::ShortArea.into());
        };
        if self.some_outside(n) {
            return Err(Reason::OutOfRange.into());
        }
        let faults = pairs::faults_in(self.pairs);
        if faults.missing {
            return Err(Reason::NoEntry.into());
        }
        if faults.twice {
            return Err(Reason::PairTwice.into());
        }
        if faults.uncovered {
            return Err(Reason::PairNotCovered.into());
        }
        Ok(())
    }
}
