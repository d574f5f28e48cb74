// The areas that the lists of all slots go to.
ghost use Rattle.std.specs.Prelude.{◌≡◌, ◌*◌, ◌≤◌, length};
ghost use Rattle.plan.specs.Limits.{inputs, slots};
ghost use Rattle.trace.specs.Calls.{counts_of, lists_of};
ghost use Rattle.trace_sources.specs.Loops.{slot_sets, list_at};

use plan::Step;
use sets::Set;

// The sets of a plan's slots.
pub(crate) const SLOTS: usize = Step::SLOTS as usize;

// The places that `all_sources` has for each slot's list.
pub(crate) const LIST_PLACES: usize = Step::INPUTS as usize;

// The count and the list of each of the first n slots, from their sets. Requires at most as many as a plan can have, a set for each of these, and
// room in both areas. The count goes with whole slices, since what lies behind its part of the two areas stays as it was.
pub(crate) fn write_lists(area: &[Set], n: usize, counts: &mut [u32], lists: &mut [u16])
    requires { (n ≤ slots) × (length area.now ≡ slot_sets) × (n ≤ length counts.old) × (n * inputs ≤ length lists.old) }
    ensures { (counts.new ≡ counts_of (list_at area.now) n counts.old) × (lists.new ≡ lists_of (list_at area.now) n lists.old) }
{
    for (s, &set) in area[..n].iter().enumerate() {
        counts[s] = set.count();
        set.list(&mut lists[s * LIST_PLACES..]);
    }
}
