// The source sets of the buffers: what a list of buffers has, gets, or gets besides.
ghost use Rattle.std.specs.Prelude.{◌≡◌, false, ℕ, length};
ghost use Rattle.lists.specs.Entries.{some_from};
ghost use Rattle.sets.specs.Sets.{member};
ghost use Rattle.plan.specs.Limits.{unit_limits};
ghost use Rattle.trace.specs.Sources.{union};
ghost use Rattle.trace_sources.specs.Loops.{sources_of, changed, other, joined};

use sets::Set;

// The union of the sets of a list of buffers. Requires numbers of buffers, and a set for each buffer that a plan can have.
pub(crate) fn union_of(area: &[Set], src: &[u32]) -> Set
    requires { (some_from unit_limits.buffers src.now ≡ false) × (length area.now ≡ unit_limits.buffers) }
    ensures { (i : ℕ) → member result i ≡ union (sources_of area.now) src.now i }
{
    let mut set = Set::empty();
    for &b in src {
        set = set.union(area[b as usize]);
    }
    set
}

// Each buffer of a list gets the set instead of its own. Requires as `union_of`.
pub(crate) fn give(area: &mut [Set], dst: &[u32], set: Set)
    requires { (some_from unit_limits.buffers dst.now ≡ false) × (length area.old ≡ unit_limits.buffers) }
    ensures { sources_of area.new ≡ changed (other set) (sources_of area.old) dst.now }
{
    for &b in dst {
        area[b as usize] = set;
    }
}

// Each buffer of a list gets the set added to its own. Requires as `union_of`.
pub(crate) fn add(area: &mut [Set], dst: &[u32], set: Set)
    requires { (some_from unit_limits.buffers dst.now ≡ false) × (length area.old ≡ unit_limits.buffers) }
    ensures { sources_of area.new ≡ changed (joined set) (sources_of area.old) dst.now }
{
    for &b in dst {
        let own = area[b as usize];
        area[b as usize] = own.union(set);
    }
}
