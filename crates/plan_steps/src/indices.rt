// An index list with what was found out about it.
ghost use Rattle.std.specs.Prelude.{◌≡◌, true};
ghost use Rattle.plan.specs.Sound.{IndexList};
ghost use Rattle.plan.specs.Loops.{Ascending};

use plan::Plan;

// The index list of a plan, whose entries are buffers of it. It ascends where it is said to, as the builder's does.
// The flag has no value beside it: the list is there either way.
#[derive(Clone, Copy)]
pub struct Indices<'a> {
    pub plan: Plan,
    pub list: &'a [u32],
    pub ascending: bool,
    pub ghost tested: { IndexList plan list.now },
    pub ghost ascends: { ascending ≡ true → Ascending 1 plan.indices list.now },
}
