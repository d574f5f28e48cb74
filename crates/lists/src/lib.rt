// Lists: their parts, stores and entries as definitions with their laws, and the function on lists that several crates share.
// All of it is for the crates above and not the interface: a function that has a `requires` says in its comment what it takes.
#![tactic(auto)]

ghost use Rattle.std.specs.Prelude.{◌≡◌, ◌+◌, ◌≤◌, length};
ghost use Rattle.std.proofs.lemmas.List.Edits.{sets};

// The values, stored from place `at` on. Requires room for them.
#[tactic(auto, using(crate::proofs::Stores::stores_turn))]
pub fn put<T: Copy>(values: &[T], at: usize, area: &mut [T])
    requires { at + length values.now ≤ length area.old }
    ensures { area.new ≡ sets area.old at values.now }
{
    // Not by `copy_from_slice`, which needs `memmove` of C.
    for (i, value) in values.iter().enumerate() {
        area[at + i] = *value;
    }
}
