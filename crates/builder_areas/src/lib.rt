// The stores of `buffers`, `step` and `finish`: each writes a run of an area and leaves the rest.
// All of it is for the crates above and not the interface: a function that has a `requires` says in its comment what it takes.
#![tactic(auto)]

ghost use Rattle.std.specs.Prelude.{◌≡◌, ◌+◌, ◌≤◌, length, replicate};
ghost use Rattle.std.proofs.lemmas.List.Edits.{sets};
ghost use Rattle.node.specs.Nodes.{silence};
ghost use Rattle.plan.specs.Limits.{unit_limits};
ghost use Rattle.builder.specs.Calls.{numbers_from};

// A count here is of what is written to an area that goes on behind it: hence it stands beside the area.

// n numbers from `from` on, stored from place `at` on. Requires numbers of buffers, and room for them.
pub fn put_numbers(from: usize, n: usize, at: usize, indices: &mut [u32])
    requires { (from + n ≤ unit_limits.buffers) × (at + n ≤ length indices.old) }
    ensures { indices.new ≡ sets indices.old at (numbers_from from n) }
{
    for (i, place) in indices[at..at + n].iter_mut().enumerate() {
        *place = (from + i) as u32;
    }
}

// Zeros in the first n places. Requires as many.
pub fn put_zeros(n: usize, area: &mut [f32])
    requires { n ≤ length area.old }
    ensures { area.new ≡ sets area.old 0 (replicate n silence) }
{
    area[..n].fill(0.0);
}
