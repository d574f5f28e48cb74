// The layout a second time, in areas of its own, and what it adopts of the plan that has run.
use crate::areas::Areas;
use crate::{build, names};
use adoption::Nodes;
use refusal::Answer;

// The sample that the run ends at.
const AT: usize = 192_000;

// In samples, and of no kind: the operator chooses it.
const RAMP: u32 = 480;

// A digest of what is safe.
fn of_safe(areas: &Areas) -> u32 {
    desk_nodes::of_safe(areas.plan.nodes, &areas.floats, &areas.words)
}

// The nodes of a second layout, which is not run, adopt the old ones of their numbers, and a line says what they took. All are named, the announcement's
// too, which is the only safe one: that there is one shows in how many start elsewhere.
pub fn adopts(old: &Areas) -> Answer {
    let mut areas = Areas::new();
    build::laid_out(&mut areas)?;
    let nodes = areas.plan.nodes;
    let built = of_safe(&areas);
    let old_nodes = Nodes {
        count: old.plan.nodes,
        floats: &old.floats,
        words: &old.words,
    };
    desk_nodes::adopt_all(nodes, &mut areas.floats, &mut areas.words, old_nodes, RAMP)?;
    let alike = desk_nodes::start_alike(nodes, &areas.floats, &old.floats);
    text::print(format_args!(
        "{AT:>8}  an adoption into a second layout names {nodes} nodes, over {RAMP} samples; "
    ));
    let safe = names::yes(of_safe(&areas) == built);
    text::print(format_args!(
        "{alike} start where the old ones are, and what is safe is as it was built: {safe}\n"
    ));
    Ok(())
}
