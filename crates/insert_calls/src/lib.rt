// The builder call for an insert: an effects box of the house on a strip. Ports `insert` of src/mix/compile.rs. The call is total: it tests what docs/DECISIONS.md,
// point 64, lists, and a refused one changes nothing. Once it is accepted its single builder calls are made in turn, and their answers are not looked at: each is
// accepted (`insert_accepted` of crate `insert`).
#![tactic(auto)]

mod wiring;

ghost use Rattle.std.specs.Prelude.{◌≡◌};
ghost use Rattle.plan.specs.Limits.{unit_limits};
ghost use Rattle.insert.specs.Insert.{insert_span, inserted};
ghost use Rattle.builder.specs.Sums.{lengths};
ghost use Rattle.builder_calls.specs.Lent.{state_of, SameAreas};
ghost use Rattle.insert_answers.specs.Lent.{lengths_of};

use builder_calls::areas::PlanAreas;
use insert::InsertPoint;
use insert_answers::{Lent, insert_answer};
use plan::{Limits, Span};
use refusal::Refusal;
use wiring::{Wiring, add_sent};

// The areas, as the tests look at them.
fn lent<'a>(areas: &'a PlanAreas<'_>) -> Lent<'a>
    ensures lengths { lengths_of result ≡ lengths (state_of areas.now) }
    ensures words { result.words.now ≡ areas.now.words.now }
{
    let n = areas.lengths();
    Lent {
        indices: n.indices,
        coefficients: n.coefficients,
        floats: n.node_floats,
        words: areas.words,
        steps: n.step_words,
    }
}

// All or nothing. The answer is the span that the strip goes on with: the source span, or with a return that of the insert's output.
pub fn insert(areas: &mut PlanAreas<'_>, insert: InsertPoint) -> Result<Span, Refusal>
    ensures answer { result ≡ insert_span unit_limits (state_of areas.old) insert }
    ensures state { state_of areas.new ≡ inserted unit_limits (state_of areas.old) insert }
    ensures areas { SameAreas areas.old areas.new }
{
    let before = areas.builder.plan;
    insert_answer(Limits::UNIT, before, insert, lent(areas))?;
    add_sent(areas, insert);
    if insert.returns {
        let wiring = Wiring { before, insert };
        wiring.add_return(areas);
        return Ok(wiring.fresh(5));
    }
    Ok(insert.src)
}
