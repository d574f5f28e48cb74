// The builder calls, which lay out a plan in lent areas. Ports `PlanBuilder` of src/engine/plan.rs. Each call is total: it tests what
// docs/DECISIONS.md, point 2, lists, and a refused one changes nothing.
#![tactic(auto)]

pub mod areas;

ghost use Rattle.std.specs.Prelude.{◌≡◌, length};
ghost use Rattle.plan.specs.Limits.{unit_limits};
ghost use Rattle.builder.specs.Growth.{buffers_growth, coefficients_growth, node_growth, step_growth};
ghost use Rattle.builder.specs.Calls.{plan_after, empty_plan, buffers_answer, buffers_indices, buffers_span, first_buffers, buffer_number, coefficients_answer, coefficients_area, coefficients_span, node_answer, node_floats_area, node_words_area, node_number, record_length, step_answer, step_area, finish_answer, finish_area};
ghost use Rattle.builder_calls.specs.New.{new_builder};

use node::Node;
use plan::{Limits, Plan, Span};
use refusal::{Answer, Reason, Refusal};

// The record that the calls build. Each call is lent the areas that it needs, as the C interface lends them; `PlanAreas` has all five.
#[derive(Clone, Copy)]
pub struct PlanBuilder {
    pub plan: Plan,
}

// A block that is refused, and the builder that there is even so: of the empty plan with that block in it, so that later calls refuse it too.
#[derive(Clone, Copy)]
pub struct RefusedBlock {
    pub refusal: Refusal,
    pub builder: PlanBuilder,
}

// For a caller that goes no further.
impl From<RefusedBlock> for Refusal {
    ghost from_gives = { λ block made. made ≡ block.refusal };

    fn from(block: RefusedBlock) -> Refusal {
        block.refusal
    }
}

impl PlanBuilder {
    // An empty plan for blocks of `block` samples, whether there can be one or not.
    pub fn empty(block: usize) -> PlanBuilder
        ensures { result.plan ≡ empty_plan block }
    {
        let plan = Plan {
            block,
            buffers: 0,
            indices: 0,
            coefficients: 0,
            nodes: 0,
            steps: 0,
            words: 0,
        };
        PlanBuilder { plan }
    }

    // The same, beside the refusal where there can be none.
    pub fn new(block: usize) -> Result<PlanBuilder, RefusedBlock>
        ensures { result ≡ new_builder block }
    {
        let builder = PlanBuilder::empty(block);
        match builder_answers::new_answer(block) {
            Ok(()) => Ok(builder),
            Err(refusal) => Err(RefusedBlock { refusal, builder }),
        }
    }

    // n new buffers, however long the area is: fresh numbers, and index entries that name them.
    #[tactic(auto, using(builder::proofs::Fits::buffers_fit), unfolding(builder::specs::Calls::buffers_span, builder::specs::Calls::buffers_indices))]
    pub fn buffers(&mut self, n: usize, indices: &mut [u32]) -> Result<Span, Refusal>
        ensures answer { result ≡ buffers_span unit_limits self.old.plan n (length indices.old) }
        ensures plan { self.new.plan ≡ plan_after (buffers_answer unit_limits self.old.plan n (length indices.old)) self.old.plan (buffers_growth n) }
        ensures indices { indices.new ≡ buffers_indices unit_limits self.old.plan n indices.old }
    {
        builder_answers::buffers_answer(Limits::UNIT, self.plan, n, indices.len())?;
        let from = self.plan.buffers;
        let at = self.plan.indices;
        builder_areas::put_numbers(from, n, at, indices);
        self.plan.buffers = from + n;
        self.plan.indices = at + n;
        Ok(Span {
            start: at as u32,
            len: n as u32,
        })
    }

    // The first n buffers of a span.
    pub fn first(span: Span, n: u32) -> Span
        ensures { result ≡ first_buffers span n }
    {
        if n < span.len {
            return Span {
                start: span.start,
                len: n,
            };
        }
        span
    }

    // The number of buffer i of a span.
    #[tactic(auto, unfolding(builder::specs::Calls::buffer_number))]
    pub fn buffer(self, span: Span, i: usize, indices: &[u32]) -> Result<u32, Refusal>
        ensures { result ≡ buffer_number self.plan span i indices.now }
    {
        let start = span.start as usize;
        let end = self.plan.indices.min(indices.len());
        if end <= start {
            return Err(Reason::ShortArea.into());
        }
        if end - start <= i {
            return Err(Reason::ShortArea.into());
        }
        Ok(indices[start + i])
    }

    // The values as coefficients, after the others.
    #[tactic(auto, using(builder::proofs::Fits::coefficients_fit), unfolding(builder::specs::Calls::coefficients_span, builder::specs::Calls::coefficients_area))]
    pub fn coefficients(&mut self, values: &[f32], area: &mut [f32]) -> Result<Span, Refusal>
        ensures answer { result ≡ coefficients_span unit_limits self.old.plan (length values.now) (length area.old) }
        ensures plan { self.new.plan ≡ plan_after (coefficients_answer unit_limits self.old.plan (length values.now) (length area.old)) self.old.plan (coefficients_growth (length values.now)) }
        ensures area { area.new ≡ coefficients_area unit_limits self.old.plan values.now area.old }
    {
        builder_answers::coefficients_answer(Limits::UNIT, self.plan, values.len(), area.len())?;
        let at = self.plan.coefficients;
        lists::put(values, at, area);
        self.plan.coefficients = at + values.len();
        Ok(Span {
            start: at as u32,
            len: values.len() as u32,
        })
    }

    // A node at zero, set to the values over the ramp: with one above 0 it fades in. With a safe of 1 no adoption touches it.
    // The parameters of the Rust's `node`, and the two areas that `mixer_node` is lent: no two of them go together in another call.
    #[tactic(auto, using(builder::proofs::Fits::node_fits), unfolding(builder::specs::Calls::node_number, builder::specs::Calls::node_floats_area, builder::specs::Calls::node_words_area))]
    pub fn node(
        &mut self,
        id: u32,
        values: &[f32],
        ramp: u32,
        safe: u32,
        floats: &mut [f32],
        words: &mut [u32],
    ) -> Result<u32, Refusal>
        ensures answer { result ≡ node_number unit_limits self.old.plan id (length values.now) ramp safe (length floats.old) words.old }
        ensures plan { self.new.plan ≡ plan_after (node_answer unit_limits self.old.plan id (length values.now) ramp safe (length floats.old) words.old) self.old.plan node_growth }
        ensures floats { floats.new ≡ node_floats_area unit_limits self.old.plan id values.now ramp safe floats.old words.old }
        ensures words { words.new ≡ node_words_area unit_limits self.old.plan id values.now ramp safe floats.old words.old }
    {
        builder_answers::node_answer(
            Limits::UNIT,
            self.plan,
            id,
            values.len(),
            ramp,
            safe,
            floats.len(),
            &words[..],
        )?;
        let n = self.plan.nodes;
        node_areas::store(Node::new(id, values, ramp, safe), floats, words, n);
        self.plan.nodes = n + 1;
        Ok(n as u32)
    }

    // The step whose record stands at the front of `record`.
    #[tactic(auto, using(builder::proofs::Fits::step_fits), unfolding(builder::specs::Calls::step_area))]
    pub fn step(&mut self, record: &[u32], steps: &mut [u32]) -> Answer
        ensures answer { result ≡ step_answer unit_limits self.old.plan «record».now (length steps.old) }
        ensures plan { self.new.plan ≡ plan_after (step_answer unit_limits self.old.plan «record».now (length steps.old)) self.old.plan (step_growth (record_length «record».now)) }
        ensures steps { steps.new ≡ step_area unit_limits self.old.plan «record».now steps.old }
    {
        builder_answers::step_answer(Limits::UNIT, self.plan, record, steps.len())?;
        let n = builder_answers::record_length(record);
        let at = self.plan.words;
        lists::put(&record[..n], at, steps);
        self.plan.steps += 1;
        self.plan.words = at + n;
        Ok(())
    }

    // Zeroes the buffers. What the steps name is left to the plan check.
    #[tactic(auto, using(builder::proofs::Fits::finish_fits), unfolding(builder::specs::Calls::finish_area))]
    pub fn finish(self, buffers: &mut [f32]) -> Answer
        ensures answer { result ≡ finish_answer unit_limits self.plan (length buffers.old) }
        ensures buffers { buffers.new ≡ finish_area unit_limits self.plan buffers.old }
    {
        builder_answers::finish_answer(Limits::UNIT, self.plan, buffers.len())?;
        builder_areas::put_zeros(self.plan.buffers * self.plan.block, buffers);
        Ok(())
    }
}
