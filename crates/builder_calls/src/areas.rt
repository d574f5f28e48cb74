// The builder calls on a plan whose five areas are lent together.
ghost use Rattle.std.specs.Prelude.{◌≡◌, length};
ghost use Rattle.plan.specs.Limits.{unit_limits};
ghost use Rattle.builder.specs.Built.{buffers, coefficients, node, step, after};
ghost use Rattle.builder.specs.Sums.{lengths};
ghost use Rattle.builder.specs.Calls.{buffers_span, coefficients_span, node_number, step_answer};
ghost use Rattle.builder_calls.specs.Lent.{state_of, SameAreas};

use crate::PlanBuilder;
use builder::Lengths;
use plan::Span;
use refusal::{Answer, Refusal};

// A builder, and the areas that its calls are lent. A caller knows what a lent area holds while the field is the same reference: hence each call ensures SameAreas.
#[derive(Drop)]
pub struct PlanAreas<'a> {
    pub builder: PlanBuilder,
    pub indices: &'a mut [u32],
    pub coefficients: &'a mut [f32],
    pub floats: &'a mut [f32],
    pub words: &'a mut [u32],
    pub steps: &'a mut [u32],
}

impl PlanAreas<'_> {
    pub fn lengths(&self) -> Lengths
        ensures { result ≡ lengths (state_of self.now) }
    {
        Lengths {
            indices: self.indices.len(),
            coefficients: self.coefficients.len(),
            node_floats: self.floats.len(),
            node_words: self.words.len(),
            step_words: self.steps.len(),
        }
    }

    pub fn buffers(&mut self, n: usize) -> Result<Span, Refusal>
        ensures answer { result ≡ buffers_span unit_limits self.old.builder.plan n (length self.old.indices.now) }
        ensures state { state_of self.new ≡ after unit_limits (state_of self.old) (buffers n) }
        ensures areas { SameAreas self.old self.new }
    {
        self.builder.buffers(n, self.indices)
    }

    pub fn coefficients(&mut self, values: &[f32]) -> Result<Span, Refusal>
        ensures answer { result ≡ coefficients_span unit_limits self.old.builder.plan (length values.now) (length self.old.coefficients.now) }
        ensures state { state_of self.new ≡ after unit_limits (state_of self.old) (coefficients values.now) }
        ensures areas { SameAreas self.old self.new }
    {
        self.builder.coefficients(values, self.coefficients)
    }

    pub fn node(&mut self, id: u32, values: &[f32], ramp: u32, safe: u32) -> Result<u32, Refusal>
        ensures answer { result ≡ node_number unit_limits self.old.builder.plan id (length values.now) ramp safe (length self.old.floats.now) self.old.words.now }
        ensures state { state_of self.new ≡ after unit_limits (state_of self.old) (node id values.now ramp safe) }
        ensures areas { SameAreas self.old self.new }
    {
        self.builder
            .node(id, values, ramp, safe, self.floats, self.words)
    }

    pub fn step(&mut self, record: &[u32]) -> Answer
        ensures answer { result ≡ step_answer unit_limits self.old.builder.plan «record».now (length self.old.steps.now) }
        ensures state { state_of self.new ≡ after unit_limits (state_of self.old) (step «record».now) }
        ensures areas { SameAreas self.old self.new }
    {
        self.builder.step(record, self.steps)
    }
}
