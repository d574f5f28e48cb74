// The plan of the layout with its areas, each with room for more than the layout needs.
use crate::layout;
use builder_calls::PlanBuilder;
use node::Node;
use plan::Plan;
use refusal::{Answer, Refusal};
use run::Given;

#[derive(Drop)]
pub struct Areas {
    pub plan: Plan,
    pub indices: [u32; layout::INDICES],
    pub coefficients: [f32; layout::COEFFICIENTS],
    pub floats: [f32; layout::NODES * Node::FLOATS],
    pub words: [u32; layout::NODES * Node::WORDS],
    pub steps: [u32; layout::STEPS],
    pub buffers: [f32; layout::SAMPLES],
}

impl Areas {
    // Areas of zeros, with an empty plan.
    pub fn new() -> Areas {
        Areas {
            plan: PlanBuilder::empty(signals::BLOCK).plan,
            indices: [0; layout::INDICES],
            coefficients: [0.0; layout::COEFFICIENTS],
            floats: [0.0; layout::NODES * Node::FLOATS],
            words: [0; layout::NODES * Node::WORDS],
            steps: [0; layout::STEPS],
            buffers: [0.0; layout::SAMPLES],
        }
    }

    // A setting. It takes no more of the values than its node has.
    pub fn set(&mut self, id: u32, values: &[f32], ramp: u32) -> Answer {
        setting::set_param(
            self.plan.nodes,
            id,
            values,
            ramp,
            &mut self.floats,
            &mut self.words,
        )
    }

    pub fn process(
        &mut self,
        directory: &[u32],
        samples: &[f32],
        output: &mut [f32],
    ) -> Result<usize, Refusal> {
        let given = Given {
            plan: self.plan,
            indices: &self.indices,
            coefficients: &self.coefficients,
            steps: &self.steps,
            directory,
            samples,
        };
        run_process::process(
            &given,
            &mut self.floats,
            &mut self.words,
            &mut self.buffers,
            output,
        )
    }

    // The inputs behind a slot, as the front of a list.
    pub fn sources<'a>(&self, slot: u32, list: &'a mut [u16]) -> Result<&'a [u16], Refusal> {
        let n = trace_calls::output_sources(
            self.plan,
            slot,
            &self.indices,
            &self.words,
            &self.steps,
            list,
        )?;
        Ok(&list[..list.len().min(n as usize)])
    }

    pub fn clean(&self) -> Result<bool, Refusal> {
        trace_calls::clean_answer(self.plan, &self.indices, &self.words, &self.steps)
    }
}
