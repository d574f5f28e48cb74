// A plan laid out call by call, in areas with room for each plan of the table.
use builder_calls::PlanBuilder;
use node::Node;
use refusal::{Answer, Refusal};
use run::Given;

// The id of a plan's only node, a number that its writer chooses.
const ID: u32 = 7;

// Patch 3 to buffer 0, Clear 1, Send 0 to 1, Output 1 to slot 2.
pub const SEND: [&[u32]; 4] = [
    &[7, 3, 0, 0],
    &[192, 1, 1],
    &[1016, 0, 0, 1, 1, 1, 0, 1],
    &[1072, 1, 1, 2],
];

// The builder of a plan, and the areas that it is lent.
#[derive(Drop)]
pub struct Layout {
    builder: PlanBuilder,
    indices: [u32; 4],
    coefficients: [f32; 1],
    node_floats: [f32; Node::FLOATS],
    node_words: [u32; Node::WORDS],
    steps: [u32; 19],
    buffers: [f32; 6],
}

impl Layout {
    // An empty plan with so many buffers and the weights as coefficients.
    // The count is of buffers, and not the length of the slice beside it.
    pub fn begun(block: usize, buffers: usize, weights: &[f32]) -> Result<Layout, Refusal> {
        let mut layout = Layout {
            builder: PlanBuilder::new(block)?,
            indices: [0; 4],
            coefficients: [0.0; 1],
            node_floats: [0.0; Node::FLOATS],
            node_words: [0; Node::WORDS],
            steps: [0; 19],
            buffers: [0.0; 6],
        };
        layout.builder.buffers(buffers, &mut layout.indices)?;
        layout
            .builder
            .coefficients(weights, &mut layout.coefficients)?;
        Ok(layout)
    }

    // A node that ramps to the values.
    pub fn node(&mut self, values: &[f32], ramp: u32) -> Answer {
        self.builder.node(
            ID,
            values,
            ramp,
            0,
            &mut self.node_floats,
            &mut self.node_words,
        )?;
        Ok(())
    }

    // The plan with the steps of the records, ready to run.
    pub fn finish(&mut self, records: &[&[u32]]) -> Answer {
        for record in records {
            self.builder.step(record, &mut self.steps)?;
        }
        self.builder.finish(&mut self.buffers)
    }

    // The node set to the values at once.
    pub fn set(&mut self, values: &[f32]) -> Answer {
        setting::set_param(
            self.builder.plan.nodes,
            ID,
            values,
            0,
            &mut self.node_floats,
            &mut self.node_words,
        )
    }

    // What one run leaves in an output area of N samples that are -1 before.
    pub fn process<const N: usize>(
        &mut self,
        directory: &[u32],
        samples: &[f32],
    ) -> Result<[f32; N], Refusal> {
        let mut output = [-1.0f32; N];
        let given = Given {
            plan: self.builder.plan,
            indices: &self.indices,
            coefficients: &self.coefficients,
            steps: &self.steps,
            directory,
            samples,
        };
        run_process::process(
            &given,
            &mut self.node_floats,
            &mut self.node_words,
            &mut self.buffers,
            &mut output,
        )?;
        Ok(output)
    }

    // Whether the node is at rest.
    pub fn rests(&self) -> bool {
        node_areas::left_of(&self.node_words, 0) == 0
    }

    // How many inputs a slot lists, into a list.
    pub fn sources(&self, slot: u32, list: &mut [u16]) -> Result<u32, Refusal> {
        trace_calls::output_sources(
            self.builder.plan,
            slot,
            &self.indices,
            &self.node_words,
            &self.steps,
            list,
        )
    }
}
