// Cases 8 and 11: the lists behind the slots of a plan, and what the plan check takes.
use crate::answers::Answered;
use crate::plans;
use crate::plans::Layout;
use builder_calls::PlanBuilder;
use node::Node;
use plan::Plan;
use plan_areas::Areas;
use refusal::Refusal;
use std::fmt;
use std::fmt::{Display, Formatter, Write};
use text::Joined;

// The inputs behind a slot of a plan.
#[derive(Drop)]
struct Listed<'a>(&'a Layout, u32);

impl<'a> Display for Listed<'a> {
    fn fmt<W: Write>(&self, f: &mut Formatter<W>) -> fmt::Result {
        let mut inputs = [0u16; 4];
        match self.0.sources(self.1, &mut inputs) {
            Ok(0) => f.write_str("empty"),
            Ok(n) => write!(
                f,
                "[{}]",
                Joined {
                    list: &inputs[..inputs.len().min(n as usize)],
                    between: ", "
                }
            ),
            Err(r) => write!(f, "refused {}", r.reason),
        }
    }
}

// A plan of which case 8 lists slots 0, 1 and 2, and asks for slot 3.
#[derive(Drop)]
pub struct Lists(Layout);

impl Display for Lists {
    fn fmt<W: Write>(&self, f: &mut Formatter<W>) -> fmt::Result {
        let plan = &self.0;
        write!(
            f,
            "{}, {}, {}; slot 3 is {}",
            Listed(plan, 0),
            Listed(plan, 1),
            Listed(plan, 2),
            Listed(plan, 3)
        )
    }
}

// Case 8.
pub fn traced() -> Result<Lists, Refusal> {
    let mut layout = Layout::begun(1, 2, &[0.0])?;
    layout.node(&[0.0], 0)?;
    layout.finish(&plans::SEND)?;
    Ok(Lists(layout))
}

fn taken<T: Drop>(answer: Result<T, Refusal>) -> Answered<&'static str> {
    Answered(answer.map(|_| "taken"))
}

// Case 11: a block.
pub fn block(n: usize) -> Answered<&'static str> {
    taken(PlanBuilder::new(n).map_err(|block| block.refusal))
}

// Case 11: the plan check of one step, with 14 buffers and a node of 24 values, in areas that no builder laid out.
pub fn step(words: &[u32]) -> Answered<&'static str> {
    let mut node_floats = [0.0f32; Node::FLOATS];
    let mut node_words = [0u32; Node::WORDS];
    let node = Node::new(7, &[0.0; Node::MAX], 0, 0);
    node_areas::store(node, &mut node_floats, &mut node_words, 0);
    let plan = Plan {
        block: 1,
        buffers: 14,
        indices: 14,
        coefficients: 0,
        nodes: 1,
        steps: 1,
        words: words.len(),
    };
    let areas = Areas {
        indices: &[0, 1, 2, 3, 4, 5, 6, 7, 8, 9, 10, 11, 12, 13],
        coefficients: &[],
        node_floats: &node_floats,
        node_words: &node_words,
        steps: words,
        buffers: &[0.0; 14],
    };
    taken(plan_check::check_plan(plan, &areas))
}
