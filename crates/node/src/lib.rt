// The smoothed values of one node of a mix plan, and one gain of it. A node in its lent areas is defined here too; crate `node_areas` has the code.
// All of it is for the crates above and not the interface: a function that has a `requires` says in its comment what it takes.
#![tactic(auto)]

ghost use Rattle.std.specs.Prelude.{◌≡◌, true, cond, ◌+◌, ◌<◌, ◌≤◌};
ghost use Rattle.node.specs.Sizes.{max_values, max_ramp};
ghost use Rattle.node.specs.Rows.{Values, gain_in};
ghost use Rattle.node.specs.Nodes.{with_target, at_target, start_ramp, new_node, set_node, finish_block, gain_from, gain_of, ramping, factor};

// Document 01's form: three rows by value, a length and a count.
#[derive(Clone, Copy)]
pub struct Node {
    pub id: u32,
    // How many values it has: at most MAX, but for a bad node of the lent areas.
    pub len: u32,
    pub cur: [f32; Node::MAX],
    pub target: [f32; Node::MAX],
    // What cur gains with each sample of a ramp.
    pub step: [f32; Node::MAX],
    // The samples of the ramp that are left; at 0 the node is at rest.
    pub left: u32,
    // Where it is not 0, no adoption touches the node: at most MAX_SAFE, but for a bad node of the lent areas, of which it is a word.
    pub safe: u32,
}

// One gain of a node: at rest, with its target, or ramping, with cur, step, target and left.
#[derive(Clone, Copy)]
pub enum Gain {
    Rest(f32),
    Moving(f32, f32, f32, u32),
}

// The rows of a node where they lie, and its left.
#[derive(Clone, Copy)]
pub struct Rows<'a> {
    pub cur: &'a [f32],
    pub step: &'a [f32],
    pub target: &'a [f32],
    pub left: u32,
}

// One of two values. Both are worked out before, so that LLVM makes a select of it and the sample loops stay without a branch.
fn either(first: bool, x: f32, y: f32) -> f32
    ensures { result ≡ cond first x y }
{
    if first { x } else { y }
}

impl Node {
    pub const MAX: usize = 24;

    // Of a node in the lent areas.
    pub const FLOATS: usize = 72;

    pub const WORDS: usize = 4;

    // In samples: an f32 holds every whole number up to it.
    pub const MAX_RAMP: u32 = 16_777_216;

    // The greatest word safe, which numbers no kind.
    pub const MAX_SAFE: u32 = 1;

    // A node at zero, set to `values`. Requires a ramp that is not too long.
    pub fn new(id: u32, values: &[f32], ramp: u32, safe: u32) -> Node
        requires { ramp ≤ max_ramp }
        ensures { result ≡ new_node id values.now ramp safe }
    {
        let zeros = [0.0f32; Node::MAX];
        let node = Node {
            id,
            len: values.len().min(Node::MAX) as u32,
            cur: zeros,
            target: zeros,
            step: zeros,
            left: 0,
            safe,
        };
        node.set(values, ramp)
    }

    // Ramps to `values` over `ramp` samples; at 0 it is there at once. Requires a len of at most MAX, and a ramp that is not too long.
    pub fn set(self, values: &[f32], ramp: u32) -> Node
        requires { (self.len ≤ max_values) × (ramp ≤ max_ramp) }
        ensures { result ≡ set_node self values.now ramp }
    {
        let node = self.with_target(values);
        if ramp == 0 {
            return node.at_target();
        }
        node.start_ramp(ramp)
    }

    // Requires a len of at most MAX.
    fn with_target(mut self, values: &[f32]) -> Node
        requires { self.len ≤ max_values }
        ensures { result ≡ with_target self values.now }
    {
        let n = (self.len as usize).min(values.len());
        let mut target = self.target;
        target[..n].copy_from_slice(&values[..n]);
        self.target = target;
        self
    }

    fn at_target(mut self) -> Node
        ensures { result ≡ at_target self }
    {
        let target = self.target;
        self.cur = target;
        self.left = 0;
        self
    }

    // Requires a len of at most MAX, and a ramp that is not too long.
    fn start_ramp(mut self, ramp: u32) -> Node
        requires { (self.len ≤ max_values) × (ramp ≤ max_ramp) }
        ensures { result ≡ start_ramp self ramp }
    {
        let end = self.len as usize;
        // One index over three rows of the same node, of which one is written.
        for i in 0..end {
            self.step[i] = (self.target[i] - self.cur[i]) / ramp as f32;
        }
        self.left = ramp;
        self
    }

    // The end of a step's block. Requires a len of at most MAX, and a block no longer than the longest ramp.
    pub fn finish_block(mut self, block: usize) -> Node
        requires { (self.len ≤ max_values) × (block ≤ max_ramp) }
        ensures { result ≡ finish_block self block }
    {
        if self.left == 0 {
            return self;
        }
        let n = block.min(self.left as usize) as u32;
        self.left = self.left - n;
        if self.left == 0 {
            return self.at_target();
        }
        let len = self.len as usize;
        // One index over two rows of the same node, of which one is written.
        for i in 0..len {
            self.cur[i] = self.cur[i] + self.step[i] * n as f32;
        }
        self
    }

    // Gain i, also past len, as `Gain::of` has it: left is asked first, so that of a node at rest cur and step are not read. Requires a place of the
    // rows.
    pub fn gain(self, i: usize) -> Gain
        requires { i < max_values }
        ensures { result ≡ gain_of self i }
    {
        if self.left == 0 {
            Gain::Rest(self.target[i])
        } else {
            Gain::Moving(self.cur[i], self.step[i], self.target[i], self.left)
        }
    }
}

impl<'a> Rows<'a> {
    // Gain i, as `Gain::of` has it. Requires a place of each row.
    pub fn gain(self, i: usize) -> Gain
        requires { Values (i + 1) self }
        ensures { result ≡ gain_in self.entry i }
    {
        Gain::of(self.cur[i], self.step[i], self.target[i], self.left)
    }
}

impl Gain {
    // The gain with one value of each row of a node.
    pub fn of(cur: f32, step: f32, target: f32, left: u32) -> Gain
        ensures { result ≡ gain_from cur step target left }
    {
        if left == 0 {
            return Gain::Rest(target);
        }
        Gain::Moving(cur, step, target, left)
    }

    // The samples before n are all on its ramp.
    pub fn on_ramp(self, n: usize) -> bool
        ensures { result ≡ ramping self n }
    {
        match self {
            Gain::Rest(_) => false,
            Gain::Moving(_, _, _, left) => n <= left as usize,
        }
    }

    // The gain at sample k of the coming block; `whole` says that k and what the caller asks for with it are all on the ramp, and then no sample asks
    // whether it is. A cast from i32 is fast. Requires a k below the longest ramp, so that an f32 holds k + 1, and one that is on the ramp where that is
    // said.
    pub fn factor(self, k: u32, whole: bool) -> f32
        requires { (k < max_ramp) × (whole ≡ true → ramping self (k + 1) ≡ true) }
        ensures { result ≡ factor self k }
    {
        match self {
            Gain::Rest(target) => target,
            Gain::Moving(cur, step, target, left) => {
                let i = (k + 1) as i32;
                let v = cur + step * (i as f32);
                if whole {
                    return v;
                }
                either(k < left, v, target)
            }
        }
    }
}
