// The kinds of steps that have a node: Gain, Matrix and Send.
ghost use Rattle.std.specs.Prelude.{◌≡◌, ◌*◌, ◌≤◌, ℕ, List, length, Float};
ghost use Rattle.lists.specs.Parts.{part};
ghost use Rattle.lists.specs.Entries.{Disjoint};
ghost use Rattle.node.specs.declared.Gain.{Gain as AnyGain};
ghost use Rattle.node.specs.Nodes.{gain_of};
ghost use Rattle.node.specs.Areas.{node_at, stored_floats, stored_words, ended};
ghost use Rattle.mix.specs.Mix.{gained, rows, sends};
ghost use Rattle.plan.specs.declared.Step.TheVariants as step;
ghost use Rattle.plan.specs.Sound.{Within, Narrow, Apart};
ghost use Rattle.run.specs.declared.Wires.{Wires as AnyWires};
ghost use Rattle.run.specs.Run.{RunGiven};
ghost use Rattle.run.specs.Lent.{given_by};
ghost use Rattle.run_kinds.specs.Loops.{NodeFit, sources_in, targets_in};

use plan::Span;
use run::{Given, Wires};

pub trait Kind: Copy {
    // What the tests said of a step of this kind, besides `NodeFit`.
    ghost tested: { Self → RunGiven → AnyWires → Type 0 };

    // The buffers after it, by the gains of its node.
    ghost mixed: { Self → RunGiven → AnyWires → (ℕ → AnyGain) → List Float → List Float };

    // Requires what the tests said of the step.
    fn mix(
        self,
        given: &Given<'_>,
        wires: Wires,
        floats: &[f32],
        words: &[u32],
        buffers: &mut [f32],
    )
        requires node_fit { NodeFit (given_by given.now) floats.now words.now buffers.old wires }
        requires tested { tested self (given_by given.now) wires }
        ensures { buffers.new ≡ mixed self (given_by given.now) wires (gain_of (node_at floats.now words.now wires.node)) buffers.old };
}

#[derive(Clone, Copy)]
pub struct Gain;

// `mix` is not inlined, here and below, so that a run has the rows of one kind of step on the stack at a time. The three differ in the loops that they
// call, each of which requires something else.
impl Kind for Gain {
    ghost tested = { λ it g w. Narrow (step.Gain w.node w.src w.dst) × Apart g.indices (step.Gain w.node w.src w.dst) };

    ghost mixed = { λ it g w gain. gained g.plan.block gain 0 (sources_in g w) (targets_in g w) };

    #[inline(never)]
    fn mix(
        self,
        given: &Given<'_>,
        wires: Wires,
        floats: &[f32],
        words: &[u32],
        buffers: &mut [f32],
    ) {
        let rows = node_areas::rows_of(floats, words, wires.node as usize);
        let from = plan_steps::numbers(given.indices, wires.src);
        let to = plan_steps::numbers(given.indices, wires.dst);
        mix_buffers::gain(buffers, given.plan.block, from, to, rows);
    }
}

#[derive(Clone, Copy)]
pub struct Matrix;

impl Kind for Matrix {
    ghost tested = { λ it g w. Narrow (step.Matrix w.node w.src w.dst) × Apart g.indices (step.Matrix w.node w.src w.dst) };

    ghost mixed = { λ it g w gain. rows g.plan.block gain 0 (sources_in g w) (targets_in g w) };

    #[inline(never)]
    fn mix(
        self,
        given: &Given<'_>,
        wires: Wires,
        floats: &[f32],
        words: &[u32],
        buffers: &mut [f32],
    ) {
        let rows = node_areas::rows_of(floats, words, wires.node as usize);
        let from = plan_steps::numbers(given.indices, wires.src);
        let to = plan_steps::numbers(given.indices, wires.dst);
        mix_matrix::matrix(buffers, given.plan.block, from, to, rows);
    }
}

// With the span of its weights.
#[derive(Clone, Copy)]
pub struct Send(pub Span);

impl Kind for Send {
    ghost tested = { λ it g w. Disjoint (sources_in g w) (targets_in g w) × Within (length g.coefficients) it.0 × (w.src.len * w.dst.len ≤ it.0.len) };

    ghost mixed = { λ it g w gain. sends g.plan.block (gain 0) (part it.0.start it.0.len g.coefficients) 0 (sources_in g w) (targets_in g w) };

    #[inline(never)]
    fn mix(
        self,
        given: &Given<'_>,
        wires: Wires,
        floats: &[f32],
        words: &[u32],
        buffers: &mut [f32],
    ) {
        let w = plan_steps::numbers(given.coefficients, self.0);
        let g = node_areas::load(floats, words, wires.node as usize).gain(0);
        let from = plan_steps::numbers(given.indices, wires.src);
        let to = plan_steps::numbers(given.indices, wires.dst);
        mix_send::send(buffers, given.plan.block, from, to, w, g);
    }
}

// A step that has a node, and the end of its node's block. Requires what the tests said of it.
pub fn run_node<K: Kind>(
    kind: K,
    given: &Given<'_>,
    wires: Wires,
    floats: &mut [f32],
    words: &mut [u32],
    buffers: &mut [f32],
)
    requires node_fit { NodeFit (given_by given.now) floats.old words.old buffers.old wires }
    requires tested { K.tested kind (given_by given.now) wires }
    ensures floats { floats.new ≡ stored_floats floats.old wires.node (ended given.now.plan.block floats.old words.old wires.node) }
    ensures words { words.new ≡ stored_words words.old wires.node (ended given.now.plan.block floats.old words.old wires.node) }
    ensures buffers { buffers.new ≡ K.mixed kind (given_by given.now) wires (gain_of (node_at floats.old words.old wires.node)) buffers.old }
{
    kind.mix(given, wires, &floats[..], &words[..], buffers);
    let n = wires.node as usize;
    node_areas::end_block(floats, words, n, given.plan.block);
}
