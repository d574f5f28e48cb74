// Calls that are refused, and what they leave. They are made before one block, and change nothing: the digests are those of a run without them.
ghost use Rattle.std.specs.Prelude.{◌≡◌};
ghost use Rattle.signals.specs.Digest.{start, of_words, of_samples};

use crate::areas::Areas;
use crate::{layout, names, runs};
use refusal::{Reason, Refusal};
use signals::digest;
use std::fmt;
use std::fmt::{Display, Formatter, Write};

// The sample that the block starts at.
const AT: usize = 96_000;

// A digest of all nodes.
fn of_nodes(floats: &[f32], words: &[u32]) -> u32
    ensures { result ≡ of_words (of_samples start floats.now) words.now }
{
    digest::of_words(digest::of_samples(digest::empty(), floats), words)
}

// A digest of all that a run may write.
fn of_areas(floats: &[f32], words: &[u32], buffers: &[f32], output: &[f32]) -> u32
    ensures { result ≡ of_samples (of_samples (of_words (of_samples start floats.now) words.now) buffers.now) output.now }
{
    digest::of_samples(digest::of_samples(of_nodes(floats, words), buffers), output)
}

// A reason that the show is refused for; document 01 has the others.
fn words(reason: Reason) -> &'static str {
    match reason {
        Reason::UnknownId => ", id unknown",
        Reason::LongRamp => ", ramp too long",
        Reason::ShortOutput => ", output area short",
        _ => "",
    }
}

// The number of a refusal and its reason, and the step where it is at one.
#[derive(Clone, Copy)]
pub struct Why(pub Refusal);

impl Display for Why {
    fn fmt<W: Write>(&self, f: &mut Formatter<W>) -> fmt::Result {
        let Refusal { reason, place } = self.0;
        let words = words(reason);
        write!(f, "refused {reason}{words}")?;
        if let Some(step) = place {
            write!(f, ", at step {step}")?;
        }
        Ok(())
    }
}

// The line of a refused call; its areas had the digest `before`, and have the digest `after`.
fn line(what: &str, r: Refusal, before: u32, after: u32) {
    text::print(format_args!(
        "{:>8}  {}: {}; its areas are as they were: {}\n",
        AT,
        what,
        Why(r),
        names::yes(before == after)
    ));
}

// Here and below the refusal is what is shown: it is not handed on.
fn setting(areas: &mut Areas, what: &str, id: u32, ramp: u32) {
    let before = of_nodes(&areas.floats, &areas.words);
    let answer = areas.set(id, &[0.5], ramp);
    let after = of_nodes(&areas.floats, &areas.words);
    if let Err(r) = answer {
        line(what, r, before, after);
    }
}

// A run whose output area is a sample short.
fn short_run(areas: &mut Areas) {
    let mut output = [0.5f32; runs::OUTPUT - 1];
    let before = of_areas(&areas.floats, &areas.words, &areas.buffers, &output);
    let answer = runs::ran(0, areas, &mut output);
    let after = of_areas(&areas.floats, &areas.words, &areas.buffers, &output);
    if let Err(r) = answer {
        let what = "a run with an output area of 5,631 samples";
        line(what, r, before, after);
    }
}

// An id that no node has, a ramp that is a sample too long, and the run, before their block, and nothing before another.
pub fn before(from: usize, areas: &mut Areas) {
    if from != AT {
        return;
    }
    setting(areas, "a setting of node 999", 999, 0);
    let what = "a ramp of 16,777,217 samples";
    setting(areas, what, layout::NARRATOR_LEVEL, 16_777_217);
    short_run(areas);
}
