// The steps as the step words hold them: a map, then a word for each of its bits that has a field.
// All of it is for the crates above and not the interface: a function that has a `requires` says in its comment what it takes.
#![tactic(auto)]

ghost use Rattle.std.specs.Prelude.{◌≡◌, ◌+◌, ◌<◌, ◌≤◌, leb, length};
ghost use Rattle.plan.specs.Words.{span, max_fields, fields, read_at};
ghost use Rattle.plan.specs.Records.{word, patch_at, gain_at, matrix_at, clear_at, send_at, output_at};

use plan::{Span, Step};

// The span whose two words stand from `at` on. Requires that both are there.
fn span_at(words: &[u32], at: usize) -> Span
    requires { at + 1 < length words.now }
    ensures { result ≡ span (word words.now at) (word words.now (at + 1)) }
{
    Span {
        start: words[at],
        len: words[at + 1],
    }
}

// The step of each kind whose map stands at `at`. Each requires that its fields are all there.
fn patch_at(words: &[u32], at: usize) -> Step
    requires { at + 3 < length words.now }
    ensures { result ≡ patch_at words.now at }
{
    Step::Patch {
        input: words[at + 1],
        channel: words[at + 2],
        dst: words[at + 3],
    }
}

// One text for Gain and Matrix: a variant with named fields is no function that could be handed in.
fn gain_at(words: &[u32], at: usize) -> Step
    requires { at + 5 < length words.now }
    ensures { result ≡ gain_at words.now at }
{
    Step::Gain {
        node: words[at + 1],
        src: span_at(words, at + 2),
        dst: span_at(words, at + 4),
    }
}

fn matrix_at(words: &[u32], at: usize) -> Step
    requires { at + 5 < length words.now }
    ensures { result ≡ matrix_at words.now at }
{
    Step::Matrix {
        node: words[at + 1],
        src: span_at(words, at + 2),
        dst: span_at(words, at + 4),
    }
}

fn clear_at(words: &[u32], at: usize) -> Step
    requires { at + 2 < length words.now }
    ensures { result ≡ clear_at words.now at }
{
    Step::Clear {
        dst: span_at(words, at + 1),
    }
}

fn send_at(words: &[u32], at: usize) -> Step
    requires { at + 7 < length words.now }
    ensures { result ≡ send_at words.now at }
{
    Step::Send {
        node: words[at + 1],
        src: span_at(words, at + 2),
        dst: span_at(words, at + 4),
        coefficients: span_at(words, at + 6),
    }
}

fn output_at(words: &[u32], at: usize) -> Step
    requires { at + 3 < length words.now }
    ensures { result ≡ output_at words.now at }
{
    Step::Output {
        src: span_at(words, at + 1),
        slot: words[at + 3],
    }
}

// Bit 11, which has no field: the bits below it, 0 to 10, have one. It is a bit of a map, and numbers no kind.
const NO_FIELD: u32 = 2048;

const MAX_FIELDS: usize = 11;

#[tactic(auto, using(plan::proofs::Words::fields_few))]
pub fn field_count(map: u32) -> usize
    ensures { (result ≡ fields map) × (result ≤ max_fields) }
{
    u32::count_ones(map % NO_FIELD) as usize
}

// A record with this map is longer than the words that are left.
#[tactic(auto, using(plan::proofs::Words::fields_few))]
fn cut_off(map: u32, left: usize) -> bool
    ensures { result ≡ leb left (fields map) }
{
    // No map has more fields than 11, so that they are counted near the end of the words alone.
    if left > MAX_FIELDS {
        return false;
    }
    field_count(map) >= left
}

// What stands at a place of the step words.
// One match: a table of functions would lose the constants of its arms.
#[tactic(auto, using(plan::proofs::Words::reads))]
pub fn read_step(words: &[u32], at: usize) -> Option<(Step, usize)>
    ensures { result ≡ read_at words.now at }
{
    let map = *words.get(at)?;
    if cut_off(map, words.len() - at) {
        return None;
    }
    // The place after the record is worked out from the arm's own map: it is then a constant, and the next read does not wait for the
    // count of this one.
    match map {
        Step::PATCH_MAP => { Some((patch_at(words, at), at + (1 + field_count(Step::PATCH_MAP)))) }
        Step::GAIN_MAP => Some((gain_at(words, at), at + (1 + field_count(Step::GAIN_MAP)))),
        Step::MATRIX_MAP => {
            Some((
                matrix_at(words, at),
                at + (1 + field_count(Step::MATRIX_MAP)),
            ))
        }
        Step::CLEAR_MAP => { Some((clear_at(words, at), at + (1 + field_count(Step::CLEAR_MAP)))) }
        Step::SEND_MAP => Some((send_at(words, at), at + (1 + field_count(Step::SEND_MAP)))),
        Step::OUTPUT_MAP => {
            Some((
                output_at(words, at),
                at + (1 + field_count(Step::OUTPUT_MAP)),
            ))
        }
        _ => None,
    }
}
