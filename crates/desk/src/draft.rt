// A plan while it is laid out, in lent areas, and the lines that are laid out of it. Once a call is refused no other is made, and the draft says why.
ghost use Rattle.std.specs.Prelude.{◌≡◌, length, replicate};
ghost use Rattle.plan.specs.Limits.{unit_limits};
ghost use Rattle.plan.specs.Words.{span};
ghost use Rattle.builder.specs.Built.{buffers, coefficients, node, step, after};
ghost use Rattle.builder.specs.Calls.{buffers_span, coefficients_span, node_number, step_answer, finish_answer, finish_area};
ghost use Rattle.builder_calls.specs.Lent.{state_of, SameAreas};
ghost use Rattle.builder_calls.specs.New.{empty_builder};
ghost use Rattle.insert.specs.Insert.{insert_span, inserted};
ghost use Rattle.desk.specs.Draft.{max_lines, begun, refused, made, asked, answered, line_of, with_line};

use builder_calls::PlanBuilder;
use builder_calls::areas::PlanAreas;
use insert::InsertPoint;
use plan::Span;
use refusal::{Answer, Refusal};

// The lines that a draft has room for. A line is where a strip or a bus ends.
pub const LINES: usize = 16;

// The ramp, in samples, of a node that fades in from 0.
pub const FADE: u32 = 4_800;

// The buffers of each line that is laid out.
#[derive(Clone, Copy)]
pub struct Lines {
    pub spans: [Span; LINES],
}

impl Lines {
    pub fn new() -> Lines
        ensures { result.spans ≡ replicate max_lines (span 0 0) }
    {
        let none = Span { start: 0, len: 0 };
        Lines {
            spans: [none; LINES],
        }
    }

    // The buffers of a line, where there is such a line.
    pub fn set(&mut self, line: usize, span: Span)
        ensures { self.new.spans ≡ with_line self.old.spans line span }
    {
        if line < LINES {
            self.spans[line] = span;
        }
    }

    // The buffers of a line, and none of a line that there is not.
    pub fn get(self, line: usize) -> Span
        ensures { result ≡ line_of self.spans line }
    {
        if line < LINES {
            return self.spans[line];
        }
        Span { start: 0, len: 0 }
    }
}

// What has come of the calls: the first refusal, where there was one, and the lines.
#[derive(Clone, Copy)]
pub struct Draft {
    pub answer: Answer,
    pub lines: Lines,
}

impl Draft {
    // The draft of a plan for blocks of `block` samples, beside the builder of the plan. It is refused where there can be no such plan.
    pub fn new(block: usize) -> (PlanBuilder, Draft)
        ensures builder { result.0 ≡ empty_builder block }
        ensures draft { result.1 ≡ begun block }
    {
        let lines = Lines::new();
        match PlanBuilder::new(block) {
            Ok(builder) => {
                let answer = Ok(());
                (builder, Draft { answer, lines })
            }
            Err(refused) => {
                let answer = Err(refused.refusal);
                (refused.builder, Draft { answer, lines })
            }
        }
    }

    pub fn refused(self) -> bool
        ensures { result ≡ refused self }
    {
        self.answer.is_err()
    }

    // The answer of a call that was made; a refusal stays.
    fn keep<T: Copy>(&mut self, made: Result<T, Refusal>) -> Result<T, Refusal>
        ensures answer { result ≡ made }
        ensures draft { self.new ≡ answered self.old made }
    {
        self.answer = match made {
            Ok(_) => Ok(()),
            Err(refusal) => Err(refusal),
        };
        made
    }
}

// A draft, and its plan in the areas that the calls are lent.
#[derive(Drop)]
pub struct DraftAreas<'a> {
    pub areas: PlanAreas<'a>,
    pub so_far: Draft,
}

impl DraftAreas<'_> {
    // Each is the call of that name, made where none was refused before. After a refusal it answers that refusal, and leaves all as it was.

    pub fn buffers(&mut self, n: usize) -> Result<Span, Refusal>
        ensures answer { result ≡ asked self.old.so_far (buffers_span unit_limits self.old.areas.builder.plan n (length self.old.areas.indices.now)) }
        ensures state { state_of self.new.areas ≡ made self.old.so_far (after unit_limits (state_of self.old.areas) (buffers n)) (state_of self.old.areas) }
        ensures areas { SameAreas self.old.areas self.new.areas }
        ensures draft { self.new.so_far ≡ answered self.old.so_far result }
    {
        self.so_far.answer?;
        let answer = self.areas.buffers(n);
        self.so_far.keep(answer)
    }

    pub fn coefficients(&mut self, values: &[f32]) -> Result<Span, Refusal>
        ensures answer { result ≡ asked self.old.so_far (coefficients_span unit_limits self.old.areas.builder.plan (length values.now) (length self.old.areas.coefficients.now)) }
        ensures state { state_of self.new.areas ≡ made self.old.so_far (after unit_limits (state_of self.old.areas) (coefficients values.now)) (state_of self.old.areas) }
        ensures areas { SameAreas self.old.areas self.new.areas }
        ensures draft { self.new.so_far ≡ answered self.old.so_far result }
    {
        self.so_far.answer?;
        let answer = self.areas.coefficients(values);
        self.so_far.keep(answer)
    }

    // A node that ramps to the values, at 0 at once, and is safe from adoptions or not.
    pub fn node(&mut self, id: u32, values: &[f32], ramp: u32, safe: u32) -> Result<u32, Refusal>
        ensures answer { result ≡ asked self.old.so_far (node_number unit_limits self.old.areas.builder.plan id (length values.now) ramp safe (length self.old.areas.floats.now) self.old.areas.words.now) }
        ensures state { state_of self.new.areas ≡ made self.old.so_far (after unit_limits (state_of self.old.areas) (node id values.now ramp safe)) (state_of self.old.areas) }
        ensures areas { SameAreas self.old.areas self.new.areas }
        ensures draft { self.new.so_far ≡ answered self.old.so_far result }
    {
        self.so_far.answer?;
        let answer = self.areas.node(id, values, ramp, safe);
        self.so_far.keep(answer)
    }

    // The step of a record: its map, and then its fields.
    pub fn step(&mut self, record: &[u32]) -> Answer
        ensures answer { result ≡ asked self.old.so_far (step_answer unit_limits self.old.areas.builder.plan «record».now (length self.old.areas.steps.now)) }
        ensures state { state_of self.new.areas ≡ made self.old.so_far (after unit_limits (state_of self.old.areas) (step «record».now)) (state_of self.old.areas) }
        ensures areas { SameAreas self.old.areas self.new.areas }
        ensures draft { self.new.so_far ≡ answered self.old.so_far result }
    {
        self.so_far.answer?;
        let answer = self.areas.step(record);
        self.so_far.keep(answer)
    }

    // An insert, with the ramp that it names: the span is what the strip goes on with.
    pub fn insert(&mut self, insert: InsertPoint) -> Result<Span, Refusal>
        ensures answer { result ≡ asked self.old.so_far (insert_span unit_limits (state_of self.old.areas) insert) }
        ensures state { state_of self.new.areas ≡ made self.old.so_far (inserted unit_limits (state_of self.old.areas) insert) (state_of self.old.areas) }
        ensures areas { SameAreas self.old.areas self.new.areas }
        ensures draft { self.new.so_far ≡ answered self.old.so_far result }
    {
        self.so_far.answer?; // so that no insert is made
        let answer = insert_calls::insert(&mut self.areas, insert);
        self.so_far.keep(answer)
    }

    // The buffers are zeroed, and the plan is ready to run.
    pub fn finish(&mut self, buffers: &mut [f32]) -> Answer
        ensures answer { result ≡ asked self.old.so_far (finish_answer unit_limits self.old.areas.builder.plan (length buffers.old)) }
        ensures buffers { buffers.new ≡ made self.old.so_far (finish_area unit_limits self.old.areas.builder.plan buffers.old) buffers.old }
        ensures areas { self.new.areas ≡ self.old.areas }
        ensures draft { self.new.so_far ≡ answered self.old.so_far result }
    {
        self.so_far.answer?; // so that no buffer is zeroed
        let answer = self.areas.builder.finish(buffers);
        self.so_far.keep(answer)
    }

    // The reply of a call that is no call of a draft: the draft is refused by it as by its own.
    pub fn asked<T: Copy>(&mut self, reply: Result<T, Refusal>) -> Result<T, Refusal>
        ensures answer { result ≡ asked self.old.so_far reply }
        ensures areas { self.new.areas ≡ self.old.areas }
        ensures draft { self.new.so_far ≡ answered self.old.so_far result }
    {
        self.so_far.answer?;
        self.so_far.keep(reply)
    }
}
