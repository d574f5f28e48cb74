// The layout in words, from its tables.
use crate::layout::{Send, Slot, Source, Strip};
use crate::{inserts, layout, names};
use plan::Plan;
use std::fmt;
use std::fmt::{Display, Formatter, Write};

fn input(line: usize, strip: Strip) {
    let Strip(_, input, format, _, _, _, _) = strip;
    let name = names::strip(line);
    let format = names::format(format);
    let with = match line {
        layout::SINGER => ", with a panner",
        layout::BAND => ", with an insert and a width",
        layout::ANNOUNCEMENT => ", with no fade, and safe in an adoption",
        _ => "",
    };
    text::print(format_args!("{input:>6}  {name:<14}{format}{with}\n"));
}

fn inputs() {
    text::print("\nInputs\n");
    for (line, &strip) in layout::STRIP_TABLE.iter().enumerate() {
        input(line, strip);
    }
}

// The names of the lines that are sent to a slot.
#[derive(Clone, Copy)]
struct Senders(usize);

impl Display for Senders {
    fn fmt<W: Write>(&self, f: &mut Formatter<W>) -> fmt::Result {
        for &Send(_, line, to, _) in &layout::SEND_TABLE {
            if to == self.0 {
                write!(f, " {}", names::strip(line))?;
            }
        }
        Ok(())
    }
}

// What a slot with its source is made of.
#[derive(Clone, Copy)]
struct Made(usize, Source);

impl Display for Made {
    fn fmt<W: Write>(&self, f: &mut Formatter<W>) -> fmt::Result {
        match self.1 {
            Source::Sends => write!(f, "mix of{}", Senders(self.0)),
            Source::Fold(slot, _) => write!(f, "fold of {}", names::slot(slot)),
            Source::Insert => f.write_str("send of the insert on band"),
            Source::Announcement => f.write_str("announcement alone"),
        }
    }
}

fn output(number: usize, slot: Slot) {
    let Slot(format, source) = slot;
    let name = names::slot(number);
    let format = names::format(format);
    let made = Made(number, source);
    text::print(format_args!("{number:>6}  {name:<14}{format:<8}{made}\n"));
}

fn outputs() {
    text::print("\nOutputs, by slot\n");
    for (number, &slot) in layout::SLOT_TABLE.iter().enumerate() {
        output(number, slot);
    }
}

pub fn tables() {
    inputs();
    inserts::input();
    outputs();
    inserts::told();
}

pub fn counts(plan: Plan, clean: bool) {
    text::print(format_args!(
        "\nPlan: {} buffers, {} coefficients, {} nodes, {} steps of {} words; clean: {}\n",
        plan.buffers,
        plan.coefficients,
        plan.nodes,
        plan.steps,
        plan.words,
        names::yes(clean)
    ));
}

// The head of the run, and what its first block begins with.
pub fn run() {
    text::print("\nRun: 750 blocks of 256 samples, four seconds at 48,000 a second\n");
    text::print("       0  every level but the announcement's fades in over 4,800 samples\n");
}
