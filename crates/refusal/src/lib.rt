// Why a call changed nothing: document 01's reason, and the step of the plan.
// Every call that can be refused answers with these. `specs/Tests.antt` says which of several reasons answers.
#![tactic(auto)]

ghost use Rattle.std.specs.Prelude.{◌≡◌, Some, None};
ghost use Rattle.std.specs.Fmt.{decimal};
ghost use Rattle.refusal.specs.Numbers.{number};
ghost use Rattle.refusal.specs.Tests.{refusal};

use std::fmt;
use std::fmt::Display;

// The reasons of document 01's section "Who can be refused, and why", and of the requests, in their words: `specs/Numbers.antt` has them.
#[derive(Clone, Copy, Debug, PartialEq, Eq)]
pub enum Reason {
    // To the layout writer.
    BlockLength = 1,
    ShortArea = 2,
    UnreadableStep = 3,
    OutsideTable = 4,
    OverLimit = 5,
    SharedBuffer = 6,
    TooManyValues = 7,
    IdTaken = 8,
    // To the operator.
    UnknownId = 9,
    LongRamp = 10,
    OddList = 11,
    // To the feeder.
    BadDirectory = 12,
    ShortOutput = 13,
    // To the keeper of the areas.
    BadNode = 14,
    // To the reader of lists and folds.
    NoSlot = 15,
    NoFormat = 16,
    OutOfRange = 17,
    // To the layout writer, of an insert.
    BadReturn = 18,
    // To the reader of folds, of a table.
    NoEntry = 19,
    PairTwice = 20,
    PairNotCovered = 21,
}

#[derive(Clone, Copy, Debug, PartialEq, Eq)]
pub struct Refusal {
    pub reason: Reason,
    // The step, from 1, that the plan check was at; none in every other refusal.
    pub place: Option<u32>,
}

// The answer of a call that hands nothing back.
pub type Answer = Result<(), Refusal>;

impl Reason {
    // Document 01's number of the reason.
    pub fn number(self) -> u32
        ensures { result ≡ number self }
    {
        self as u32
    }
}

// The number.
impl Display for Reason {
    ghost output = { λ reason. Some (decimal (number reason)) };

    fn fmt<W: fmt::Write>(&self, f: &mut fmt::Formatter<W>) -> fmt::Result {
        self.number().fmt(f)
    }
}

impl Refusal {
    // A refusal by the plan check at a step, counted from 1.
    pub fn at(reason: Reason, place: u32) -> Refusal
        ensures { result ≡ refusal reason (Some place) }
    {
        Refusal {
            reason,
            place: Some(place),
        }
    }
}

// A refusal of a call that is at no step.
impl From<Reason> for Refusal {
    ghost from_gives = { λ reason made. made ≡ refusal reason None };

    fn from(reason: Reason) -> Refusal {
        Refusal {
            reason,
            place: None,
        }
    }
}
