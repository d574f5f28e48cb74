// The kinds of records, by the numbers that they have in the file.
use std::fmt;

#[derive(Clone, Copy, Debug, PartialEq, Eq)]
pub enum Kind {
    New = 1,
    Buffers = 2,
    First = 3,
    Buffer = 4,
    Coefficients = 5,
    Node = 6,
    Step = 7,
    Insert = 8,
    Finish = 9,
    CheckPlan = 10,
    SetParam = 11,
    Process = 12,
    Lookup = 13,
    DirectoryBad = 14,
    OutputSources = 15,
    AllSources = 16,
    CleanAnswer = 17,
    Adopt = 18,
    Labels = 19,
    BalanceGains = 20,
    BalanceOf = 21,
    StereoMatrix = 22,
    WidthMatrix = 23,
    WidthMatrixWith = 24,
    ToF32 = 25,
}

// What a number that no kind has is answered with.
#[derive(Clone, Copy, Debug, PartialEq, Eq)]
pub struct NoKind;

impl Kind {
    pub const ALL: [Kind; 25] = [
        Kind::New,
        Kind::Buffers,
        Kind::First,
        Kind::Buffer,
        Kind::Coefficients,
        Kind::Node,
        Kind::Step,
        Kind::Insert,
        Kind::Finish,
        Kind::CheckPlan,
        Kind::SetParam,
        Kind::Process,
        Kind::Lookup,
        Kind::DirectoryBad,
        Kind::OutputSources,
        Kind::AllSources,
        Kind::CleanAnswer,
        Kind::Adopt,
        Kind::Labels,
        Kind::BalanceGains,
        Kind::BalanceOf,
        Kind::StereoMatrix,
        Kind::WidthMatrix,
        Kind::WidthMatrixWith,
        Kind::ToF32,
    ];

    // How many areas and how many numbers a record of the kind has.
    // A constant for each case: a table by the number would have to be held to the enum.
    pub fn shape(self) -> (u32, u32) {
        match self {
            Kind::New => (1, 2),
            Kind::Buffers => (4, 4),
            Kind::First => (0, 5),
            Kind::Buffer => (2, 5),
            Kind::Coefficients => (5, 2),
            Kind::Node => (7, 4),
            Kind::Step => (5, 0),
            Kind::Insert => (12, 19),
            Kind::Finish => (4, 0),
            Kind::CheckPlan => (7, 0),
            Kind::SetParam => (5, 4),
            Kind::Process => (14, 2),
            Kind::Lookup => (3, 2),
            Kind::DirectoryBad => (1, 3),
            Kind::OutputSources => (6, 2),
            Kind::AllSources => (8, 1),
            Kind::CleanAnswer => (4, 1),
            Kind::Adopt => (7, 5),
            Kind::Labels => (0, 6),
            Kind::BalanceGains => (0, 6),
            Kind::BalanceOf => (2, 3),
            Kind::StereoMatrix => (0, 12),
            Kind::WidthMatrix => (2, 15),
            Kind::WidthMatrixWith => (4, 15),
            Kind::ToF32 => (0, 3),
        }
    }
}

impl TryFrom<u32> for Kind {
    type Error = NoKind;

    fn try_from(number: u32) -> Result<Kind, NoKind> {
        let found = Kind::ALL.iter().find(|kind| **kind as u32 == number);
        found.copied().ok_or(NoKind)
    }
}

// The name of the call.
impl fmt::Display for Kind {
    fn fmt<W: fmt::Write>(&self, f: &mut fmt::Formatter<W>) -> fmt::Result {
        f.write_str(match self {
            Kind::New => "new",
            Kind::Buffers => "buffers",
            Kind::First => "first",
            Kind::Buffer => "buffer",
            Kind::Coefficients => "coefficients",
            Kind::Node => "node",
            Kind::Step => "step",
            Kind::Insert => "insert",
            Kind::Finish => "finish",
            Kind::CheckPlan => "check_plan",
            Kind::SetParam => "set_param",
            Kind::Process => "process",
            Kind::Lookup => "lookup",
            Kind::DirectoryBad => "directory_bad",
            Kind::OutputSources => "output_sources",
            Kind::AllSources => "all_sources",
            Kind::CleanAnswer => "clean_answer",
            Kind::Adopt => "adopt",
            Kind::Labels => "Format",
            Kind::BalanceGains => "balance_gains",
            Kind::BalanceOf => "balance_of",
            Kind::StereoMatrix => "stereo_matrix",
            Kind::WidthMatrix => "width_matrix",
            Kind::WidthMatrixWith => "width_matrix_with",
            Kind::ToF32 => "to_f32",
        })
    }
}
