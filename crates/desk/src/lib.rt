// What the layout of the program `show` is made with: a draft of a plan, and the gains of panners, widths and folds.
#![tactic(auto)]

pub mod draft;
pub mod gains;
