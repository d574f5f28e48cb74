// What Patch, Gain, Matrix, Send, Clear and Output write, sample by sample: definitions and their laws. There is no code here: the other
// crates of the family have it.
#![tactic(auto)]
