// The trace: the inputs behind each output of a plan, and whether a plan is clean, as definitions with their laws. There is no code here: crates
// `trace_sources`, `trace_clean` and `trace_calls` have it.
#![tactic(auto)]
