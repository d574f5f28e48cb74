// The two-list theorem. This crate has definitions and theorems only; the calls that it speaks of are defined in `builder`, `setting`, `input`, `run` and `trace`.
#![tactic(auto)]
