// The C interface, which include/mixer.h declares. Each call hands its values to the Rattle call of the same name and the answer back in C's form;
// the only work of its own is the copy of `mixer_lookup`.
//
// The shape is one for all calls. What a call is lent are slices, in C a pointer and a length. All else goes in and comes back by value, the plan's
// record too, so that a caller can hand in no record and no place for an answer that is too short, and a refused call writes nothing.
// A call that can be refused replies with a `Status`, beside its values where it has any; those of a refused call are 0 and false.
// No call has a `requires`. `Replies.antt` of crate `mixer_replies` gives the reply for each answer.
#![tactic(auto)]

mod building;
mod folding;
mod running;
mod tracing;
