// The questions of document 01 for callers in C and Rust: numbers and slices only, and nothing is asked of a caller. Each function passes its
// arguments on to the question of that name in crate queries and puts the answer into a number, by the definitions of specs/Numbers: the
// refusal's number in the upper 32 bits, 0 where the question is answered; the answer in the lower 32.
#![tactic(auto)]

mod lent; // lent.rt: questions whose answers are entries in a lent buffer
mod numbers; // numbers.rt: answers as numbers
mod stretch; // stretch.rt: a component's bytes
mod told; // told.rt: the lookup and the verdict

pub use lent::{
    pinthar_class_names, pinthar_full_words, pinthar_listing, pinthar_mark_words,
    pinthar_merged_words,
};
pub use stretch::pinthar_component;
pub use told::{pinthar_lookup, pinthar_verdict};
