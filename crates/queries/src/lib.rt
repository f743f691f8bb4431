// The questions of document 01 over the bytes of a file. No function here asks anything of its caller: bad input is refused by its number,
// faults of the file first. Each contract has the clause `answer`, which equates the result and the lent buffer with what crate answers defines
// from the file's bytes, and, where there is more to say, `meaning`: what an accepted answer means by paths.
#![tactic(auto)]

mod listed; // listed.rt: the listing

// A component's own part of the file.
pub use stretch_query::{component_bytes, component_refusal};

// Entries in a lent buffer: full words, marks, class names, merged words.
pub use entry_queries::{class_names, full_words, mark_words, merged_words};

// Values: the lookup and the verdict, which is a judgement with its stage.
pub use judgement::{Judgement, Stage};
pub use value_queries::{lookup, verdict};

// The listing's text, and why a question is refused, with its line.
pub use cursor::Refusal;
pub use listed::{listing, refusal_line};
