// What each question about a file is answered (specs/Outcomes, specs/Listing), and what the answers mean by paths (specs/Means, proofs). No
// function stands here: the functions of crate queries cite these definitions, and nothing of their engines is seen in them.
#![tactic(auto)]
