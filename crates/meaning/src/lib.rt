// Document 01's meaning as definitions (specs/) and the theorems about them (proofs/). No function stands here: engines are crates of their own.
#![tactic(auto)]
