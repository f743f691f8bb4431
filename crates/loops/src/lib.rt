// What loops keep, as records with laws for the start, one turn more and the end. No function stands here: the crates whose loops these are name them.
#![tactic(auto)]
