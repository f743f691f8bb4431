// When two states of one component are related at a node (document 01, Classes). A relation is a row of bits for each state that there may be:
// bit y of row x says that x and y are related, and every bit at or past the states is 0.
#![tactic(auto)]

pub mod matching;
pub mod relation;
pub mod rule;
