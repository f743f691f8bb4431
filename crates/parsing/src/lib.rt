// What every part of an instrument file is read with (document 01, The instrument file): lists of numbers.
#![tactic(auto)]

pub mod lists; // lists.rt: lists of numbers, stored in a lent array
