// The formula of an instrument file, and its starts (document 01, The instrument file): lists that a stage reads from the place
// reached so far, as the grammar of crate meaning says.
#![tactic(auto)]

mod formula; // formula.rt: a node
pub mod nodes; // nodes.rt: all nodes
pub mod starts; // starts.rt: the starts
