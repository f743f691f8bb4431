// The merged words of an instrument (document 01, Merged tables): the truth of the roots and the nodes under them in every merged state.
#![tactic(auto)]

pub mod bars; // bars.rt: the classes that are barred at each node
