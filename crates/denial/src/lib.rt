// What statements deny: that two individuals are one, or an edge.
#![tactic(auto)]

pub mod deny;
