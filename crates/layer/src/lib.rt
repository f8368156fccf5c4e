// A layer of any kind over any view.
#![tactic(auto)]

pub mod layer;
