// What is shown of a document: views, the layers that rewrite one, and what they refuse.
#![tactic(auto)]

pub mod bare;
pub mod fault;
pub mod kind;
pub mod order;
pub mod reading;
pub mod rows;
pub mod view;
