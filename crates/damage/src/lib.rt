// The rows of a view's text, and which of them a change of the text damages.
#![tactic(auto)]

pub mod damage;
pub mod laws;
pub mod rows;
#[cfg(test)]
mod tests;
