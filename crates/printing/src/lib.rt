// What the programs share: they go over the rows of a view, give it orders, and print the rows and the answers.
#![tactic(auto)]

pub mod orders;
pub mod rows;
#[cfg(test)]
mod tests;
pub mod words;
