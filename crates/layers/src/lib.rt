// The kinds of layers with records: inlay hints and folds.
#![tactic(auto)]

mod finding;
pub mod folds;
pub mod hints;
pub mod marked;
pub mod marks;
mod over;
