// The records of hints and folds, the tables that keep them, and places over a table.
#![tactic(auto)]

pub mod fold;
pub mod hint;
pub mod placing;
pub mod record;
pub mod table;
