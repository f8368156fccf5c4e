// What a host asks of a document, over any buffer: where a word stands, which line a place lies in, and the codes of
// a stretch.
#![tactic(auto)]

pub mod find;
pub mod lines;
pub mod stretch;
