// The codes that texts are made of: which ones a document may hold, how they are written as bytes,
// and sums over lists of records that stand for stretches of codes.
#![tactic(auto)]

pub mod code;
pub mod sums;
pub mod text;
pub mod utf8;
