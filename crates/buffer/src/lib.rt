// Where a document lies: what every buffer answers and refuses, and two buffers that keep it in cells.
#![tactic(auto)]

pub mod buffer;
pub mod fault;
pub mod fixed_buffer;
mod gap;
pub mod gap_buffer;
#[cfg(test)]
mod tests;
