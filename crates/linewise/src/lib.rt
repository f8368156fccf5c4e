// The kinds of layers that go through the text below line by line: tab stops and soft wrap.
#![tactic(auto)]

pub mod breaking;
pub mod kind;
pub mod scan;
pub mod tabs;
mod walking;
pub mod width;
pub mod wrap;
