// Layers that go through the lines of a text code by code: what tab stops and soft wrap mean, and their laws.
#![tactic(auto)]

pub mod laws;
