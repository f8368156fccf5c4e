// Views that are sound by their type, so that a function over any of them asks nothing of the view that it is handed.
#![tactic(auto)]

pub mod always;
pub mod once;
pub mod sound_view;
