// Places of one text over places of another: how a text is rewritten piece by piece, which place lies under which, and
// what a change of the text below makes of the text above. Definitions and their laws, and the numbers of a change.
#![tactic(auto)]

pub mod change;
