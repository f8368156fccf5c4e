// Layers over buffers and over each other, by examples: a crate of tests.
#![tactic(auto)]

#[cfg(test)]
mod checks;
#[cfg(test)]
mod host_tests;
#[cfg(test)]
mod line_tests;
#[cfg(test)]
mod printing_tests;
#[cfg(test)]
mod sound_tests;
#[cfg(test)]
mod tests;
#[cfg(test)]
mod wide;
