// A change of a text: behind its first `start` codes, `old` codes were replaced by `new` others.
#[derive(Clone, Copy, PartialEq, Eq, Debug)]
pub struct Change {
    pub start: u32,
    pub old: u32,
    pub new: u32,
}
