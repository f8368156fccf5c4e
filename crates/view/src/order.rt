// An order to a layer: what it is to do, and where. Fields that its verb does not use are ignored.
// stays: a letter, since any letter may come and each layer knows its own; the codes of an order are handed beside it, so that
// orders are plain numbers
#[derive(Clone, Copy, PartialEq, Eq, Debug)]
pub struct Order {
    pub verb: char,
    pub x: u32,
    pub y: u32,
}
