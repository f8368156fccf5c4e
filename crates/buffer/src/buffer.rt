// What every buffer of a document is: the document, how much more it takes, and edits.
ghost use Rattle.std.specs.Prelude.{◌≡◌, ℕ, ◌+◌, ◌≤◌, List, length};
ghost use Rattle.std.specs.Borrow.{GName};
ghost use Rattle.buffer.specs.Edits.{CodeAt, Edits};

use crate::fault::BufferFault;

// A document of codes in a store of limited room. Each kind of buffer has a letter by which a script names it, and a
// most, which the document and its spare together never pass.
pub trait Buffer {
    const LETTER: char;

    const MOST: u32;

    // the two constants, as clauses name them
    // stays: an impl with a lifetime, as that of the gap buffer, cannot give a ghost a constant's own name
    ghost letter: { ℕ };

    ghost most: { ℕ };

    // no buffer is larger than a place can count
    ghost bounded: { most ≤ 1073741824 };

    // the document
    ghost doc: { Self → List ℕ };

    // how many codes more it takes
    ghost spare_of: { Self → ℕ };

    ghost fits: { (b : Self) → length (doc b) + spare_of b ≤ most };

    // this kind's own rule of how spare moves: what is left of it when a document of so many codes, with so much
    // spare, loses so many codes and gains so many
    ghost spare_after: { ℕ → ℕ → ℕ → ℕ → ℕ };

    // the memory that was handed in, by name
    ghost memory: { Self → List GName };

    // The letter, read from the constant. Constant time.
    fn initial() -> char
        ensures { result ≡ letter };

    // The most, read from the constant. Constant time.
    fn largest() -> u32
        ensures { result ≡ most };

    // The length of the document. Constant time.
    fn len(&self) -> u32
        ensures { result ≡ length (doc self.now) };

    // How many codes more the document takes. Constant time.
    fn spare(&self) -> u32
        ensures { result ≡ spare_of self.now };

    // The code at index `i`; an index at or past the end is refused with 1, spot `i`. Constant time.
    fn code(&self, i: u32) -> Result<u32, BufferFault>
        ensures { CodeAt (doc self.now) i result };

    // Puts `w` in the place of the `r` codes at `a`. Refused, in this order, with 1 and `a` where the document does
    // not reach so far, 2 and `a` where nothing is taken out or put in, 3 and its index where `w` has a code that no
    // document holds, 4 and the spare where `w` is longer than that; a refusal changes nothing, in the cells neither.
    // stays: three arguments, as a splice has them everywhere; a struct of them would only be made to be taken apart
    fn edit(&mut self, a: u32, r: u32, w: &[u32]) -> Result<(), BufferFault>
        ensures does { Edits doc spare_of spare_after self.old self.new a r w.now result }
        ensures stays { memory self.new ≡ memory self.old };
}
