// The fixed buffer: a document in 4,096 cells of its own, which needs no memory handed in.
ghost use Rattle.std.specs.Prelude.{◌≡◌, [], length};
ghost use Rattle.std.proofs.Common.{lit≤};
ghost use Rattle.buffer.specs.Gaps.{cells_left, held, free, held_fits};

use crate::buffer::Buffer;
use crate::fault::BufferFault;
use crate::gap::Gap;

// How many cells a fixed buffer has.
const CELLS: u32 = 4_096;

// stays: cells and how many of them are filled on each side; that is what a gap buffer is
#[derive(Drop)]
pub struct FixedBuffer {
    cells: [u32; CELLS as usize],
    gap: Gap<CELLS>,
}

impl FixedBuffer {
    // An empty document with room for 4,096 codes. Writes every cell once.
    pub fn new() -> FixedBuffer
        ensures doc { held 4096 result.cells result.gap ≡ [] }
        ensures spare { free 4096 result.cells result.gap ≡ 4096 }
    {
        FixedBuffer {
            cells: [0; CELLS as usize],
            gap: Gap::default(),
        }
    }
}

impl Buffer for FixedBuffer {
    const LETTER: char = 'k';

    const MOST: u32 = CELLS;

    ghost letter = { 107 };

    ghost most = { 4096 };

    ghost bounded = { lit≤ tt };

    ghost doc = { λ b. held 4096 b.cells b.gap };

    ghost spare_of = { λ b. free 4096 b.cells b.gap };

    ghost fits = { λ b. held_fits 4096 b.cells b.gap };

    ghost spare_after = { cells_left };

    ghost memory = { λ _. [] };

    fn initial() -> char {
        Self::LETTER
    }

    fn largest() -> u32 {
        Self::MOST
    }

    // stays: four calls on `Gap`; a trait that lends the cells was tried, and the `&mut` it returns gets no proof
    fn len(&self) -> u32 {
        self.gap.len(&self.cells)
    }

    fn spare(&self) -> u32 {
        self.gap.spare(&self.cells)
    }

    fn code(&self, i: u32) -> Result<u32, BufferFault> {
        self.gap.code(&self.cells, i)
    }

    // Costs the codes between the last edit and this one, and those of `w`.
    fn edit(&mut self, a: u32, r: u32, w: &[u32]) -> Result<(), BufferFault> {
        self.gap = self.gap.edit(&mut self.cells, a, r, w)?;
        Ok(())
    }
}
