// The gap buffer: a document in handed cells, with a gap that stays where the last edit was.
ghost use Rattle.std.specs.Prelude.{◌≡◌, [], ◌∷◌, length, OnOk};
ghost use Rattle.std.proofs.Common.{lit≤};
ghost use Rattle.buffer.specs.Refusals.{open_refusal, Checks};
ghost use Rattle.buffer.specs.Edits.{Edits};
ghost use Rattle.buffer.specs.Gaps.{cells_left, held_fits, Lies};
ghost use Rattle.buffer.specs.GapBuffers.{document_of, spare_in, Opens, TriesToOpen};

use crate::buffer::Buffer;
use crate::fault::BufferFault;
use crate::gap::Gap;
use codes::code::document_front;

// The most cells that a gap buffer works in.
const MOST_CELLS: u32 = 1_048_576;

// stays: cells and how many of them are filled on each side; that is what a gap buffer is
#[derive(Drop)]
pub struct GapBuffer<'a> {
    cells: &'a mut [u32],
    gap: Gap<MOST_CELLS>,
}

// What opening gives: a buffer, over no cells where it was refused, and why it was.
// stays: no Result, since by the rules opening gives a buffer in any case; `try_open` answers the Result
#[derive(Drop)]
pub struct Opened<'a> {
    pub buffer: GapBuffer<'a>,
    pub refused: Option<BufferFault>,
}

impl<'a> GapBuffer<'a> {
    // An empty document over no cells, which takes no code: for a host whose document was refused. Constant time.
    pub fn new() -> GapBuffer<'a>
        ensures doc { document_of result ≡ [] }
        ensures spare { spare_in result ≡ 0 }
        ensures cells { result.cells.now ≡ [] }
        ensures gap { result.gap ≡ record { front = 0; back = 0 } }
    {
        GapBuffer {
            cells: &mut [],
            gap: Gap::default(),
        }
    }
}

// Whether the first `n` of `cells` are opened as a document, or why not: with 13 and their number where there are too
// many cells, 1 and `n` where there are fewer than `n`, 3 and its index where one holds a code that no document holds.
// One pass over the document.
pub fn check_cells(cells: &[u32], n: usize) -> Result<(), BufferFault>
    ensures { Checks (open_refusal 1048576 cells.now n) result }
{
    if cells.len() > MOST_CELLS as usize {
        return Err(BufferFault::TooManyCells {
            cells: cells.len() as u64,
        });
    }
    if n > cells.len() {
        return Err(BufferFault::PastEnd { place: n as u64 });
    }
    let good = document_front(&cells[..n]);
    if good < n {
        return Err(BufferFault::BadCode { index: good as u64 });
    }
    Ok(())
}

// Opens the first `n` of `cells` as a document, the rest as its spare; what `check_cells` refuses is refused. One pass
// over the document; no cell is written.
pub fn try_open<'a>(cells: &'a mut [u32], n: usize) -> Result<GapBuffer<'a>, BufferFault>
    ensures { TriesToOpen cells.entry n result }
{
    check_cells(cells, n)?;
    Ok(GapBuffer {
        cells,
        gap: Gap { front: n, back: 0 },
    })
}

// The same, with a buffer in any case: one that works in no cells where it was refused. One pass over the document; no
// cell is written.
pub fn open<'a>(cells: &'a mut [u32], n: usize) -> Opened<'a>
    ensures { Opens cells.entry n result }
{
    match try_open(cells, n) {
        Ok(buffer) => Opened {
            buffer,
            refused: None,
        },
        Err(fault) => Opened {
            buffer: GapBuffer::new(),
            refused: Some(fault),
        },
    }
}

impl<'a> Buffer for GapBuffer<'a> {
    const LETTER: char = 'g';

    const MOST: u32 = MOST_CELLS;

    ghost letter = { 103 };

    ghost most = { 1048576 };

    ghost bounded = { lit≤ tt };

    ghost doc = { document_of };

    ghost spare_of = { spare_in };

    ghost fits = { λ b. held_fits 1048576 b.cells.now b.gap };

    ghost spare_after = { cells_left };

    ghost memory = { λ b. b.cells.ghost_name ∷ [] };

    fn initial() -> char
        ensures { result ≡ 103 }
    {
        Self::LETTER
    }

    fn largest() -> u32
        ensures { result ≡ 1048576 }
    {
        Self::MOST
    }

    // stays: four calls on `Gap`; a trait that lends the cells was tried, and the `&mut` it returns gets no proof
    fn len(&self) -> u32 {
        self.gap.len(self.cells)
    }

    fn spare(&self) -> u32 {
        self.gap.spare(self.cells)
    }

    fn code(&self, i: u32) -> Result<u32, BufferFault> {
        self.gap.code(self.cells, i)
    }

    // Costs the codes between the last edit and this one, and those of `w`.
    fn edit(&mut self, a: u32, r: u32, w: &[u32]) -> Result<(), BufferFault>
        ensures does { Edits document_of spare_in cells_left self.old self.new a r w.now result }
        ensures stays { self.new.cells.ghost_name ∷ [] ≡ self.old.cells.ghost_name ∷ [] }
        ensures len { length self.new.cells.now ≡ length self.old.cells.now }
        ensures cells { OnOk result (Lies self.new.cells.now (document_of self.old) a r w.now) }
    {
        self.gap = self.gap.edit(self.cells, a, r, w)?;
        Ok(())
    }
}
