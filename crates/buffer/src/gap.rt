// A gap in cells: what every buffer does that keeps its document in cells, on both sides of a gap.
ghost use Rattle.std.specs.Prelude.{◌≡◌, ◌+◌, ◌-◌, ◌<◌, ◌≤◌, ◌++◌, length, take, drop};
ghost use Rattle.buffer.specs.Edits.{CodeAt};
ghost use Rattle.buffer.specs.Gaps.{ends, front_of, back_of, held, free, EditsCells};

use crate::fault::{BufferFault, check_edit};

// How many cells in front of the gap hold codes, from the first cell on, and how many behind it, up to the last. Of the
// two numbers counts what fits in the cells and, in all, in `MOST`.
#[derive(Clone, Copy, Default)]
pub struct Gap<const MOST: u32> {
    pub front: usize,
    pub back: usize,
}

impl<const MOST: u32> Gap<MOST> {
    // The gap in these cells: of its two numbers only what fits.
    fn within(self, cells: &[u32]) -> Gap<MOST>
        ensures front { result.front ≡ front_of MOST cells.now self.entry }
        ensures back { result.back ≡ back_of MOST cells.now self.entry }
    {
        let usable = cells.len().min(MOST as usize);
        let front = self.front.min(usable);
        let back = self.back.min(usable - front);
        Gap { front, back }
    }

    // The length of the document.
    pub fn len(self, cells: &[u32]) -> u32
        ensures { result ≡ length (held MOST cells.now self.entry) }
    {
        let gap = self.within(cells);
        (gap.front + gap.back) as u32
    }

    // How many codes more the document takes.
    pub fn spare(self, cells: &[u32]) -> u32
        ensures { result ≡ free MOST cells.now self.entry }
    {
        let gap = self.within(cells);
        (cells.len().min(MOST as usize) - gap.front - gap.back) as u32
    }

    // The code at index `i` of the document.
    pub fn code(self, cells: &[u32], i: u32) -> Result<u32, BufferFault>
        ensures { CodeAt (held MOST cells.now self.entry) i result }
    {
        let gap = self.within(cells);
        let index = i as usize;
        if index < gap.front {
            return Ok(cells[index]);
        }
        let behind = index - gap.front;
        if behind < gap.back {
            return Ok(cells[cells.len() - gap.back + behind]);
        }
        Err(BufferFault::PastEnd {
            place: u64::from(i),
        })
    }

    // Puts `w` in the place of the `r` codes at `a`, and answers where the gap then stands. It moves the codes
    // between the gap and the edit, and writes `w`.
    pub fn edit(
        self,
        cells: &mut [u32],
        a: u32,
        r: u32,
        w: &[u32],
    ) -> Result<Gap<MOST>, BufferFault>
        ensures len { length cells.new ≡ length cells.old }
        ensures does { EditsCells MOST cells.old cells.new self.entry a r w.now result }
    {
        let len = self.len(cells);
        check_edit(len, self.spare(cells), a, r, w)?;
        let start = a as usize;
        let past = start + r as usize;
        open_gap(cells, self.within(cells), start, past);
        put(cells, start, w);
        Ok(Gap {
            front: start + w.len(),
            back: len as usize - past,
        })
    }
}

// Lets the gap reach from the code at `start` to the code at `past`: moves the codes between it and them.
fn open_gap<const MOST: u32>(cells: &mut [u32], gap: Gap<MOST>, start: usize, past: usize)
    requires { (gap.front + gap.back ≤ length cells.old) × (start ≤ past) × (past ≤ gap.front + gap.back) }
    ensures len { length cells.new ≡ length cells.old }
    ensures front { take start cells.new ≡ take start (ends cells.old gap.entry.front gap.entry.back) }
    ensures back { drop (length cells.old - (gap.entry.front + gap.entry.back - past)) cells.new ≡ drop past (ends cells.old gap.entry.front gap.entry.back) }
{
    let behind = cells.len() - gap.back;
    if gap.front < start {
        cells.copy_within(behind..behind + (start - gap.front), gap.front);
    } else if past < gap.front {
        cells.copy_within(past..gap.front, behind - (gap.front - past));
    }
}

// Writes `w` over the cells from `from` on.
fn put(cells: &mut [u32], from: usize, w: &[u32])
    requires { from + length w.now ≤ length cells.old }
    ensures len { length cells.new ≡ length cells.old }
    ensures before { take (from + length w.now) cells.new ≡ take from cells.old ++ w.now }
    ensures behind { drop (from + length w.now) cells.new ≡ drop (from + length w.now) cells.old }
{
    cells[from..from + w.len()].copy_from_slice(w);
}
