// One inlay hint: codes shown at a place of the text below, which are not in it.
ghost use Rattle.std.specs.Prelude.{◌≡◌, true, false, [], length, MatchOption};
ghost use Rattle.tables.specs.Hints.{hint_mark, hintable};

use crate::record::Record;
use codes::sums::{Measured, running_sum};
use places::change::Change;

// stays: sixteen cells and a length inside; an `ArrayVec` is not `Copy`
#[derive(Clone, Copy, Default)]
pub struct Hint {
    at: u32,
    len: u32,
    codes: [u32; 16],
}

impl Hint {
    // A hint at `at` that shows `w`; none where `w` has no code or more than 16. Constant time.
    pub fn new(at: u32, w: &[u32]) -> Option<Hint>
        ensures { MatchOption result (hintable w.now ≡ false) (λ h. (hintable w.now ≡ true) × (hint_mark h ≡ record { at = at; takes = 0; shows = w.now })) }
    {
        if w.is_empty() || w.len() > 16 {
            return None;
        }
        let mut codes = [0; 16];
        codes[..w.len()].copy_from_slice(w);
        Some(Hint {
            at,
            len: w.len() as u32,
            codes,
        })
    }
}

impl Measured for Hint {
    ghost size = { λ h. length (hint_mark h).shows };

    fn measure(&self) -> u32 {
        self.len.min(16)
    }
}

impl Record for Hint {
    ghost mark = { hint_mark };

    fn place(&self) -> u32 {
        self.at
    }

    fn past(&self) -> u32 {
        self.at
    }

    fn shown(&self) -> u32 {
        self.measure()
    }

    fn code(&self, i: u32) -> u32 {
        self.codes[i as usize]
    }

    fn follow(&mut self, change: Change) -> bool {
        match self.at {
            at if at <= change.start => true,
            at if change.start.saturating_add(change.old) <= at => {
                self.at = (at - change.old).saturating_add(change.new);
                true
            }
            _ => false,
        }
    }

    fn shown_before(records: &[Hint], n: usize) -> u64 {
        running_sum(records, n) as u64
    }

    fn taken_before(records: &[Hint], n: usize) -> u64 {
        0
    }
}
