// One fold: codes of the text below for which a placeholder is shown.
ghost use Rattle.std.specs.Prelude.{◌≡◌, ◌-◌, [], ◌∷◌};
ghost use Rattle.codes.specs.Codes.{placeholder};
ghost use Rattle.tables.specs.Folds.{fold_mark};

use crate::record::Record;
use codes::code::PLACEHOLDER;
use codes::sums::{Measured, running_sum};
use places::change::Change;

#[derive(Clone, Copy, Default)]
pub struct Fold {
    start: u32,
    end: u32,
}

impl Fold {
    // A fold of the codes from `start` to `end`, none where `end` comes first. Constant time.
    pub fn new(start: u32, end: u32) -> Fold
        ensures { fold_mark result ≡ record { at = start; takes = end - start; shows = placeholder ∷ [] } }
    {
        Fold { start, end }
    }
}

impl Measured for Fold {
    ghost size = { λ f. (fold_mark f).takes };

    fn measure(&self) -> u32 {
        self.end.saturating_sub(self.start)
    }
}

impl Record for Fold {
    ghost mark = { fold_mark };

    fn place(&self) -> u32 {
        self.start
    }

    fn past(&self) -> u32 {
        self.end.max(self.start)
    }

    fn shown(&self) -> u32 {
        1
    }

    fn code(&self, i: u32) -> u32 {
        PLACEHOLDER
    }

    fn follow(&mut self, change: Change) -> bool {
        let past = self.past();
        match *self {
            _ if past <= change.start => true,
            Fold { start, end: _ } if change.start.saturating_add(change.old) <= start => {
                *self = Fold {
                    start: (start - change.old).saturating_add(change.new),
                    end: (past - change.old).saturating_add(change.new),
                };
                true
            }
            _ => false,
        }
    }

    fn shown_before(records: &[Fold], n: usize) -> u64 {
        n.min(records.len()) as u64
    }

    fn taken_before(records: &[Fold], n: usize) -> u64 {
        running_sum(records, n) as u64
    }
}
