// A damage of rows, and two of them in a row as one.
ghost use Rattle.std.specs.Prelude.{◌≡◌, ◌+◌, ◌-◌, ◌^◌, ◌<◌, min};
ghost use Rattle.damage.specs.Damages.{followed_by, capped};

// Which rows a change damaged. The rows in front of them and the rows behind them are as they were.
#[derive(Clone, Copy, PartialEq, Eq, Debug)]
pub struct Damage {
    // how many rows in front are kept: the first damaged row
    pub first: u32,
    // how many rows from there on are gone
    pub old: u32,
    // how many rows stand in their place
    pub new: u32,
}

// How many rows there are from `first` up to `end` with `put` rows in the place of `taken` ones, cut to the largest number
// of 32 bits. Constant time.
fn stretch(end: u64, taken: u32, put: u32, first: u32) -> u32
    requires { end < 2 ^ 33 }
    ensures { result ≡ min (end - taken + put - first) (2 ^ 32 - 1) }
{
    let moved = end.saturating_sub(u64::from(taken)) + u64::from(put);
    let rows = moved.saturating_sub(u64::from(first));
    rows.min(u64::from(u32::MAX)) as u32
}

impl Damage {
    // This damage and then `later` as one: it begins where the earlier of both begins, and ends where the later of both
    // ends. A number that 32 bits cannot hold is cut to their largest; where the rows are fewer than 2^32, as those of any
    // view are, none is cut. Constant time.
    pub fn followed_by(self, later: Damage) -> Damage
        ensures { result ≡ capped (followed_by self later) }
    {
        let first = self.first.min(later.first);
        let end = u64::from(self.first) + u64::from(self.new);
        let end = end.max(u64::from(later.first) + u64::from(later.old));
        Damage {
            first,
            old: stretch(end, self.new, self.old, first),
            new: stretch(end, later.old, later.new, first),
        }
    }
}
