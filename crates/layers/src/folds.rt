// A layer of folds.
ghost use Rattle.std.specs.Prelude.{◌≡◌, ◌+◌, ◌<◌};
ghost use Rattle.places.specs.Marks.{dropped, lowest, highest};
ghost use Rattle.view.specs.Layers.{folds};
ghost use Rattle.view.specs.Orders.{overlaps, some};
ghost use Rattle.tables.specs.Folds.{fold_mark};
ghost use Rattle.tables.specs.Tables.{marks_of};
ghost use Rattle.layers.specs.Marked.{folds_kept, fold_verbs};

use crate::finding::{place_below, put_in};
use crate::marked::Marked;
use crate::marks::Marks;
use places::change::Change;
use tables::fold::Fold;
use tables::placing::first_over;
use tables::record::Record;
use tables::table::Table;
use view::fault::Cause;
use view::order::Order;
use view::view::View;

// A layer of folds.
pub type Folds = Marks<Fold>;

// Whether `change` drops `record`. Constant time.
fn is_dropped<R: Record>(record: &R, change: Change) -> bool
    requires { change.start + change.old < 4294967296 }
    ensures { result ≡ dropped change.start change.old (R.Record.mark «record».now) }
{
    change.start < record.past() && record.place() < change.start + change.old
}

// From where to where `change` reaches with the records that it drops. One pass.
fn reach<R: Record>(table: &Table<R>, change: Change) -> (u32, u32)
    requires { change.start + change.old < 4294967296 }
    ensures low { result.0 ≡ lowest change.start change.old (marks_of R.Record.mark table.now) }
    ensures high { result.1 ≡ highest change.start change.old (marks_of R.Record.mark table.now) }
{
    let mut low = change.start;
    let mut high = change.start + change.old;
    let records = table.records();
    for record in records {
        if is_dropped(record, change) {
            low = low.min(record.place());
            high = high.max(record.past());
        }
    }
    (low, high)
}

// Whether a fold overlaps the codes of the text below from `a` to `b`. One pass.
fn is_overlapped(table: &Table<Fold>, a: u32, b: u32) -> bool
    ensures { result ≡ some (overlaps a b) (marks_of fold_mark table.now) }
{
    table
        .records()
        .iter()
        .any(|fold| a < fold.past() && fold.place() < b)
}

impl Marked for Fold {
    const ADDS: char = 'f';

    const REMOVES: char = 'u';

    ghost ADDS = { 102 };

    ghost REMOVES = { 117 };

    ghost records = { folds };

    ghost kept = { folds_kept };

    ghost verbs = { fold_verbs };

    fn grown(ceiling: u32) -> u64 {
        u64::from(ceiling)
    }

    fn is_meant(&self, l: u32) -> bool {
        self.place() <= l && l < self.past()
    }

    fn follow_all<V: View>(table: &mut Table<Fold>, below: &V, len: u32, change: Change) -> Change {
        let (low, high) = reach(table, change);
        let start = first_over(table, low);
        let end = first_over(table, high);
        table.follow(change);
        Change {
            start,
            old: end.saturating_sub(start),
            new: high + change.new - change.old - low,
        }
    }

    fn add<V: View>(
        table: &mut Table<Fold>,
        below: &V,
        order: Order,
        w: &[u32],
    ) -> Result<Change, Cause> {
        let a = place_below(below, order.x)?;
        let b = place_below(below, order.y)?;
        if order.y <= order.x {
            return Err(Cause::OutOfRange {
                value: u64::from(order.x),
            });
        }
        if b <= a || is_overlapped(table, a, b) {
            return Err(Cause::BadFold { place: order.x });
        }
        let start = first_over(table, a);
        put_in(table, Fold::new(a, b))?;
        Ok(Change {
            start,
            old: b - a,
            new: 1,
        })
    }
}
