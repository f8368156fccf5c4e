// A layer of marks: records in a table, as hints and folds are. Each question and each order costs one pass over the
// records at most, a code or a place of the text above one pass for each of them.
ghost use Rattle.std.specs.Prelude.{◌≡◌, []};
ghost use Rattle.tables.specs.Tables.{marks_of};
ghost use Rattle.std.proofs.Common.{rules};

use crate::finding::{place_below, take_out};
use crate::marked::Marked;
use crate::over::{code_over, under_over};
use places::change::Change;
use tables::placing::{first_over, last_over, length_over};
use tables::table::Table;
use view::fault::Cause;
use view::kind::Kind;
use view::order::Order;
use view::view::View;

// The layer's table.
#[derive(Drop)]
pub struct Marks<R> {
    table: Table<R>,
}

impl<R: Marked> Kind for Marks<R> {
    ghost records = { λ k. R.records (marks_of R.mark k.table) };

    ghost initial = { R.records [] };

    ghost grows = { λ k c. R.kept.grows (marks_of R.mark k.table) c };

    ghost speaks = { λ k v. R.kept.speaks (marks_of R.mark k.table) v };

    ghost begins = { λ n. R.kept.fits n };

    fn new() -> Marks<R> {
        Marks {
            table: Table::new(R::default()),
        }
    }

    fn grown(ceiling: u32) -> u64 {
        R::grown(ceiling)
    }

    fn has_verb(verb: char) -> bool {
        verb == R::ADDS || verb == R::REMOVES
    }

    fn len<V: View>(&self, below: &V) -> u32 {
        length_over(&self.table, below.len())
    }

    fn code<V: View>(&self, below: &V, u: u32) -> u32 {
        code_over(&self.table, below, u)
    }

    fn under<V: View>(&self, below: &V, u: u32) -> u32 {
        under_over(&self.table, below, u)
    }

    fn first<V: View>(&self, below: &V, l: u32) -> u32 {
        first_over(&self.table, l)
    }

    fn last<V: View>(&self, below: &V, l: u32) -> u32 {
        last_over(&self.table, l)
    }

    fn follow<V: View>(&mut self, below: &V, len: u32, change: Change) -> Change {
        R::follow_all(&mut self.table, below, len, change)
    }

    fn order<V: View>(&mut self, below: &V, order: Order, w: &[u32]) -> Result<Change, Cause> {
        if order.verb == R::REMOVES {
            let l = place_below(below, order.x)?;
            return take_out(&mut self.table, l, order.x);
        }
        R::add(&mut self.table, below, order, w)
    }
}
