// A layer of inlay hints.
ghost use Rattle.std.specs.Prelude.{◌≡◌};
ghost use Rattle.std.specs.List.{prefix_len};
ghost use Rattle.view.specs.Layers.{hints};
ghost use Rattle.view.specs.Orders.{is_hint_code};
ghost use Rattle.layers.specs.Marked.{hints_kept, hint_verbs};

use crate::finding::{place_below, put_in};
use crate::marked::Marked;
use crate::marks::Marks;
use codes::code::{NEWLINE, is_document_code};
use places::change::Change;
use tables::hint::Hint;
use tables::placing::{first_over, last_over};
use tables::record::Record;
use tables::table::Table;
use view::fault::Cause;
use view::order::Order;
use view::view::View;

// A layer of inlay hints.
pub type Hints = Marks<Hint>;

// Whether a hint may have `code`: what a document may hold but the newline. Constant time.
fn is_hint_code(code: u32) -> bool
    ensures { result ≡ is_hint_code code }
{
    is_document_code(code) && code != NEWLINE
}

// How many codes from the front of `w` on a hint may have. One pass.
fn hint_front(w: &[u32]) -> usize
    ensures { result ≡ prefix_len is_hint_code w.now }
{
    w.iter().take_while(|code| is_hint_code(**code)).count()
}

impl Marked for Hint {
    const ADDS: char = 'i';

    const REMOVES: char = 'r';

    ghost ADDS = { 105 };

    ghost REMOVES = { 114 };

    ghost records = { hints };

    ghost kept = { hints_kept };

    ghost verbs = { hint_verbs };

    fn grown(ceiling: u32) -> u64 {
        u64::from(ceiling) + 1_024
    }

    fn is_meant(&self, l: u32) -> bool {
        self.place() == l
    }

    fn follow_all<V: View>(table: &mut Table<Hint>, below: &V, len: u32, change: Change) -> Change {
        let start = last_over(table, change.start);
        let old = if change.old == 0 {
            0
        } else {
            first_over(table, change.start + change.old).saturating_sub(start)
        };
        table.follow(change);
        Change {
            start,
            old,
            new: change.new,
        }
    }

    // The hint goes behind those that stand at its place.
    fn add<V: View>(
        table: &mut Table<Hint>,
        below: &V,
        order: Order,
        w: &[u32],
    ) -> Result<Change, Cause> {
        let l = place_below(below, order.x)?;
        let Some(hint) = Hint::new(l, w) else {
            return Err(Cause::OutOfRange {
                value: w.len() as u64,
            });
        };
        let good = hint_front(w);
        if good < w.len() {
            return Err(Cause::BadCode { index: good as u64 });
        }
        let start = last_over(table, l);
        put_in(table, hint)?;
        Ok(Change {
            start,
            old: 0,
            new: w.len() as u32,
        })
    }
}
