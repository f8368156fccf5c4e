// Records that an order seeks in a table, puts into it and takes out of it.
ghost use Rattle.std.specs.Prelude.{◌≡◌, ◌<◌, ◌≤◌, [], length, MatchResult};
ghost use Rattle.buffer.specs.Refusals.{told};
ghost use Rattle.tables.specs.Tables.{marks_of};
ghost use Rattle.view.specs.Orders.{meets};
ghost use Rattle.view.specs.Refusals.{cause_refusal};
ghost use Rattle.view.specs.Seen.{first_at};
ghost use Rattle.layers.specs.Finding.{Puts};
ghost use Rattle.layers.specs.Ordering.{Removes};

use crate::marked::Marked;
use places::change::Change;
use tables::placing::first_over;
use tables::record::Record;
use tables::table::Table;
use view::fault::Cause;
use view::view::View;

// Where the document place `p` lies in the text of `below`: the first place there. Refused where it is past the end.
// Costs that question of the view.
pub fn place_below<V: View>(below: &V, p: u32) -> Result<u32, Cause>
    requires { V.Meaning.sound below.now }
    ensures { MatchResult result (λ l. (p ≤ length (V.Meaning.doc below.now)) × (l ≡ first_at V.Meaning below.now p)) (λ f. (length (V.Meaning.doc below.now) < p) × (cause_refusal f ≡ told 1 p)) }
{
    below.first(p).map_err(|_| Cause::PastEnd { place: p })
}

// Puts `record` behind all that end at or before it. Refused, and nothing changed, where 64 are kept already. One
// pass over the records.
pub fn put_in<R: Record>(table: &mut Table<R>, record: R) -> Result<(), Cause>
    ensures { Puts (R.mark «record») (marks_of R.mark table.old) (marks_of R.mark table.new) table.old table.new result }
{
    let k = table.ended(record.place());
    table
        .insert(k, record)
        .map_err(|_| Cause::TableFull { kept: 64 })
}

// Takes out the first record that is meant by the place `l` below, on an order for the document place `x`; answers the
// change of the text over the table. Refused, and nothing changed, where none is meant. Two passes over the records.
pub fn take_out<R: Marked>(table: &mut Table<R>, l: u32, x: u32) -> Result<Change, Cause>
    ensures { Removes (meets (R.records []) l) (marks_of R.mark table.old) (marks_of R.mark table.new) table.old table.new x result }
{
    let records = table.records();
    let Some(k) = records.iter().position(|record| record.is_meant(l)) else {
        return Err(Cause::NoRecord { place: x });
    };
    let found = &records[k];
    let change = Change {
        start: first_over(table, found.place()),
        old: found.shown(),
        new: found.past() - found.place(),
    };
    table.remove(k);
    Ok(change)
}
