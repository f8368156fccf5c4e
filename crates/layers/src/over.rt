// What stands at a place of the text that a table of records shows over the text of a view.
ghost use Rattle.std.specs.Prelude.{◌≡◌, ◌≤◌, length, slice_index};
ghost use Rattle.view.specs.Seen.{text_at};
ghost use Rattle.tables.specs.Tables.{marks_of};
ghost use Rattle.tables.specs.Placing.{text_over, under_over, Counted};

use tables::placing::{Held, held_at};
use tables::record::Record;
use tables::table::Table;
use view::reading::code_at;
use view::view::View;

// The code behind the place `u`. One pass over the records.
pub fn code_over<R: Record, V: View>(table: &Table<R>, below: &V, u: u32) -> u32
    requires sound { V.Meaning.sound below.now }
    requires counted { Counted (marks_of R.Record.mark table.now) (text_at V.Meaning below.now) }
    requires within { u ≤ length (text_over (marks_of R.Record.mark table.now) (text_at V.Meaning below.now)) }
    ensures { result ≡ slice_index (text_over (marks_of R.Record.mark table.now) (text_at V.Meaning below.now)) u }
{
    match held_at(table, u) {
        Held::Shown { index, offset } => table.records()[index].code(offset),
        Held::Below { place } => code_at(below, place),
    }
}

// The place of `below` under the place `u`. One pass over the records.
pub fn under_over<R: Record, V: View>(table: &Table<R>, below: &V, u: u32) -> u32
    requires counted { Counted (marks_of R.Record.mark table.now) (text_at V.Meaning below.now) }
    requires within { u ≤ length (text_over (marks_of R.Record.mark table.now) (text_at V.Meaning below.now)) }
    ensures { result ≡ under_over (marks_of R.Record.mark table.now) (text_at V.Meaning below.now) u }
{
    match held_at(table, u) {
        Held::Shown { index, offset: _ } => table.records()[index].place(),
        Held::Below { place } => place,
    }
}
