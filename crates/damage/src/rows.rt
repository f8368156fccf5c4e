// Counting the rows of a view's text, and the damage that a change of the text does to them.
ghost use Rattle.std.specs.Prelude.{◌≡◌, ◌-◌, length};
ghost use Rattle.lines.specs.Rows.{rows};
ghost use Rattle.view.specs.Seen.{text_at};
ghost use Rattle.damage.specs.Damages.{ends_before, damage_of};

use crate::damage::Damage;
use codes::code::is_row_end;
use places::change::Change;
use view::reading::code_at;
use view::view::View;

// The row ends among the codes of the text from the place `from` up to `to`. Costs a question for each of these codes.
fn ends_between<V: View>(view: &V, from: u32, to: u32) -> u32
    requires { V.Meaning.sound view.now }
    ensures { result ≡ ends_before (text_at V.Meaning view.now) to - ends_before (text_at V.Meaning view.now) from }
{
    (from..to.min(view.len()))
        .filter(|i| is_row_end(code_at(view, *i)))
        .count() as u32
}

// The row ends among the first `v` codes of the text, or among all where there are fewer: the number of the row that holds
// the place `v`, counted from 0. Costs a question for each of these codes.
pub fn ends_before<V: View>(view: &V, v: u32) -> u32
    requires { V.Meaning.sound view.now }
    ensures { result ≡ ends_before (text_at V.Meaning view.now) v }
{
    ends_between(view, 0, v)
}

// How many rows the text has: at least one, and one more than it has row ends. Costs a question for each code.
pub fn count_rows<V: View>(view: &V) -> u32
    requires { V.Meaning.sound view.now }
    ensures { result ≡ length (rows (text_at V.Meaning view.now)) }
{
    ends_before(view, view.len()) + 1
}

// Which rows `change` damaged, where the view shows the text after it, and the text before it had `rows_before` rows.
// Costs a question for each code.
pub fn damage_of<V: View>(view: &V, change: Change, rows_before: u32) -> Damage
    requires { V.Meaning.sound view.now }
    ensures { result ≡ damage_of (text_at V.Meaning view.now) rows_before change }
{
    let past = change.start.saturating_add(change.new);
    let first = ends_before(view, change.start);
    let inside = ends_between(view, change.start, past);
    let behind = ends_between(view, past, view.len());
    Damage {
        first,
        old: rows_before.saturating_sub(first + behind),
        new: inside + 1,
    }
}
