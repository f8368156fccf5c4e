// What makes hints and folds differ: a record of which a layer keeps a table. All else is the same for both.
ghost use Rattle.std.specs.Prelude.{◌≡◌, ℕ, List, [], length};
ghost use Rattle.places.specs.Marks.{Mark, followed};
ghost use Rattle.view.specs.Layers.{Records, growth};
ghost use Rattle.view.specs.Orders.{meets};
ghost use Rattle.view.specs.Seen.{text_at, first_at};
ghost use Rattle.view.specs.Kinds.{Over, Behind, Raises, Carries};
ghost use Rattle.tables.specs.Tables.{marks_of};
ghost use Rattle.layers.specs.Marked.{KeptAsMarks, Verbs};

use places::change::Change;
use tables::record::Record;
use tables::table::Table;
use view::fault::Cause;
use view::order::Order;
use view::view::View;

// A record of which a layer keeps a table: its verbs, and what differs in the ceiling, in a removal, in an addition and in
// following a change.
pub trait Marked: Record + Default {
    // the verb that adds a record, and the one that removes it
    const ADDS: char;

    const REMOVES: char;

    ghost ADDS: { ℕ };

    ghost REMOVES: { ℕ };

    // what a layer keeps whose marks are these
    ghost records: { List Mark → Records };

    // The ceiling over a text whose ceiling is `ceiling`. Constant time.
    fn grown(ceiling: u32) -> u64
        ensures { result ≡ growth (records []) ceiling };

    // Whether an order to remove the record at the place `l` below means this one. Constant time.
    fn is_meant(&self, l: u32) -> bool
        ensures { result ≡ meets (records []) l (Self.mark self.now) };

    // Lets the records of `table` follow the change `change` that led to the text of `below`, where the text over them had
    // `len` codes before; answers the change of that text. A few passes over the records.
    fn follow_all<V: View>(table: &mut Table<Self>, below: &V, len: u32, change: Change) -> Change
        requires { Behind V.Meaning below.now (records (marks_of Self.mark table.old)) change }
        ensures marks { marks_of Self.mark table.new ≡ followed change.start change.old change.new (marks_of Self.mark table.old) }
        ensures raises { Raises (records (marks_of Self.mark table.old)) (text_at V.Meaning below.now) change len result };

    // Carries out an order that adds a record, or says why not. A few passes over the records, a question or two of the
    // view below, and one pass over `w`.
    fn add<V: View>(
        table: &mut Table<Self>,
        below: &V,
        order: Order,
        w: &[u32],
    ) -> Result<Change, Cause>
        requires over { Over V.Meaning below.now (records (marks_of Self.mark table.old)) }
        requires adds { order.verb ≡ ADDS }
        ensures { Carries (records (marks_of Self.mark table.old)) (records (marks_of Self.mark table.new)) table.old table.new (text_at V.Meaning below.now) (length (V.Meaning.doc below.now)) (first_at V.Meaning below.now order.x) (first_at V.Meaning below.now order.y) order w.now result };

    ghost kept: { KeptAsMarks records };

    ghost verbs: { Verbs records ADDS REMOVES };
}
