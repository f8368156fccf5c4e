// What makes one kind of layer: its records, what they show, and its verbs. All else is the same for every kind.
ghost use Rattle.std.specs.Prelude.{◌≡◌, ℕ, ◌<◌, ◌≤◌, true, length, slice_index};
ghost use Rattle.view.specs.Layers.{Records, growth, Fit, shown, under as lies, first as leads, last as ends, follow as followed};
ghost use Rattle.view.specs.Orders.{has_verb};
ghost use Rattle.view.specs.Seen.{text_at, first_at};
ghost use Rattle.view.specs.Kinds.{Over, Behind, Raises, Carries};

use crate::fault::Cause;
use crate::order::Order;
use crate::view::View;
use places::change::Change;

pub trait Kind: Sized {
    // stays: each question asks `Over` of the view below and the records; a struct of the two, as a walk is, would have to be
    // made by the layer at each call and name its kind in the kind's own trait
    ghost records: { Self → Records };

    // the records at opening
    ghost initial: { Records };

    // As at opening.
    fn new() -> Self
        ensures { records result ≡ initial };

    // The ceiling over a text whose ceiling is `ceiling`.
    fn grown(ceiling: u32) -> u64
        ensures { result ≡ growth initial ceiling };

    // Whether `verb` is one of this kind's.
    fn has_verb(verb: char) -> bool
        ensures { result ≡ has_verb initial verb };

    // The length of the text over that of `below`.
    fn len<V: View>(&self, below: &V) -> u32
        requires { Over V.Meaning below.now (records self.now) }
        ensures { result ≡ length (shown (records self.now) (text_at V.Meaning below.now)) };

    // The code behind the place `u` of the text.
    fn code<V: View>(&self, below: &V, u: u32) -> u32
        requires over { Over V.Meaning below.now (records self.now) }
        requires within { u < length (shown (records self.now) (text_at V.Meaning below.now)) }
        ensures { result ≡ slice_index (shown (records self.now) (text_at V.Meaning below.now)) u };

    // The place below under the place `u`.
    fn under<V: View>(&self, below: &V, u: u32) -> u32
        requires over { Over V.Meaning below.now (records self.now) }
        requires within { u ≤ length (shown (records self.now) (text_at V.Meaning below.now)) }
        ensures { result ≡ lies (records self.now) (text_at V.Meaning below.now) u };

    // The least place that lies at or behind the place `l` below.
    fn first<V: View>(&self, below: &V, l: u32) -> u32
        requires over { Over V.Meaning below.now (records self.now) }
        requires within { l ≤ length (text_at V.Meaning below.now) }
        ensures { result ≡ leads (records self.now) (text_at V.Meaning below.now) l };

    // The greatest place that lies at or before the place `l` below.
    fn last<V: View>(&self, below: &V, l: u32) -> u32
        requires over { Over V.Meaning below.now (records self.now) }
        requires within { l ≤ length (text_at V.Meaning below.now) }
        ensures { result ≡ ends (records self.now) (text_at V.Meaning below.now) l };

    // Follows the change `change` that led to the text of `below`, where the own text had `len` codes before; answers
    // the change of the own text.
    fn follow<V: View>(&mut self, below: &V, len: u32, change: Change) -> Change
        requires { Behind V.Meaning below.now (records self.old) change }
        ensures records { records self.new ≡ followed (records self.old) change }
        ensures raises { Raises (records self.old) (text_at V.Meaning below.now) change len result };

    // Carries out an order with one of its verbs, or says why not.
    fn order<V: View>(&mut self, below: &V, order: Order, w: &[u32]) -> Result<Change, Cause>
        requires over { Over V.Meaning below.now (records self.old) }
        requires own { has_verb initial order.verb ≡ true }
        ensures { Carries (records self.old) (records self.new) self.old self.new (text_at V.Meaning below.now) (length (V.Meaning.doc below.now)) (first_at V.Meaning below.now order.x) (first_at V.Meaning below.now order.y) order w.now result };

    ghost grows: { (k : Self) (c : ℕ) → growth (records k) c ≡ growth initial c };

    ghost speaks: { (k : Self) (v : ℕ) → has_verb (records k) v ≡ has_verb initial v };

    ghost begins: { (n : ℕ) → Fit initial n };
}
