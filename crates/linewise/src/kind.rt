// The kind of a layer that goes through the text below line by line, as a scan of some width does. Each question walks the
// text below up to the place asked for; a change walks all of it.
ghost use Rattle.std.specs.Prelude.{◌≡◌, ℕ, ◌≤◌, List, length};
ghost use Rattle.lines.specs.Transducers.{pieces_by};
ghost use Rattle.view.specs.Layers.{pieces};
ghost use Rattle.view.specs.Kinds.{Countable};
ghost use Rattle.view.specs.Seen.{text_at};
ghost use Rattle.linewise.specs.Scans.{Walkable};
ghost use Rattle.std.proofs.Common.{rules};

use crate::walking::Walk;
use crate::width::Width;
use places::change::Change;
use std::marker::PhantomData;
use view::fault::Cause;
use view::kind::Kind;
use view::order::Order;
use view::view::View;

// The layer's width.
// stays: the width alone, and the scan that says in its type that the width is in range is made for each walk: the prover does
// not cover a view over borrowed cells that holds such a struct
#[derive(Drop)]
pub struct Lines<S> {
    width: u32,
    scan: PhantomData<S>,
}

impl<S: Width> Lines<S> {
    // The walk through the text of `below`.
    fn walk<'a, V: View>(&self, below: &'a V) -> Walk<'a, S, V>
        requires sound { V.Meaning.sound below.now }
        requires taken { (S.NARROWEST ≤ self.now.width) × (self.now.width ≤ S.WIDEST) }
        requires low { length (text_at V.Meaning below.now) ≤ 1073741824 }
        requires room { Countable (S.records_at self.now.width) (length (text_at V.Meaning below.now)) }
        ensures width { S.width_of result.scan ≡ self.now.width }
        ensures shows { (xs : List ℕ) → pieces (S.records_at self.now.width) xs ≡ pieces_by (S.transducer result.scan) xs }
        ensures below { result.below.now ≡ below.now }
        ensures walkable { Walkable V.Meaning result.below.now (S.transducer result.scan) }
    {
        Walk {
            scan: S::at_width(self.width),
            below,
        }
    }
}

impl<S: Width> Kind for Lines<S> {
    ghost records = { λ l. S.records_at l.width };

    ghost initial = { S.records_at S.OPENING };

    ghost grows = { Prim.search rules };

    ghost speaks = { Prim.search rules };

    ghost begins = { Prim.search rules };

    fn new() -> Lines<S> {
        Lines {
            width: S::OPENING,
            scan: PhantomData,
        }
    }

    fn grown(ceiling: u32) -> u64 {
        u64::from(S::FACTOR) * u64::from(ceiling)
    }

    fn has_verb(verb: char) -> bool {
        verb == S::VERB
    }

    fn len<V: View>(&self, below: &V) -> u32 {
        self.walk(below).len()
    }

    fn code<V: View>(&self, below: &V, u: u32) -> u32 {
        self.walk(below).seek(u).code
    }

    fn under<V: View>(&self, below: &V, u: u32) -> u32 {
        self.walk(below).seek(u).under
    }

    fn first<V: View>(&self, below: &V, l: u32) -> u32 {
        self.walk(below).reach(l)
    }

    fn last<V: View>(&self, below: &V, l: u32) -> u32 {
        self.walk(below).last(l)
    }

    fn follow<V: View>(&mut self, below: &V, len: u32, change: Change) -> Change {
        let from = S::anew(below, change.start);
        self.walk(below).raise(len, from, change)
    }

    fn order<V: View>(&mut self, below: &V, order: Order, w: &[u32]) -> Result<Change, Cause> {
        if !(S::NARROWEST..=S::WIDEST).contains(&order.x) {
            return Err(Cause::OutOfRange {
                value: u64::from(order.x),
            });
        }
        let old = self.walk(below).len();
        self.width = order.x;
        let new = self.walk(below).len();
        Ok(Change { start: 0, old, new })
    }
}
