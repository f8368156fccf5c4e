// What a view is: a document in a buffer, the records of the layers over it, and what they show.
ghost use Rattle.std.specs.Prelude.{◌≡◌, ℕ, ◌+◌, ◌<◌, ◌≤◌, List, length};
ghost use Rattle.view.specs.Layers.{Records};
ghost use Rattle.view.specs.Stacks.{AllFit, Means, text_of, under_of, first_place, last_place, ceiling_of};
ghost use Rattle.view.specs.Views.{CodeAt, PlaceAt, Edits, Obeys};

use crate::fault::ViewFault;
use crate::order::Order;
use buffer::buffer::Buffer;
use places::change::Change;

// What a view means: a document in a buffer, and the records of the layers over it. It stands apart from the calls, so that a
// struct can speak of the view that it holds.
pub trait Meaning {
    // a value that was opened, and changed by the calls of View alone
    // stays: asked by each call, since a ghost field of the layer would need bounds that a host's struct has to repeat
    ghost sound: { Self → Type 0 };

    ghost most: { ℕ };

    ghost doc: { Self → List ℕ };

    ghost spare_of: { Self → ℕ };

    ghost spare_after: { ℕ → ℕ → ℕ → ℕ → ℕ };

    // the records of its layers, top first, and those at opening
    ghost stack: { Self → List Records };

    ghost opened: { List Records };
}

// What a question or a change costs is each view's own: a bare view answers in constant time, and a layer adds what its
// kind does. A refused call changes nothing at all.
pub trait View: Meaning + Sized {
    type Store: Buffer;

    // A view of what `store` holds, its layers as at opening; the most and the rule of the spare are the buffer's.
    fn open(store: Self::Store) -> Self
        ensures sound { Self.sound result }
        ensures most { Self.most ≡ Self.Store.Buffer.most }
        ensures rule { (n s r k : ℕ) → Self.spare_after n s r k ≡ Self.Store.Buffer.spare_after n s r k }
        ensures doc { Self.doc result ≡ Self.Store.Buffer.doc store }
        ensures spare { Self.spare_of result ≡ Self.Store.Buffer.spare_of store }
        ensures stack { Self.stack result ≡ Self.opened };

    // The length of the document.
    fn document_len(&self) -> u32
        requires { Self.sound self.now }
        ensures { result ≡ length (Self.doc self.now) };

    // The length of the text.
    fn len(&self) -> u32
        requires { Self.sound self.now }
        ensures { result ≡ length (text_of Self.most (Self.stack self.now) (Self.doc self.now)) };

    // What the length of the text never passes.
    fn ceiling(&self) -> u32
        requires { Self.sound self.now }
        ensures { result ≡ ceiling_of Self.most (Self.stack self.now) };

    // The code behind the place `u` of the text; a place at or past the end is refused with 1, spot `u`.
    fn code(&self, u: u32) -> Result<u32, ViewFault>
        requires { Self.sound self.now }
        ensures { CodeAt (text_of Self.most (Self.stack self.now) (Self.doc self.now)) u result };

    // The document place under the place `u` of the text; one past the end is refused with 1, spot `u`.
    fn under(&self, u: u32) -> Result<u32, ViewFault>
        requires { Self.sound self.now }
        ensures { PlaceAt (under_of Self.most (Self.stack self.now) (Self.doc self.now)) (length (text_of Self.most (Self.stack self.now) (Self.doc self.now))) u result };

    // The least place of the text that lies at or behind the document place `p`; one past the end is refused with 1,
    // spot `p`.
    fn first(&self, p: u32) -> Result<u32, ViewFault>
        requires { Self.sound self.now }
        ensures { PlaceAt (first_place Self.most (Self.stack self.now) (Self.doc self.now)) (length (Self.doc self.now)) p result };

    // The greatest place of the text that lies at or before the document place `p`; one past the end is refused with 1,
    // spot `p`.
    fn last(&self, p: u32) -> Result<u32, ViewFault>
        requires { Self.sound self.now }
        ensures { PlaceAt (last_place Self.most (Self.stack self.now) (Self.doc self.now)) (length (Self.doc self.now)) p result };

    // Puts `w` in the place of the `r` codes of the document at `a`, and answers the change of the text; refused as the
    // buffer refuses it, so many layers below.
    fn edit(&mut self, a: u32, r: u32, w: &[u32]) -> Result<Change, ViewFault>
        requires { Self.sound self.old }
        ensures sound { Self.sound self.new }
        ensures does { Edits Self.most Self.doc Self.spare_of Self.stack self.old self.new Self.spare_after a r w.now result };

    // Has the layer `k` steps below the top carry out `order`, whose codes are `w`, and answers the change of the text.
    // Refused, in this order, with 6 where there is no such layer, 7 where it has no such verb, 12 where it is asleep, and
    // then for the layer's own causes.
    fn order(&mut self, k: u32, order: Order, w: &[u32]) -> Result<Change, ViewFault>
        requires { Self.sound self.old }
        ensures sound { Self.sound self.new }
        ensures does { Obeys Self.most Self.doc Self.spare_of Self.stack self.old self.new k order w.now result };

    ghost fits: { (v : Self) → Self.sound v → AllFit Self.most (Self.stack v) (Self.doc v) };

    ghost means: { (v : Self) → Self.sound v → Means Self.most (Self.stack v) (Self.doc v) };

    ghost small: { (v : Self) → Self.sound v → (length (Self.doc v) + Self.spare_of v ≤ Self.most) × (Self.most ≤ 1073741824) };
}
