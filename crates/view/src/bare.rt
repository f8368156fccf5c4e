// The view of a bare buffer: its text is the document, and every place lies under itself.
ghost use Rattle.std.specs.Prelude.{◌≡◌, [], length};
ghost use Rattle.view.specs.Views.{PlaceAt};
ghost use Rattle.std.proofs.Common.{arith, rules};
ghost use Rattle.view.specs.Identity.{bare_means};

use crate::fault::{Cause, ViewFault};
use crate::order::Order;
use crate::view::{Meaning, View};
use buffer::buffer::Buffer;
use places::change::Change;

#[derive(Drop)]
pub struct Bare<B> {
    store: B,
}

impl<B: Buffer> Bare<B> {
    // A place of the document as itself.
    fn place(&self, p: u32) -> Result<u32, ViewFault>
        ensures { PlaceAt (λ q. q) (length (B.Buffer.doc self.now.store)) p result }
    {
        if p > self.store.len() {
            return Err(Cause::PastEnd { place: p }.here());
        }
        Ok(p)
    }
}

impl<B: Buffer> Meaning for Bare<B> {
    ghost sound = { λ _. Unit {0} };

    ghost most = { B.Buffer.most };

    ghost doc = { λ v. B.Buffer.doc v.store };

    ghost spare_of = { λ v. B.Buffer.spare_of v.store };

    ghost spare_after = { B.Buffer.spare_after };

    ghost stack = { λ _. [] };

    ghost opened = { [] };
}

impl<B: Buffer> View for Bare<B> {
    type Store = B;

    ghost fits = { Prim.search rules };

    ghost means = { λ v _. let small = B.Buffer.fits v.store in bare_means B.Buffer.most (B.Buffer.doc v.store) (omega arith) B.Buffer.bounded };

    ghost small = { Prim.search rules };

    fn open(store: B) -> Bare<B> {
        Bare { store }
    }

    fn document_len(&self) -> u32 {
        self.store.len()
    }

    fn len(&self) -> u32 {
        self.document_len()
    }

    fn ceiling(&self) -> u32 {
        B::largest()
    }

    fn code(&self, u: u32) -> Result<u32, ViewFault> {
        self.store
            .code(u)
            .map_err(|_| Cause::PastEnd { place: u }.here())
    }

    fn under(&self, u: u32) -> Result<u32, ViewFault> {
        self.place(u)
    }

    fn first(&self, p: u32) -> Result<u32, ViewFault> {
        self.place(p)
    }

    fn last(&self, p: u32) -> Result<u32, ViewFault> {
        self.place(p)
    }

    // Costs what the buffer's edit costs.
    fn edit(&mut self, a: u32, r: u32, w: &[u32]) -> Result<Change, ViewFault> {
        self.store.edit(a, r, w)?;
        Ok(Change {
            start: a,
            old: r,
            new: w.len() as u32,
        })
    }

    fn order(&mut self, k: u32, _order: Order, _w: &[u32]) -> Result<Change, ViewFault> {
        Err(Cause::NoLayer { steps: k }.here())
    }
}
