// A layer of any kind over any view: what all layers share.
//
// The places of three texts meet here: u is a place of the layer's own text, l one of the text below, p one of the
// document. A question costs one of the kind's and one of the view below; a change costs that of the view below, what the
// kind does to follow it, and the counting of the new text. The length, the ceiling and whether the layer is awake are
// kept as numbers and cost nothing.
ghost use Rattle.std.specs.Prelude.{◌≡◌, ◌∷◌, length, if◌then◌else◌, MatchBool, nat_le, Some, None};
ghost use Rattle.view.specs.Layers.{shown, growth, follow as followed};
ghost use Rattle.view.specs.Seen.{text_at};
ghost use Rattle.view.specs.Kinds.{Over, Behind, Raises};
ghost use Rattle.layer.specs.Sound.{Sound};
ghost use Rattle.std.proofs.Common.{rules};
ghost use Rattle.layer.specs.Carrying.{sound_means};

use places::change::Change;
use view::fault::{Cause, ViewFault};
use view::kind::Kind;
use view::order::Order;
use view::view::{Meaning, View};

// No text is longer; a layer whose text could be is asleep and rewrites nothing.
const HIGHEST_CEILING: u64 = 1_073_741_824;

#[derive(Drop)]
pub struct Layer<V, K> {
    below: V,
    kind: K,
    len: u32,
    ceiling: u32,
    // stays: no mark of a value that is there or not, since the records of a sleeping layer count in its stack
    awake: bool,
}

// The own ceiling over one of `low`; none where it would be too high, so that the layer is asleep.
fn grown<K: Kind>(low: u32) -> Option<u32>
    ensures { result ≡ (if nat_le (growth K.Kind.initial low) 1073741824 then Some (growth K.Kind.initial low) else None) }
{
    let high = K::grown(low);
    if high <= HIGHEST_CEILING {
        Some(high as u32)
    } else {
        None
    }
}

impl<V: View, K: Kind> Layer<V, K> {
    // Lets the records follow a change that led to the text below, where the layer is awake; sets the length of the own
    // text, and answers its change.
    fn carry(&mut self, change: Change) -> Change
        requires sound { V.Meaning.sound self.old.below }
        requires behind { MatchBool self.old.awake (Behind V.Meaning self.old.below (K.Kind.records self.old.kind) change) (Unit {0}) }
        requires over { MatchBool self.old.awake (Over V.Meaning self.old.below (followed (K.Kind.records self.old.kind) change)) (Unit {0}) }
        ensures below { self.new.below ≡ self.old.below }
        ensures numbers { (self.new.ceiling ≡ self.old.ceiling) × (self.new.awake ≡ self.old.awake) }
        ensures awake { MatchBool self.old.awake ((K.Kind.records self.new.kind ≡ followed (K.Kind.records self.old.kind) change) × (self.new.len ≡ length (shown (followed (K.Kind.records self.old.kind) change) (text_at V.Meaning self.old.below))) × Raises (K.Kind.records self.old.kind) (text_at V.Meaning self.old.below) change self.old.len result) ((K.Kind.records self.new.kind ≡ K.Kind.records self.old.kind) × (self.new.len ≡ length (text_at V.Meaning self.old.below)) × (result ≡ change)) }
    {
        if !self.awake {
            self.len = self.below.len();
            return change;
        }
        let own = self.kind.follow(&self.below, self.len, change);
        self.len = self.kind.len(&self.below);
        own
    }
}

impl<V: Meaning, K: Kind> Meaning for Layer<V, K> {
    ghost sound = { λ l. Sound V.Meaning l.below (K.Kind.records l.kind) l.len l.ceiling l.awake };

    ghost most = { V.Meaning.most };

    ghost doc = { λ l. V.Meaning.doc l.below };

    ghost spare_of = { λ l. V.Meaning.spare_of l.below };

    ghost spare_after = { V.Meaning.spare_after };

    ghost stack = { λ l. K.Kind.records l.kind ∷ V.Meaning.stack l.below };

    ghost opened = { K.Kind.initial ∷ V.Meaning.opened };
}

impl<V: View, K: Kind> View for Layer<V, K> {
    type Store = V::Store;

    ghost fits = { Prim.search rules };

    ghost means = { λ l s.
        sound_means V.Meaning.own l.below (record { sound = s.below; fits = V.View.fits l.below s.below; small = V.View.small l.below s.below }) (K.Kind.records l.kind) l.len l.ceiling l.awake s };

    ghost small = { Prim.search rules };

    fn open(store: V::Store) -> Layer<V, K> {
        let below = V::open(store);
        let kind = K::new();
        let low = below.ceiling();
        let own = grown::<K>(low);
        let awake = own.is_some();
        let len = if awake { kind.len(&below) } else { below.len() };
        Layer {
            below,
            kind,
            len,
            ceiling: own.unwrap_or(low),
            awake,
        }
    }

    fn document_len(&self) -> u32 {
        self.below.document_len()
    }

    fn len(&self) -> u32 {
        self.len
    }

    fn ceiling(&self) -> u32 {
        self.ceiling
    }

    fn code(&self, u: u32) -> Result<u32, ViewFault> {
        if u >= self.len {
            return Err(Cause::PastEnd { place: u }.here());
        }
        if !self.awake {
            return self.below.code(u);
        }
        Ok(self.kind.code(&self.below, u))
    }

    fn under(&self, u: u32) -> Result<u32, ViewFault> {
        if u > self.len {
            return Err(Cause::PastEnd { place: u }.here());
        }
        if !self.awake {
            return self.below.under(u);
        }
        let l = self.kind.under(&self.below, u);
        self.below.under(l)
    }

    fn first(&self, p: u32) -> Result<u32, ViewFault> {
        let l = self.below.first(p)?;
        if !self.awake {
            return Ok(l);
        }
        Ok(self.kind.first(&self.below, l))
    }

    fn last(&self, p: u32) -> Result<u32, ViewFault> {
        let l = self.below.last(p)?;
        if !self.awake {
            return Ok(l);
        }
        Ok(self.kind.last(&self.below, l))
    }

    fn edit(&mut self, a: u32, r: u32, w: &[u32]) -> Result<Change, ViewFault> {
        let change = self.below.edit(a, r, w).map_err(ViewFault::risen)?;
        Ok(self.carry(change))
    }

    fn order(&mut self, k: u32, order: Order, w: &[u32]) -> Result<Change, ViewFault> {
        if k > 0 {
            let change = self
                .below
                .order(k - 1, order, w)
                .map_err(|fault| fault.risen().from_above(k))?;
            return Ok(self.carry(change));
        }
        if !K::has_verb(order.verb) {
            return Err(Cause::OtherVerb { verb: order.verb }.here());
        }
        if !self.awake {
            return Err(Cause::Asleep.here());
        }
        let change = self.kind.order(&self.below, order, w).map_err(Cause::here)?;
        self.len = self.kind.len(&self.below);
        Ok(change)
    }
}
