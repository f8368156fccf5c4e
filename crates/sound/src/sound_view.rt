// Any view, sound by its type.
//
// The struct keeps that there is some proof that its view is sound, which asks nothing of the view but its meaning; what uses the
// fact asks that there is one proof at most. A host's struct that names a `SoundView` over its own parameter has to repeat a bound:
// `where Layer<V, K>: View<Store = V::Store> + SoundOnce` for a `SoundView<Layer<V, K>>`. One that takes its view as a parameter `V:
// AlwaysSound` need not.
ghost use Rattle.std.specs.Prelude.{◌≡◌};
ghost use Rattle.std.specs.Coded.{Unit-prop};
ghost use Rattle.sound.specs.Once.{kept};

use crate::always::AlwaysSound;
use crate::once::SoundOnce;
use places::change::Change;
use view::fault::ViewFault;
use view::order::Order;
use view::view::{Meaning, View};

// A view that was opened, and changed by the calls of View alone. Each call is that of the view inside, and costs the same.
// stays: beside `Layer`, which keeps no such fact, so that a host's struct over its own parameter can hold a layer as it is
#[derive(Drop)]
pub struct SoundView<V: Meaning> {
    view: V,
    ghost sound: { ∥ V.Meaning.sound view ∥₁ },
}

impl<V: SoundOnce> SoundView<V> {
    // A sound view, kept as one. Constant time.
    pub fn new(view: V) -> SoundView<V>
        requires { V.Meaning.sound view }
        ensures { result.view ≡ view }
    {
        SoundView { view }
    }

    // The view inside. Constant time.
    fn inside(&self) -> &V
        ensures same { result.now ≡ self.now.view }
        ensures sound { V.Meaning.sound result.now }
    {
        &self.view
    }
}

impl<V: Meaning> Meaning for SoundView<V> {
    ghost sound = { λ _. Unit {0} };

    ghost most = { V.Meaning.most };

    ghost doc = { λ s. V.Meaning.doc s.view };

    ghost spare_of = { λ s. V.Meaning.spare_of s.view };

    ghost spare_after = { V.Meaning.spare_after };

    ghost stack = { λ s. V.Meaning.stack s.view };

    ghost opened = { V.Meaning.opened };
}

impl<V: Meaning> SoundOnce for SoundView<V> {
    ghost once = { λ _. Unit-prop };
}

impl<V: View + SoundOnce> AlwaysSound for SoundView<V> {
    ghost always = { λ _. tt };
}

impl<V: View + SoundOnce> View for SoundView<V> {
    type Store = V::Store;

    ghost fits = { λ s _. V.View.fits s.view (kept (V.SoundOnce.once s.view) s.sound) };

    ghost means = { λ s _. V.View.means s.view (kept (V.SoundOnce.once s.view) s.sound) };

    ghost small = { λ s _. V.View.small s.view (kept (V.SoundOnce.once s.view) s.sound) };

    fn open(store: V::Store) -> SoundView<V> {
        SoundView {
            view: V::open(store),
        }
    }

    fn document_len(&self) -> u32 {
        self.inside().document_len()
    }

    fn len(&self) -> u32 {
        self.inside().len()
    }

    fn ceiling(&self) -> u32 {
        self.inside().ceiling()
    }

    fn code(&self, u: u32) -> Result<u32, ViewFault> {
        self.inside().code(u)
    }

    fn under(&self, u: u32) -> Result<u32, ViewFault> {
        self.inside().under(u)
    }

    fn first(&self, p: u32) -> Result<u32, ViewFault> {
        self.inside().first(p)
    }

    fn last(&self, p: u32) -> Result<u32, ViewFault> {
        self.inside().last(p)
    }

    fn edit(&mut self, a: u32, r: u32, w: &[u32]) -> Result<Change, ViewFault> {
        self.view.edit(a, r, w)
    }

    fn order(&mut self, k: u32, order: Order, w: &[u32]) -> Result<Change, ViewFault> {
        self.view.order(k, order, w)
    }
}
