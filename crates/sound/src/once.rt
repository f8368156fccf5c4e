// Views of which the fact that they are sound has one proof at most, so that it can be had of a struct that keeps only that there
// is some proof.
ghost use Rattle.std.specs.Coded.{Unit-prop};
ghost use Rattle.sound.specs.Once.{sound_once};

use buffer::buffer::Buffer;
use layer::layer::Layer;
use view::bare::Bare;
use view::kind::Kind;
use view::view::Meaning;

pub trait SoundOnce: Meaning {
    ghost once: { (v : Self) → IsProp (Self.sound v) };
}

impl<B: Buffer> SoundOnce for Bare<B> {
    ghost once = { λ _. Unit-prop };
}

impl<V: SoundOnce, K: Kind> SoundOnce for Layer<V, K> {
    ghost once = { λ l. sound_once V.Meaning.own l.below (V.SoundOnce.once l.below) (K.Kind.records l.kind) l.len l.ceiling l.awake };
}
