// Views of which every value is sound.
use crate::once::SoundOnce;
use buffer::buffer::Buffer;
use view::bare::Bare;
use view::view::View;

// What the calls of a view ask is a law here: a function over any such view asks nothing of it, and hands it on to what asks
// `sound`, with nothing to prove. A layer over it is again sound by its type, in a `SoundView`.
pub trait AlwaysSound: View + SoundOnce {
    ghost always: { (v : Self) → Self.sound v };
}

impl<B: Buffer> AlwaysSound for Bare<B> {
    ghost always = { λ _. tt };
}
