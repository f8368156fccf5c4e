// A buffer with the room of another and the highest most there is, so that a layer of hints over it is asleep.
ghost use Rattle.std.proofs.Common.{le_trans, lit≤};

use buffer::buffer::Buffer;
use buffer::fault::BufferFault;

#[derive(Drop)]
pub struct Wide<B> {
    pub inner: B,
}

impl<B: Buffer> Buffer for Wide<B> {
    const LETTER: char = 'w';

    const MOST: u32 = 1_073_741_824;

    ghost letter = { 119 };

    ghost most = { 1073741824 };

    ghost bounded = { lit≤ tt };

    ghost doc = { λ b. B.Buffer.doc b.inner };

    ghost spare_of = { λ b. B.Buffer.spare_of b.inner };

    ghost fits = { λ b. le_trans (B.Buffer.fits b.inner) B.Buffer.bounded };

    ghost spare_after = { B.Buffer.spare_after };

    ghost memory = { λ b. B.Buffer.memory b.inner };

    fn initial() -> char {
        'w'
    }

    fn largest() -> u32 {
        1_073_741_824
    }

    fn len(&self) -> u32 {
        self.inner.len()
    }

    fn spare(&self) -> u32 {
        self.inner.spare()
    }

    fn code(&self, i: u32) -> Result<u32, BufferFault> {
        self.inner.code(i)
    }

    fn edit(&mut self, a: u32, r: u32, w: &[u32]) -> Result<(), BufferFault> {
        self.inner.edit(a, r, w)
    }
}
