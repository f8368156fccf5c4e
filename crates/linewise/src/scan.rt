// A kind of layer that goes through the text below code by code, in a state that begins anew with each line.
ghost use Rattle.std.specs.Prelude.{◌≡◌, ◌+◌, ◌<◌, ◌≤◌, length, drop, slice_index};
ghost use Rattle.lines.specs.Transducers.{Transducer, Steady};
ghost use Rattle.view.specs.Seen.{text_at};
ghost use Rattle.linewise.specs.Scans.{Bounded};

use view::view::View;

pub trait Scan: Sized {
    ghost transducer: { Self → Transducer };

    // The state before the text.
    fn start<V: View>(&self, below: &V) -> u32
        requires { V.Meaning.sound below.now }
        ensures { result ≡ (transducer self.now).start (text_at V.Meaning below.now) };

    // How many codes are shown of `code`. Constant time.
    fn size(&self, state: u32, code: u32) -> u32
        ensures { result ≡ length ((transducer self.now).show state code) };

    // Which is the one at `j` of them. Constant time.
    fn shown(&self, state: u32, code: u32, j: u32) -> u32
        requires { j < length ((transducer self.now).show state code) }
        ensures { result ≡ slice_index ((transducer self.now).show state code) j };

    // The state behind `code`, which stands at `i`.
    fn next<V: View>(&self, state: u32, code: u32, below: &V, i: u32) -> u32
        requires sound { V.Meaning.sound below.now }
        requires within { i < length (text_at V.Meaning below.now) }
        requires there { code ≡ slice_index (text_at V.Meaning below.now) i }
        requires small { state ≤ 1073741824 + 1024 }
        ensures { result ≡ (transducer self.now).next state code (drop (i + 1) (text_at V.Meaning below.now)) };

    ghost steady: { (s : Self) → Steady (transducer s) };

    ghost bounded: { (s : Self) → Bounded (transducer s) };
}
