// Places over the text below, found by walking through it: how many codes are shown of a front of it, and what stands at
// a place of the text above. A walk costs one step of its kind for each code below that it goes over.
ghost use Rattle.std.specs.Prelude.{◌≡◌, ◌+◌, ◌≤◌, length, slice_index};
ghost use Rattle.lines.specs.Transducers.{text_by, place_by, first_by, last_by, reach_by};
ghost use Rattle.view.specs.Seen.{text_at};
ghost use Rattle.linewise.specs.Scans.{ByNew};

use crate::scan::Scan;
use places::change::Change;
use view::reading::{code_at, line_end};
use view::view::View;

// The text of `below` as `scan` goes through it, where neither that nor what is shown of it is too long to count.
#[derive(Drop)]
pub struct Walk<'a, S: Scan, V: View> {
    pub scan: S,
    pub below: &'a V,
    ghost short: { (length (text_at V.Meaning below.now) ≤ 1073741824) × (length (text_by (S.Scan.transducer scan) (text_at V.Meaning below.now)) ≤ 1073741824) },
}

// What stands at a place of the text above: the place below, and the code, 0 at the end.
// stays: no Option, since the one reader that takes the code asks for a place before the end
#[derive(Clone, Copy)]
pub struct Spot {
    pub under: u32,
    pub code: u32,
}

impl<'a, S: Scan, V: View> Walk<'a, S, V> {
    // How many codes are shown of the first `l` codes below: the first place that lies at or behind `l`.
    #[tactic(auto, using(crate::proofs::Walks::steps))]
    pub fn reach(&self, l: u32) -> u32
        requires sound { V.Meaning.sound self.now.below.now }
        requires within { l ≤ length (text_at V.Meaning self.now.below.now) }
        ensures shown { result ≡ reach_by (S.Scan.transducer self.now.scan) (text_at V.Meaning self.now.below.now) l }
        ensures first { result ≡ first_by (S.Scan.transducer self.now.scan) (text_at V.Meaning self.now.below.now) l }
    {
        let mut reach = 0;
        let mut state = self.scan.start(self.below);
        // stays: a state goes with it, and a `fold` over places is no plainer
        for i in 0..l {
            let code = code_at(self.below, i);
            reach += self.scan.size(state, code);
            state = self.scan.next(state, code, self.below, i);
        }
        reach
    }

    // How many codes are shown of all of it.
    #[tactic(auto, using(lines::proofs::Scanning::reach_all))]
    pub fn len(&self) -> u32
        requires { V.Meaning.sound self.now.below.now }
        ensures { result ≡ length (text_by (S.Scan.transducer self.now.scan) (text_at V.Meaning self.now.below.now)) }
    {
        self.reach(self.below.len())
    }

    // What stands at the place `u` of the text above.
    #[tactic(auto, using(crate::proofs::Walks::steps))]
    pub fn seek(&self, u: u32) -> Spot
        requires sound { V.Meaning.sound self.now.below.now }
        requires within { u ≤ length (text_by (S.Scan.transducer self.now.scan) (text_at V.Meaning self.now.below.now)) }
        ensures under { result.under ≡ place_by (S.Scan.transducer self.now.scan) (text_at V.Meaning self.now.below.now) u }
        ensures code { result.code ≡ slice_index (text_by (S.Scan.transducer self.now.scan) (text_at V.Meaning self.now.below.now)) u }
    {
        let len = self.below.len();
        let mut reach = 0;
        let mut state = self.scan.start(self.below);
        // stays: a loop of its own by index; a step shared with `reach` would ask for the next state where the walk ends
        for i in 0..len {
            let code = code_at(self.below, i);
            let size = self.scan.size(state, code);
            if u - reach < size {
                return Spot {
                    under: i,
                    code: self.scan.shown(state, code, u - reach),
                };
            }
            reach += size;
            state = self.scan.next(state, code, self.below, i);
        }
        Spot {
            under: len,
            code: 0,
        }
    }

    // The greatest place that lies at or before the place `l` below.
    #[tactic(auto, using(crate::proofs::Walks::ends))]
    pub fn last(&self, l: u32) -> u32
        requires sound { V.Meaning.sound self.now.below.now }
        requires within { l ≤ length (text_at V.Meaning self.now.below.now) }
        ensures { result ≡ last_by (S.Scan.transducer self.now.scan) (text_at V.Meaning self.now.below.now) l }
    {
        if l < self.below.len() {
            self.reach(l + 1) - 1
        } else {
            self.reach(l)
        }
    }

    // The change of the text above, which had `len` codes, when the one below has changed by `change` and is shown anew
    // from its place `from` on to the end of the line that the change ends in.
    #[tactic(auto, using(lines::proofs::Lining::line_end_fits))]
    pub fn raise(&self, len: u32, from: u32, change: Change) -> Change
        requires sound { V.Meaning.sound self.now.below.now }
        requires within { change.start + change.new ≤ length (text_at V.Meaning self.now.below.now) }
        requires before { from ≤ length (text_at V.Meaning self.now.below.now) }
        ensures { ByNew (S.Scan.transducer self.now.scan) (text_at V.Meaning self.now.below.now) change len (reach_by (S.Scan.transducer self.now.scan) (text_at V.Meaning self.now.below.now) from) result }
    {
        let end = self.reach(line_end(self.below, change.start + change.new));
        let behind = self.len().saturating_sub(end);
        let start = self.reach(from);
        Change {
            start,
            old: len.saturating_sub(behind).saturating_sub(start),
            new: end.saturating_sub(start),
        }
    }
}
