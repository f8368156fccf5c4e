// A record of a layer that marks places of the text below: a hint or a fold.
ghost use Rattle.std.specs.Prelude.{◌≡◌, ℕ, ◌<◌, ◌≤◌, List, map, length, take, slice_index};
ghost use Rattle.places.specs.Marks.{Mark, past as past_of, shown_in, taken_in};
ghost use Rattle.tables.specs.Records.{lives, sent, Room};

use places::change::Change;

pub trait Record: Copy {
    // what it means
    ghost mark: { Self → Mark };

    // Where it stands in the text below. Constant time.
    fn place(&self) -> u32
        ensures { result ≡ (mark self.now).at };

    // The place behind the codes it takes. Constant time.
    fn past(&self) -> u32
        ensures { result ≡ past_of (mark self.now) };

    // How many codes it shows. Constant time.
    fn shown(&self) -> u32
        ensures { result ≡ length (mark self.now).shows };

    // The code at `i` of those it shows. Constant time.
    fn code(&self, i: u32) -> u32
        requires { i < length (mark self.now).shows }
        ensures { result ≡ slice_index (mark self.now).shows i };

    // Follows a change of the text below: false where it is dropped. Promised where no number passes 32 bits. Constant
    // time.
    // stays: a bool, since whether a record lives on is a question of yes or no
    fn follow(&mut self, change: Change) -> bool
        ensures lives { Room change (mark self.old) → result ≡ lives change (mark self.old) }
        ensures sent { Room change (mark self.old) → mark self.new ≡ sent change (mark self.old) };

    // How many codes the first `n` of `records` show together, and how many they take. One pass.
    // stays: each kind has its own, since all places go through `running_sum`, which takes one measure a record: of a hint
    // what it shows, of a fold what it takes
    fn shown_before(records: &[Self], n: usize) -> u64
        requires { length records.now ≤ 64 }
        ensures { result ≡ shown_in (map mark (take n records.now)) };

    fn taken_before(records: &[Self], n: usize) -> u64
        requires { length records.now ≤ 64 }
        ensures { result ≡ taken_in (map mark (take n records.now)) };
}
