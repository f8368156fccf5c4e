// Places of the text over a table of records, by running sums over the records.
ghost use Rattle.std.specs.Prelude.{◌≡◌, ℕ, ◌+◌, ◌<◌, ◌≤◌, List, map, length, take, nat_le};
ghost use Rattle.places.specs.Marks.{shown_in, taken_in};
ghost use Rattle.tables.specs.Tables.{records_of, marks_of};
ghost use Rattle.tables.specs.Placing.{text_over, first_over, last_over, end_of, Counted, Begun, Holds};

use crate::record::Record;
use crate::table::Table;

// What holds a place of the text above: the code at `offset` of the record at `index`, or a place of the text below.
#[derive(Clone, Copy)]
pub enum Held {
    Shown { index: usize, offset: u32 },
    Below { place: u32 },
}

// `base` and `more` without `less`. Constant time.
fn balance(base: u32, more: u64, less: u64) -> u32
    ensures { (n : ℕ) → n < 4294967296 → n + less ≡ base + more → result ≡ n }
{
    let sum = (u128::from(base) + u128::from(more)).saturating_sub(u128::from(less));
    u32::try_from(sum).unwrap_or(u32::MAX)
}

// The place behind what the last of `records` takes, or 0 where there are none. Constant time.
fn end_of<R: Record>(records: &[R]) -> u32
    ensures { result ≡ end_of 0 (map R.Record.mark records.now) }
{
    records.last().map_or(0, |record| record.past())
}

// How many codes the first records of a table show and take together.
#[derive(Clone, Copy)]
struct Passed {
    shown: u64,
    taken: u64,
}

impl Passed {
    // These records, the first ones of a table. One pass over them.
    fn new<R: Record>(records: &[R]) -> Passed
        requires { length records.now ≤ 64 }
        ensures shown { result.shown ≡ shown_in (map R.Record.mark records.now) }
        ensures taken { result.taken ≡ taken_in (map R.Record.mark records.now) }
    {
        Passed {
            shown: R::shown_before(records, records.len()),
            taken: R::taken_before(records, records.len()),
        }
    }

    // Whether the next record, which stands at `place`, shows its codes from the place `u` above on or before it.
    // Constant time.
    fn begins_by(&self, place: u32, u: u32) -> bool
        ensures { result ≡ nat_le (place + self.now.shown) (u + self.now.taken) }
    {
        u128::from(place) + u128::from(self.shown) <= u128::from(u) + u128::from(self.taken)
    }
}

// stays: in each contract from here on, what can be counted of the marks and a text, which no struct holds together

// The length of the text over one of `below` codes. One pass over the records.
pub fn length_over<R: Record>(table: &Table<R>, below: u32) -> u32
    ensures { (xs : List ℕ) → length xs ≡ below → Counted (marks_of R.Record.mark table.now) xs → result ≡ length (text_over (marks_of R.Record.mark table.now) xs) }
{
    let records = table.records();
    let all = Passed::new(records);
    balance(below, all.shown, all.taken)
}

// The least place over the place `l` below. One pass over the records.
pub fn first_over<R: Record>(table: &Table<R>, l: u32) -> u32
    ensures { (xs : List ℕ) → l ≤ length xs → Counted (marks_of R.Record.mark table.now) xs → result ≡ first_over (marks_of R.Record.mark table.now) xs l }
{
    let records = table.records();
    let n = table.begun(l).min(records.len());
    let front = &records[..n];
    let past = end_of(front);
    let passed = Passed::new(front);
    balance(past.max(l), passed.shown, passed.taken)
}

// The greatest place over the place `l` below. One pass over the records.
pub fn last_over<R: Record>(table: &Table<R>, l: u32) -> u32
    ensures { (xs : List ℕ) → l ≤ length xs → Counted (marks_of R.Record.mark table.now) xs → result ≡ last_over (marks_of R.Record.mark table.now) xs l }
{
    let records = table.records();
    let n = table.reached(l).min(records.len());
    let front = &records[..n];
    let past = end_of(front);
    let passed = Passed::new(front);
    if l < past {
        balance(past, passed.shown, passed.taken.saturating_add(1))
    } else {
        balance(l, passed.shown, passed.taken)
    }
}

// How many records from the front on show their codes from the place `u` above on or before it. One pass over the records
// for each of them at most.
fn begun_above<R: Record>(records: &[R], u: u32) -> usize
    requires { length records.now ≤ 64 }
    ensures few { result ≤ length records.now }
    ensures begun { Begun (map R.Record.mark records.now) u result }
{
    for (i, record) in records.iter().enumerate() {
        if !Passed::new(&records[..i]).begins_by(record.place(), u) {
            return i;
        }
    }
    records.len()
}

// What holds the place `u` of the text above. One pass over the records for each of them at most.
pub fn held_at<R: Record>(table: &Table<R>, u: u32) -> Held
    ensures { (xs : List ℕ) → u ≤ length (text_over (marks_of R.Record.mark table.now) xs) → Counted (marks_of R.Record.mark table.now) xs → Holds (marks_of R.Record.mark table.now) xs u result }
{
    let records = table.records();
    let n = begun_above(records, u);
    if let Some(index) = n.checked_sub(1) {
        let record = &records[index];
        let before = Passed::new(&records[..index]);
        let offset = u.saturating_sub(balance(record.place(), before.shown, before.taken));
        if offset < record.shown() {
            return Held::Shown { index, offset };
        }
    }
    let passed = Passed::new(&records[..n]);
    Held::Below {
        place: balance(u, passed.taken, passed.shown),
    }
}
