// Up to 64 records of one kind, in the order of their places.
ghost use Rattle.std.specs.Prelude.{◌≡◌, ◌≤◌, ◌&&◌, [], ◌∷◌, length, OnOk, OnErr, IfErr, is_ok, IfNone, is_some, slice_get, insert, remove, nat_le, nat_lt};
ghost use Rattle.std.specs.List.{prefix_len, AllByRecursion};
ghost use Rattle.places.specs.Marks.{past, followed};
ghost use Rattle.tables.specs.Records.{Room};
ghost use Rattle.tables.specs.Tables.{records_of, marks_of};

use crate::record::Record;
use places::change::Change;

// How many records a table keeps.
const MOST_RECORDS: usize = 64;

// The first `count` of the items are the records, all 64 where `count` is more, so that every value means a table.
// stays: items and a count, since an `ArrayVec` asks a `Default` of each record, and records are asked no more than `Copy`
#[derive(Drop)]
pub struct Table<R> {
    items: [R; MOST_RECORDS],
    count: usize,
}

impl<R: Record> Table<R> {
    // A table with no records; `filler` stands where none is kept. Constant time.
    pub fn new(filler: R) -> Table<R>
        ensures { marks_of R.Record.mark result ≡ [] }
    {
        Table {
            items: [filler; MOST_RECORDS],
            count: 0,
        }
    }

    // The records in their order, at most 64. Constant time.
    pub fn records(&self) -> &[R]
        ensures value { result.now ≡ records_of self.now }
        ensures few { length result.now ≤ 64 }
    {
        &self.items[..self.count.min(MOST_RECORDS)]
    }

    // How many records are kept. Constant time.
    pub fn len(&self) -> usize
        ensures value { result ≡ length (records_of self.now) }
        ensures few { result ≤ 64 }
    {
        self.count.min(MOST_RECORDS)
    }

    // Puts `record` before the one at `k`, or at the end. Handed back, and nothing changed, where 64 are kept already or
    // fewer than `k` are. Moves the records behind it.
    pub fn insert(&mut self, k: usize, record: R) -> Result<(), R>
        ensures made { is_ok result ≡ (nat_lt (length (records_of self.old)) 64 && nat_le k (length (records_of self.old))) }
        ensures ok { OnOk result (records_of self.new ≡ insert (records_of self.old) k «record») }
        ensures err { OnErr result (self.new ≡ self.old) }
        ensures handed_back { IfErr result (λ refused. refused ≡ «record») }
    {
        let count = self.len();
        if count == MOST_RECORDS || k > count {
            return Err(record);
        }
        self.items.copy_within(k..count, k + 1);
        self.items[k] = record;
        self.count = count + 1;
        Ok(())
    }

    // Takes the record at `k` out; nothing is changed where there is none. Moves the records behind it.
    pub fn remove(&mut self, k: usize) -> Option<R>
        ensures made { is_some result ≡ nat_lt k (length (records_of self.old)) }
        ensures value { result ≡ slice_get (records_of self.old) k }
        ensures records { records_of self.new ≡ remove (records_of self.old) k }
        ensures none { IfNone result (self.new ≡ self.old) }
    {
        let record = *self.records().get(k)?;
        let count = self.len();
        self.items.copy_within(k + 1..count, k);
        self.count = count - 1;
        Some(record)
    }

    // Lets every record follow a change of the text below, and drops those that do not live on. One pass.
    pub fn follow(&mut self, change: Change)
        requires { AllByRecursion (Room change) (marks_of R.Record.mark self.old) }
        ensures followed { marks_of R.Record.mark self.new ≡ followed change.start change.old change.new (marks_of R.Record.mark self.old) }
        ensures fewer { length (records_of self.new) ≤ length (records_of self.old) }
    {
        let count = self.len();
        let mut kept = 0;
        // stays: each record is lent to the function that moves it; a slice has no `retain`
        for i in 0..count {
            if self.items[i].follow(change) {
                self.items[kept] = self.items[i];
                kept += 1;
            }
        }
        self.count = kept;
    }

    // How many records from the front on end at or before `place`. One pass.
    // stays: here and in the next two, counted from the front on, over 64 records at most; `partition_point` would ask that
    // the order is known
    pub fn ended(&self, place: u32) -> usize
        ensures { result ≡ prefix_len (λ m. nat_le (past m) place) (marks_of R.Record.mark self.now) }
    {
        self.records()
            .iter()
            .take_while(|record| record.past() <= place)
            .count()
    }

    // How many records from the front on begin before `place`. One pass.
    pub fn begun(&self, place: u32) -> usize
        ensures { result ≡ prefix_len (λ m. nat_lt m.at place) (marks_of R.Record.mark self.now) }
    {
        self.records()
            .iter()
            .take_while(|record| record.place() < place)
            .count()
    }

    // How many records from the front on begin at or before `place`. One pass.
    pub fn reached(&self, place: u32) -> usize
        ensures { result ≡ prefix_len (λ m. nat_le m.at place) (marks_of R.Record.mark self.now) }
    {
        self.records()
            .iter()
            .take_while(|record| record.place() <= place)
            .count()
    }
}

#[cfg(test)]
mod tests {
    use super::*;
    use crate::fold::Fold;
    use crate::hint::Hint;
    use std::test::Fail;

    // Where the record at `k` stands, or 99 where there is none.
    fn place<R: Record>(table: &Table<R>, k: usize) -> u32 {
        table.records().get(k).map_or(99, |record| record.place())
    }

    // Three records in a table that has followed a change.
    fn after<R: Record>(a: R, b: R, c: R, change: Change) -> Table<R>
        requires { AllByRecursion (λ x. Room change (R.Record.mark x)) (a ∷ b ∷ c ∷ []) }
    {
        let mut table = Table::new(a);
        let _ = table.insert(0, c);
        let _ = table.insert(0, b);
        let _ = table.insert(0, a);
        table.follow(change);
        table
    }

    const CHANGE: Change = Change {
        start: 4,
        old: 3,
        new: 5,
    };

    #[test]
    fn folds_follow(rt: HostRuntime) {
        // one that ends where the change begins stays, one inside it is dropped, one that begins behind it moves
        let table = after(Fold::new(2, 4), Fold::new(5, 6), Fold::new(7, 9), CHANGE);
        assert_eq!(rt; table.len(), 2);
        assert_eq!(rt; place(&table, 0), 2);
        assert_eq!(rt; place(&table, 1), 9);
        // those that reach into the change or out of it are dropped
        let table = after(Fold::new(2, 5), Fold::new(6, 8), Fold::new(8, 9), CHANGE);
        assert_eq!(rt; table.len(), 1);
        assert_eq!(rt; place(&table, 0), 10);
    }

    #[test]
    fn hints_follow(rt: HostRuntime) -> Result<(), Fail> {
        // one at either end of the change, where it stays or moves, and one inside it, which is dropped
        match (
            Hint::new(4, &[97]),
            Hint::new(5, &[98]),
            Hint::new(7, &[99]),
        ) {
            (Some(a), Some(b), Some(c)) => {
                let table = after(a, b, c, CHANGE);
                assert_eq!(rt; table.len(), 2);
                assert_eq!(rt; place(&table, 0), 4);
                assert_eq!(rt; place(&table, 1), 9);
                Ok(())
            }
            _ => Err(Fail::new("three hints")),
        }
    }

    #[test]
    fn inserts_and_removes(rt: HostRuntime) {
        let mut table = Table::new(Fold::new(0, 1));
        assert!(rt; table.remove(0).is_none());
        assert!(rt; table.insert(1, Fold::new(5, 6)).is_err());
        assert!(rt; table.insert(0, Fold::new(5, 6)).is_ok());
        assert!(rt; table.insert(0, Fold::new(3, 4)).is_ok());
        assert!(rt; table.insert(2, Fold::new(7, 8)).is_ok());
        assert_eq!(rt; table.ended(6), 2);
        assert_eq!(rt; table.begun(5), 1);
        assert_eq!(rt; table.reached(5), 2);
        assert!(rt; table.remove(0).is_some());
        assert!(rt; table.remove(1).is_some());
        assert_eq!(rt; place(&table, 0), 5);
        for at in 1..64 {
            assert!(rt; table.insert(1, Fold::new(at, at)).is_ok());
        }
        assert!(rt; table.insert(0, Fold::new(1, 2)).is_err());
        assert_eq!(rt; table.len(), 64);
        assert_eq!(rt; place(&table, 63), 1);
    }
}
