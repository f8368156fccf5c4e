// Running sums over records, one text for every kind of record that has a measure.
ghost use Rattle.std.specs.Prelude.{◌≡◌, ℕ, ◌*◌, ◌≤◌, length};
ghost use Rattle.codes.specs.Sums.{running_sum, passing_index};

// A record that stands for a number of codes.
pub trait Measured {
    ghost size: { Self → ℕ };

    fn measure(&self) -> u32
        ensures { result ≡ size self.now };
}

// A record of a list, and the sum of the measures before it.
// stays: no Option, since where no record passes the number of all and their sum are the answer
#[derive(Clone, Copy, PartialEq, Eq, Debug)]
pub struct Passing {
    pub index: usize,
    pub before: u64,
}

// The sum of the measures of the first `n` records, of all where there are fewer. One pass.
// No list is long enough for the sum to pass 128 bits.
pub fn running_sum<R: Measured>(records: &[R], n: usize) -> u128
    ensures value { result ≡ running_sum R.Measured.size records.now n }
    ensures bound { result ≤ 4294967295 * length records.now }
{
    // stays: a loop, since of the `sum` of a chain neither the bound nor that it fits was proved
    let mut sum = 0u128;
    for record in records.iter().take(n) {
        sum += u128::from(record.measure());
    }
    sum
}

// The first record at which the running sum, its own measure included, passes `limit`, with the sum before it;
// where there is none, the number of records and the sum of all. One pass.
pub fn first_passing<R: Measured>(records: &[R], limit: u64) -> Passing
    ensures index { result.index ≡ passing_index R.Measured.size records.now limit }
    ensures before { result.before ≡ running_sum R.Measured.size records.now result.index }
{
    let mut left = limit;
    for (index, record) in records.iter().enumerate() {
        let measure = u64::from(record.measure());
        if measure > left {
            return Passing {
                index,
                before: limit - left,
            };
        }
        left -= measure;
    }
    Passing {
        index: records.len(),
        before: limit - left,
    }
}

#[cfg(test)]
mod tests {
    use super::*;

    #[derive(Clone, Copy)]
    struct Stretch {
        len: u32,
    }

    impl Measured for Stretch {
        ghost size = { λ stretch. stretch.len };

        fn measure(&self) -> u32 {
            self.len
        }
    }

    const STRETCHES: [Stretch; 4] = [
        Stretch { len: 3 },
        Stretch { len: 0 },
        Stretch { len: 2 },
        Stretch { len: 5 },
    ];

    const LARGEST: [Stretch; 3] = [Stretch { len: 4_294_967_295 }; 3];

    #[test]
    fn sums(rt: HostRuntime) {
        for (n, sum) in &[(0, 0), (1, 3), (2, 3), (3, 5), (4, 10), (5, 10)] {
            assert_eq!(rt; running_sum(&STRETCHES, *n), *sum);
        }
        assert_eq!(rt; running_sum(&LARGEST, 3), 12_884_901_885);
    }

    #[test]
    fn passes(rt: HostRuntime) {
        // a limit, the record that passes it, and the sum before that
        let table = [
            (0, 0, 0),
            (2, 0, 0),
            (3, 2, 3),
            (4, 2, 3),
            (5, 3, 5),
            (9, 3, 5),
            (10, 4, 10),
            (11, 4, 10),
        ];
        for (limit, index, before) in &table {
            assert_eq!(rt;
                first_passing(&STRETCHES, *limit),
                Passing {
                    index: *index,
                    before: *before,
                }
            );
        }
    }

    #[test]
    fn no_records(rt: HostRuntime) {
        let none: [Stretch; 0] = [];
        assert_eq!(rt; running_sum(&none, 1), 0);
        assert_eq!(rt;
            first_passing(&none, 0),
            Passing {
                index: 0,
                before: 0,
            }
        );
    }
}
