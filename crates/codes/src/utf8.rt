// UTF-8 as RFC 3629 has it, code by code, both ways.
ghost use Rattle.std.specs.Prelude.{◌≡◌, ℕ, ◌≤◌, true, false, List, ◌++◌, length, take, IfSome, MatchOption};
ghost use Rattle.std.proofs.Math.Utf8.{scalar as is_scalar, encode as bytes_of};
ghost use Rattle.codes.specs.Encoded.{IsPadded, cells_of};
ghost use Rattle.codes.specs.Utf8.{decoded, Tells, is_lead, lead_bits, tail_count, tail_low, tail_high, tail_of};

use thiserror::Error;

// A code that bytes begin with, and the number of its bytes.
#[derive(Clone, Copy, PartialEq, Eq, Debug)]
pub struct Decoded {
    pub code: u32,
    pub len: usize,
}

// Why bytes begin with no code.
#[derive(Clone, Copy, PartialEq, Eq, Debug, Error)]
pub enum DecodeFault {
    // the index of the first byte that no text has there
    #[error("no text has the byte at index {at} there")]
    Bad { at: usize },
    #[error("the bytes end inside a code")]
    Cut,
    #[error("there are no bytes")]
    End,
}

// What a lead byte tells of its code: the bits it holds, how many bytes follow, and which the first of them may be.
#[derive(Clone, Copy)]
struct Lead {
    bits: u32,
    count: usize,
    low: u8,
    high: u8,
    ghost small: { bits ≤ 127 },
    ghost few: { count ≤ 3 },
    ghost above: { 128 ≤ low },
    ghost below: { high ≤ 191 },
}

// The lead that `byte` is, if a code can begin with it.
fn lead_of(byte: u8) -> Option<Lead>
    ensures { MatchOption result (is_lead byte ≡ false) (λ l. (is_lead byte ≡ true) × (l.bits ≡ lead_bits byte) × (l.count ≡ tail_count byte) × (l.low ≡ tail_low byte) × (l.high ≡ tail_high byte)) }
{
    let (bits, count, low, high) = match byte {
        0x00..=0x7f => (byte, 0, 0x80, 0xbf),
        0xc2..=0xdf => (byte - 0xc0, 1, 0x80, 0xbf),
        0xe0 => (0, 2, 0xa0, 0xbf),
        0xed => (0xd, 2, 0x80, 0x9f),
        0xe1..=0xef => (byte - 0xe0, 2, 0x80, 0xbf),
        0xf0 => (0, 3, 0x90, 0xbf),
        0xf4 => (4, 3, 0x80, 0x8f),
        0xf1..=0xf3 => (byte - 0xf0, 3, 0x80, 0xbf),
        _ => return None,
    };
    Some(Lead {
        bits: u32::from(bits),
        count,
        low,
        high,
    })
}

// The code that `lead` and the bytes behind it make.
fn tail(lead: Lead, bytes: &[u8]) -> Result<Decoded, DecodeFault>
    ensures { result ≡ tail_of lead.count lead.low lead.high lead.bits 1 bytes.now }
{
    let mut code = lead.bits;
    let mut allowed = lead.low..=lead.high;
    for (i, byte) in bytes.iter().take(lead.count).enumerate() {
        if !allowed.contains(byte) {
            return Err(DecodeFault::Bad { at: i + 1 });
        }
        code = code * 64 + u32::from(*byte - 0x80);
        allowed = 0x80..=0xbf;
    }
    if bytes.len() < lead.count {
        return Err(DecodeFault::Cut);
    }
    Ok(Decoded {
        code,
        len: lead.count + 1,
    })
}

// The code at the front of `bytes` with its length; or the first byte that no text has there, or that the bytes end
// inside a code, or that there are none. Constant time.
pub fn decode(bytes: &[u8]) -> Result<Decoded, DecodeFault>
    ensures value { result ≡ decoded bytes.now }
    ensures tells { Tells bytes.now result }
{
    let [first, rest @ ..] = bytes else {
        return Err(DecodeFault::End);
    };
    let lead = lead_of(*first).ok_or(DecodeFault::Bad { at: 0 })?;
    tail(lead, rest)
}

// The one to four bytes of a code.
// stays: four cells and a length inside, which clauses name; an `ArrayVec` is not `Copy`, and a struct with an `impl Model` is
// not copied by value or carried beside a `&str` by `?`
#[derive(Clone, Copy)]
pub struct Encoded {
    bytes: [u8; 4],
    len: usize,
    ghost fits: { len ≤ 4 },
    ghost padded: { IsPadded bytes len },
}

impl Encoded {
    // The bytes themselves. Constant time.
    pub fn as_slice(&self) -> &[u8]
        ensures value { result.now ≡ take self.now.len self.now.bytes }
        ensures few { length result.now ≤ 4 }
        ensures cells { cells_of result.now ≡ (self.now.bytes, self.now.len) }
    {
        &self.bytes[0..self.len]
    }
}

// The bytes of `code`, which read back are that code again, whatever stands behind them; none for a surrogate and for
// what lies past the last code of Unicode. Constant time.
pub fn encode(code: u32) -> Option<Encoded>
    ensures value { MatchOption result (is_scalar code ≡ false) (λ e. (is_scalar code ≡ true) × (take e.len e.bytes ≡ bytes_of code)) }
    ensures back { IfSome result (λ e. (rest : List ℕ) → decoded (take e.len e.bytes ++ rest) ≡ Ok (record { code = code; len = e.len })) }
{
    let second = (0x80 + code / 4096 % 64) as u8;
    let third = (0x80 + code / 64 % 64) as u8;
    let last = (0x80 + code % 64) as u8;
    match code {
        0..=0x7f => Some(Encoded {
            bytes: [code as u8, 0, 0, 0],
            len: 1,
        }),
        0x80..=0x7ff => Some(Encoded {
            bytes: [(0xc0 + code / 64) as u8, last, 0, 0],
            len: 2,
        }),
        0xd800..=0xdfff => None,
        0x800..=0xffff => Some(Encoded {
            bytes: [(0xe0 + code / 4096) as u8, third, last, 0],
            len: 3,
        }),
        0x1_0000..=0x10_ffff => Some(Encoded {
            bytes: [(0xf0 + code / 262_144) as u8, second, third, last],
            len: 4,
        }),
        _ => None,
    }
}

#[cfg(test)]
mod tests {
    use super::*;
    use std::test::Fail;

    // The first and the last code of each length, and those beside the surrogates.
    #[test]
    fn bytes_of_codes(rt: HostRuntime) -> Result<(), Fail> {
        let table: [(u32, &[u8]); 10] = [
            (0, &[0x00]),
            (0x7f, &[0x7f]),
            (0x80, &[0xc2, 0x80]),
            (0x7ff, &[0xdf, 0xbf]),
            (0x800, &[0xe0, 0xa0, 0x80]),
            (0xd7ff, &[0xed, 0x9f, 0xbf]),
            (0xe000, &[0xee, 0x80, 0x80]),
            (0xffff, &[0xef, 0xbf, 0xbf]),
            (0x1_0000, &[0xf0, 0x90, 0x80, 0x80]),
            (0x10_ffff, &[0xf4, 0x8f, 0xbf, 0xbf]),
        ];
        for (code, bytes) in table {
            let Some(encoded) = encode(code) else {
                return Err(Fail::new("a code has bytes"));
            };
            assert_eq!(rt; encoded.as_slice(), bytes);
            let len = bytes.len();
            assert_eq!(rt; decode(bytes), Ok(Decoded { code, len }));
            for i in 1..len {
                assert_eq!(rt; decode(&bytes[0..i]), Err(DecodeFault::Cut));
            }
        }
        for code in [0xd800, 0xdfff, 0x11_0000, 0xffff_ffff] {
            assert!(rt; encode(code).is_none());
        }
        assert_eq!(rt; decode(&[]), Err(DecodeFault::End));
        Ok(())
    }

    // Bytes that no text begins with, and the index of the first that is wrong.
    #[test]
    fn bad_bytes(rt: HostRuntime) {
        let table: [(usize, &[u8]); 25] = [
            // a tail with no lead
            (0, &[0x80]),
            (0, &[0xbf, 0x80]),
            // longer than needed
            (0, &[0xc0, 0x80]),
            (0, &[0xc1, 0xbf]),
            (1, &[0xe0, 0x80, 0x80]),
            (1, &[0xe0, 0x9f, 0xbf]),
            (1, &[0xf0, 0x80, 0x80, 0x80]),
            (1, &[0xf0, 0x8f, 0xbf, 0xbf]),
            // surrogates
            (1, &[0xed, 0xa0, 0x80]),
            (1, &[0xed, 0xbf, 0xbf]),
            // past the last code
            (1, &[0xf4, 0x90, 0x80, 0x80]),
            (0, &[0xf5, 0x80, 0x80, 0x80]),
            // leads of five and six bytes, and no leads at all
            (0, &[0xf8, 0x88, 0x80, 0x80, 0x80]),
            (0, &[0xfc, 0x84, 0x80, 0x80, 0x80, 0x80]),
            (0, &[0xfe]),
            (0, &[0xff]),
            // a byte that is no tail, at each index, just below and just above the tails
            (1, &[0xc2, 0x7f]),
            (1, &[0xdf, 0xc0]),
            (1, &[0xe1, 0x7f, 0x80]),
            (2, &[0xe1, 0x80, 0x7f]),
            (2, &[0xef, 0xbf, 0xc0]),
            (1, &[0xf1, 0xc0, 0x80, 0x80]),
            (2, &[0xf1, 0x80, 0xc0, 0x80]),
            (3, &[0xf1, 0x80, 0x80, 0x7f]),
            (3, &[0xf4, 0x8f, 0xbf, 0xc0]),
        ];
        for (at, bytes) in table {
            assert_eq!(rt; decode(bytes), Err(DecodeFault::Bad { at }));
        }
    }
}
