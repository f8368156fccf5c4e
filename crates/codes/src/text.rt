// Whole texts: bytes turned into codes, and codes into bytes.
ghost use Rattle.std.specs.Prelude.{◌≡◌, true, string_bytes, MatchResult};
ghost use Rattle.std.proofs.Math.Utf8.{scalars, encodes};
ghost use Rattle.codes.specs.Texts.{ReadAs, Unread, Unwritten};
ghost use Rattle.codes.specs.declared.text.TextFault.TheVariants.{NoMemory};

use crate::utf8::{DecodeFault, Decoded, decode};
use std::alloc::{AllocError, AllocFailed, Global};
use thiserror::Error;

// Why a text is not turned: all that can stand in the way.
#[derive(Clone, Copy, PartialEq, Eq, Debug, Error)]
pub enum TextFault {
    // the index of the first byte that no text has there, or of the first number that is no code of Unicode
    #[error("the text is wrong or cut off at index {at}")]
    Bad { at: usize },
    #[error("out of memory")]
    NoMemory,
}

impl From<AllocError> for TextFault {
    ghost from_gives = { λ _ fault. fault ≡ NoMemory };

    fn from(_error: AllocError) -> TextFault {
        TextFault::NoMemory
    }
}

impl<T: Drop> From<AllocFailed<T>> for TextFault {
    ghost from_gives = { λ _ fault. fault ≡ NoMemory };

    fn from(_refused: AllocFailed<T>) -> TextFault {
        TextFault::NoMemory
    }
}

// The codes of `bytes`, which no other codes are written as; or the index of the first byte that no text has there,
// their number where they end inside a code. One pass.
pub fn decode_text(heap: Global, bytes: &[u8]) -> Result<Vec<u32>, TextFault>
    ensures { MatchResult result (λ codes. ReadAs bytes.now codes.items) (Unread bytes.now) }
{
    let mut codes = Vec::new(heap);
    let mut rest = bytes;
    loop {
        match decode(rest) {
            Ok(Decoded { code, len }) => {
                codes.push(code)?;
                rest = &rest[len..];
            }
            Err(DecodeFault::Bad { at }) => {
                return Err(TextFault::Bad {
                    at: bytes.len() - rest.len() + at,
                });
            }
            Err(DecodeFault::Cut) => return Err(TextFault::Bad { at: bytes.len() }),
            Err(DecodeFault::End) => return Ok(codes),
        }
    }
}

// The bytes of `codes` as a text; or the index of the first number that is no code of Unicode. One pass.
pub fn encode_text(heap: Global, codes: &[u32]) -> Result<String, TextFault>
    ensures { MatchResult result (λ text. (scalars codes.now ≡ true) × (string_bytes text ≡ encodes codes.now)) (Unwritten codes.now) }
{
    let mut text = String::new(heap);
    for (at, code) in codes.iter().enumerate() {
        let letter = char::from_u32(*code).ok_or(TextFault::Bad { at })?;
        text.push(letter)?;
    }
    Ok(text)
}

#[cfg(test)]
mod tests {
    use super::*;
    use std::test::Fail;

    #[test]
    fn round_trip(rt: HostRuntime) -> Result<(), Fail> {
        let codes = [97, 233, 8_943, 128_512];
        let text = encode_text(rt.alloc(), &codes)?;
        assert_eq!(rt; text.as_str(), "aé⋯😀");
        let back = decode_text(rt.alloc(), text.as_bytes())?;
        assert!(rt; back.as_slice() == codes.as_slice());
        Ok(())
    }

    #[test]
    fn bad_bytes(rt: HostRuntime) {
        let table: [(&[u8], usize); 5] = [
            (&[97, 255], 1),
            (&[192, 128], 0),
            (&[97, 237, 160, 128], 2),
            (&[97, 226, 139], 3),
            (&[240, 159, 152, 97], 3),
        ];
        for (bytes, at) in &table {
            assert_eq!(rt;
                decode_text(rt.alloc(), bytes).err(),
                Some(TextFault::Bad { at: *at })
            );
        }
    }

    #[test]
    fn bad_codes(rt: HostRuntime) {
        for code in &[55_296, 57_343, 1_114_112] {
            assert_eq!(rt;
                encode_text(rt.alloc(), &[97, *code, 98]).err(),
                Some(TextFault::Bad { at: 1 })
            );
        }
    }

    #[test]
    fn messages(rt: HostRuntime) -> Result<(), Fail> {
        let bad = format!(in rt.alloc(); "{}", TextFault::Bad { at: 3 })?;
        assert_eq!(rt; bad.as_str(), "the text is wrong or cut off at index 3");
        let full = format!(in rt.alloc(); "{}", TextFault::NoMemory)?;
        assert_eq!(rt; full.as_str(), "out of memory");
        Ok(())
    }
}
