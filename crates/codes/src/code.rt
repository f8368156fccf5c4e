// A code is a number of 32 bits. A text is a list of codes; places lie between them.
ghost use Rattle.std.specs.Prelude.{◌≡◌};
ghost use Rattle.std.specs.List.{prefix_len};
ghost use Rattle.codes.specs.Codes.{is_document_code, is_soft_break, is_placeholder, is_row_end};

pub const TAB: u32 = 9;

pub const NEWLINE: u32 = 10;

pub const SPACE: u32 = 32;

// What a fold shows for the codes it hides, U+22EF.
pub const PLACEHOLDER: u32 = 8_943;

// The row end that soft wrap puts in: one past the last code of Unicode, so that no document holds it.
pub const SOFT_BREAK: u32 = 1_114_112;

// Whether a document may hold `code`: tab, newline, 32 to 126, 160 to 55,295, 57,344 to 1,114,111. Constant time.
pub fn is_document_code(code: u32) -> bool
    ensures { result ≡ is_document_code code }
{
    matches!(code, 9..=10 | 32..=126 | 160..=55_295 | 57_344..=1_114_111)
}

// Whether `code` is the soft break. Constant time.
pub fn is_soft_break(code: u32) -> bool
    ensures { result ≡ is_soft_break code }
{
    code == SOFT_BREAK
}

// Whether `code` is what a fold shows. Constant time.
pub fn is_placeholder(code: u32) -> bool
    ensures { result ≡ is_placeholder code }
{
    code == PLACEHOLDER
}

// Whether `code` ends a row: a newline or a soft break. Constant time.
pub fn is_row_end(code: u32) -> bool
    ensures { result ≡ is_row_end code }
{
    code == NEWLINE || is_soft_break(code)
}

// How many codes from the front of `codes` on a document may hold: the index of the first one it may not,
// or their number. One pass.
pub fn document_front(codes: &[u32]) -> usize
    ensures { result ≡ prefix_len is_document_code codes.now }
{
    codes
        .iter()
        .take_while(|code| is_document_code(**code))
        .count()
}

#[cfg(test)]
mod tests {
    use super::*;

    // A code, whether a document may hold it, and whether it ends a row.
    const CODES: [(u32, bool, bool); 18] = [
        (8, false, false),
        (9, true, false),
        (10, true, true),
        (11, false, false),
        (31, false, false),
        (32, true, false),
        (126, true, false),
        (127, false, false),
        (159, false, false),
        (160, true, false),
        (8_943, true, false),
        (55_295, true, false),
        (55_296, false, false),
        (57_343, false, false),
        (57_344, true, false),
        (1_114_111, true, false),
        (1_114_112, false, true),
        (1_114_113, false, false),
    ];

    #[test]
    fn codes(rt: HostRuntime) {
        for (code, held, ends) in &CODES {
            assert_eq!(rt; is_document_code(*code), *held);
            assert_eq!(rt; is_row_end(*code), *ends);
            assert_eq!(rt; is_soft_break(*code), *code == 1_114_112);
            assert_eq!(rt; is_placeholder(*code), *code == 8_943);
        }
    }

    #[test]
    fn fronts(rt: HostRuntime) {
        assert_eq!(rt; document_front(&[]), 0);
        assert_eq!(rt; document_front(&[13]), 0);
        assert_eq!(rt; document_front(&[97, 10, 13, 98, 13]), 2);
        assert_eq!(rt; document_front(&[97, 10]), 2);
    }
}
