// The lines of a document.
ghost use Rattle.std.specs.Prelude.{◌≡◌, ◌<◌, ◌≤◌, length, MatchResult};
ghost use Rattle.buffer.specs.Refusals.{refusal_of, told};
ghost use Rattle.document.specs.Lines.{line_of, line_end};

use crate::find::has_code;
use buffer::buffer::Buffer;
use buffer::fault::BufferFault;
use codes::code::NEWLINE;

// A line: its number, counted from 1, and the places of its start and its end.
#[derive(Clone, Copy, PartialEq, Eq, Debug)]
pub struct Line {
    pub number: u32,
    pub start: u32,
    pub end: u32,
}

// The end of the line that holds `place`.
fn line_end<B: Buffer>(buffer: &B, place: u32) -> u32
    requires { place ≤ length (B.Buffer.doc buffer.now) }
    ensures { result ≡ line_end (B.Buffer.doc buffer.now) place }
{
    let len = buffer.len();
    (place..len)
        .find(|at| has_code(buffer, *at, NEWLINE))
        .unwrap_or(len)
}

// The line that holds `place`; a place past the end is refused with 1, spot `place`. Costs the codes up to its end.
pub fn line_at<B: Buffer>(buffer: &B, place: u32) -> Result<Line, BufferFault>
    ensures { MatchResult result (λ l. (place ≤ length (B.Buffer.doc buffer.now)) × (l ≡ line_of (B.Buffer.doc buffer.now) place)) (λ f. (length (B.Buffer.doc buffer.now) < place) × (refusal_of f ≡ told 1 place)) }
{
    if place > buffer.len() {
        return Err(BufferFault::PastEnd {
            place: u64::from(place),
        });
    }
    let mut number = 1;
    let mut start = 0;
    // stays: it counts and keeps the last start, and a chain with `?` is no plainer
    for i in 0..place {
        if buffer.code(i)? == NEWLINE {
            number += 1;
            start = i + 1;
        }
    }
    Ok(Line {
        number,
        start,
        end: line_end(buffer, place),
    })
}
