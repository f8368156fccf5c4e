// Finding and replacing a word.
ghost use Rattle.std.specs.Prelude.{◌≡◌, ◌<◌, length, slice_index, Decides};
ghost use Rattle.document.specs.Words.{StandsAt, FirstAt};

use buffer::buffer::Buffer;

// Whether the code at index `at` is there and is `code`.
pub(crate) fn has_code<B: Buffer>(buffer: &B, at: u32, code: u32) -> bool
    ensures { Decides result ((at < length (B.Buffer.doc buffer.now)) × (slice_index (B.Buffer.doc buffer.now) at ≡ code)) }
{
    buffer.code(at) == Ok(code)
}

// Whether `word` stands at `place`.
fn stands_at<B: Buffer>(buffer: &B, word: &[u32], place: u32) -> bool
    ensures { Decides result (StandsAt (B.Buffer.doc buffer.now) word.now place) }
{
    let len = buffer.len();
    if place > len || word.len() > (len - place) as usize {
        return false;
    }
    let Some((first, rest)) = word.split_first() else {
        return true;
    };
    // the first code by itself, since most places differ there, and a walk through the others costs more to begin
    has_code(buffer, place, *first)
        && rest
            .iter()
            .zip(place + 1..len)
            .all(|(code, at)| has_code(buffer, at, *code))
}

// The first place from `from` on at which `word` stands, none where it stands nowhere. Costs the places passed over
// times the codes of `word` at most.
pub fn find<B: Buffer>(buffer: &B, word: &[u32], from: u32) -> Option<u32>
    ensures { FirstAt (B.Buffer.doc buffer.now) word.now from result }
{
    (from..buffer.len() + 1).find(|place| stands_at(buffer, word, *place))
}
