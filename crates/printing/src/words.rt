// Texts as codes, and words of a document.
ghost use Rattle.std.specs.Prelude.{IfOk};
ghost use Rattle.codes.specs.Texts.{ReadAs};
ghost use Rattle.printing.specs.Words.{PlaceOf};

use anyhow::{Context, anyhow};
use buffer::buffer::Buffer;
use codes::text::decode_text;
use document::find::find;
use std::alloc::Global;

// The codes of `text`, or an error where memory runs out. One pass.
pub fn codes_of(heap: Global, text: &str) -> anyhow::Result<Vec<u32>>
    ensures { IfOk result (λ codes. ReadAs text.now codes.items) }
{
    decode_text(heap, text.as_bytes()).map_err(|_| anyhow!("no memory for a text"))
}

// The first place at which `document` has `word`, or an error where it has none. Costs what the search costs.
pub fn place_of<B: Buffer>(heap: Global, document: &B, word: &str) -> anyhow::Result<u32>
    ensures { IfOk result (PlaceOf (B.Buffer.doc document.now) word.now) }
{
    let codes = codes_of(heap, word)?;
    find(document, &codes, 0).context("the part program lacks a word")
}
