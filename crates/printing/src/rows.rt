// The rows of a view, one after the other.
ghost use Rattle.std.specs.Prelude.{◌≡◌, length, string_bytes, IfOk};
ghost use Rattle.std.proofs.Math.Utf8.{encodes};
ghost use Rattle.lines.specs.Rows.{rows};
ghost use Rattle.view.specs.Seen.{text_at};
ghost use Rattle.printing.specs.Visits.{VisitsRows};

use anyhow::anyhow;
use buffer::buffer::Buffer;
use codes::text::encode_text;
use document::lines::line_at;
use std::alloc::Global;
use view::rows::row_from;
use view::view::View;

// The text of `row`; the one error told is that memory ran out, since a text has codes of Unicode alone. One pass.
fn text_of(heap: Global, row: &[u32]) -> anyhow::Result<String>
    ensures { IfOk result (λ text. string_bytes text ≡ encodes row.now) }
{
    encode_text(heap, row).map_err(|_| anyhow!("no memory for a text"))
}

// Hands each row's start and text to `visit`, from the first row on, and answers how many rows there are; an error stops
// it. Costs a question for each code of the text and one for each row.
pub fn each_row<V: View, F: FnMut(u32, String) -> anyhow::Result<()>>(
    heap: Global,
    view: &V,
    mut visit: F,
) -> anyhow::Result<u32>
    requires callable { F.IsAlwaysCallable visit }
    requires sound { V.Meaning.sound view.now }
    ensures count { IfOk result (λ n. n ≡ length (rows (text_at V.Meaning view.now))) }
    ensures visits { IfOk result (λ _. VisitsRows F.step visit (rows (text_at V.Meaning view.now))) }
{
    let len = view.len();
    let mut start = 0;
    let mut count = 0;
    while start <= len {
        let row = row_from(heap, view, start)?;
        visit(start, text_of(heap, &row)?)?;
        start += row.len() as u32 + 1;
        count += 1;
    }
    Ok(count)
}

// Prints each row behind the number of the line of `document` that it begins in, and answers how many rows there are. Costs
// what `each_row` costs, and for each row the codes of the document up to the end of its line.
pub fn print_numbered<V: View, B: Buffer>(
    rt: &HostRuntime,
    view: &V,
    document: &B,
) -> anyhow::Result<u32>
    requires { V.Meaning.sound view.now }
    ensures { IfOk result (λ n. n ≡ length (rows (text_at V.Meaning view.now))) }
{
    each_row(rt.alloc(), view, |start, text| {
        let line = line_at(document, view.under(start)?)?;
        println!(rt; "{:>3} |{text}|", line.number)?;
        Ok(())
    })
}
