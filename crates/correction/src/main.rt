// A setter's correction: opens a part program in a gap buffer, replaces a wrong boring depth, and shows the line before
// and after; then tries an edit that no document takes, and shows that it changed nothing.
#![tactic(auto)]

use anyhow::{Context, anyhow};
use buffer::buffer::Buffer;
use buffer::fault::{BufferFault, Refusal};
use buffer::gap_buffer::{GapBuffer, open};
use codes::text::{decode_text, encode_text};
use document::find::find;
use document::lines::line_at;
use document::stretch::stretch;
use std::alloc::Global;
use std::io;

// The cells beyond the document, for what is typed.
const ROOM: usize = 512;

const PART_PROGRAM: &str = "%\n\
O4711 (FLANGE, BORE Ø32 H7)\n\
N10 G90 G54 G17\n\
N20 T12 M6\t(BORING BAR)\n\
N30 S850 M3\n\
N40 G0 X60. Y40.\n\
N50 G43 Z50. H12 M8\n\
N60 G98 G86 Z-54. R2. F68\t(DEPTH 45)\n\
N70 X120.\n\
N80 G80 G0 Z100. M9\n\
N90 M30\n\
%\n";

const WRONG: &str = "Z-54.";

const RIGHT: &str = "Z-45.";

// A depth with an escape in it, which no document holds.
const GARBLED: &str = "Z-4\u{1b}5.";

fn codes_of(heap: Global, text: &str) -> anyhow::Result<Vec<u32>> {
    decode_text(heap, text.as_bytes()).map_err(|_| anyhow!("no memory for a text"))
}

fn text_between(heap: Global, buffer: &GapBuffer, from: u32, to: u32) -> anyhow::Result<String> {
    let codes = stretch(heap, buffer, from, to).map_err(|_| anyhow!("no memory for a stretch"))?;
    encode_text(heap, &codes).map_err(|_| anyhow!("no memory for a line"))
}

fn show_line(rt: &HostRuntime, title: &str, buffer: &GapBuffer, place: u32) -> anyhow::Result<()> {
    let line = line_at(buffer, place)?;
    let text = text_between(rt.alloc(), buffer, line.start, line.end)?;
    println!(rt; "{title} line {}: {text}", line.number)?;
    Ok(())
}

fn show_refusal(rt: &HostRuntime, fault: BufferFault) -> io::Result<()> {
    println!(rt; "refused: {}", Refusal::from(fault))
}

// Replaces the first WRONG by RIGHT, and answers where it stood.
fn correct(rt: &HostRuntime, buffer: &mut GapBuffer) -> anyhow::Result<u32> {
    let wrong = codes_of(rt.alloc(), WRONG)?;
    let right = codes_of(rt.alloc(), RIGHT)?;
    let place = find(buffer, &wrong, 0).context("the wrong depth is not in the program")?;
    show_line(rt, "before:", buffer, place)?;
    let removed = u32::try_from(wrong.len())?;
    match buffer.edit(place, removed, &right) {
        Ok(()) => show_line(rt, "after: ", buffer, place)?,
        Err(fault) => show_refusal(rt, fault)?,
    }
    Ok(place)
}

// Tries to put GARBLED in at `place`, and compares the document before and after.
fn try_garbled(rt: &HostRuntime, buffer: &mut GapBuffer, place: u32) -> anyhow::Result<()> {
    let garbled = codes_of(rt.alloc(), GARBLED)?;
    let before = text_between(rt.alloc(), buffer, 0, buffer.len())?;
    match buffer.edit(place, 0, &garbled) {
        Ok(()) => println!(rt; "taken, which it must not be")?,
        Err(fault) => show_refusal(rt, fault)?,
    }
    let after = text_between(rt.alloc(), buffer, 0, buffer.len())?;
    let outcome = if before == after {
        "is unchanged"
    } else {
        "has changed"
    };
    println!(rt; "the document {outcome}")?;
    Ok(())
}

fn run(rt: &HostRuntime) -> anyhow::Result<()> {
    let mut cells = codes_of(rt.alloc(), PART_PROGRAM)?;
    let n = cells.len();
    cells.extend_from_slice(&[0; ROOM])?;
    let opened = open(&mut cells, n);
    if let Some(fault) = opened.refused {
        return Ok(show_refusal(rt, fault)?);
    }
    let mut buffer = opened.buffer;
    let (len, spare) = (buffer.len(), buffer.spare());
    println!(rt; "opened: {len} codes in a gap buffer, spare {spare}")?;
    let place = correct(rt, &mut buffer)?;
    try_garbled(rt, &mut buffer, place)
}

fn main(rt: HostRuntime) -> anyhow::Result<()> {
    run(&rt)
}
