// Texts under tab stops and under soft wrap, printed as `expand -t N` and `fold -s -w N` print them, so that the two can be
// compared.
//
// Standard input comes in blocks. A line `t N` begins a block for tab stops, a line `w N` one for soft wrap, N being the
// width; the lines behind it that begin with `|` are its text, without the `|`. Of each block the rows of the view are
// printed.
#![tactic(auto)]

use anyhow::{Context, anyhow, bail};
use buffer::fault::Refusal;
use buffer::fixed_buffer::FixedBuffer;
use codes::code::NEWLINE;
use codes::text::decode_text;
use layer::layer::Layer;
use linewise::tabs::Tabs;
use linewise::wrap::Wrap;
use printing::rows::each_row;
use std::alloc::Global;
use std::io::{BufRead, BufReader};
use view::bare::Bare;
use view::fault::ViewFault;
use view::order::Order;
use view::view::View;

type Tabbed = Layer<Bare<FixedBuffer>, Tabs>;

type Wrapped = Layer<Bare<FixedBuffer>, Wrap>;

// The order that the layer over a block's text gets, by its verb and width, and the text.
#[derive(Drop)]
struct Block {
    verb: char,
    width: u32,
    text: Vec<u32>,
}

// The verb and the width on the line that begins a block.
fn heading(line: &str) -> Option<(char, u32)> {
    let (verb, width) = line.split_once(' ')?;
    Some((verb.parse::<char>().ok()?, width.parse::<u32>().ok()?))
}

impl Block {
    // The block that `line` begins, which has no text yet.
    fn begin(heap: Global, line: &str) -> anyhow::Result<Block> {
        let Some((verb, width)) = heading(line) else {
            return Err(anyhow!(format!(in heap; "neither text nor the start of a block: {line}")?));
        };
        Ok(Block {
            verb,
            width,
            text: Vec::new(heap),
        })
    }

    // Puts `line` and a newline behind the text.
    fn add(&mut self, heap: Global, line: &str) -> anyhow::Result<()> {
        let codes = decode_text(heap, line.as_bytes()).map_err(|_| anyhow!(
            "no memory for a line"
        ))?;
        self.text.extend_from_slice(&codes)?;
        self.text.push(NEWLINE)?;
        Ok(())
    }
}

fn read_blocks(rt: &HostRuntime) -> anyhow::Result<Vec<Block>> {
    let heap = rt.alloc();
    let mut blocks: Vec<Block> = Vec::new(heap);
    for line in BufReader::new(heap, rt.stdin())?.lines(heap) {
        let line = line?;
        match line.strip_prefix('|') {
            Some(text) => {
                let block = blocks.last_mut().context("text before the first block")?;
                block.add(heap, text)?;
            }
            None => blocks.push(Block::begin(heap, &line)?)?,
        }
    }
    Ok(blocks)
}

// An error that says the refusal.
fn refused(fault: ViewFault) -> anyhow::Error {
    anyhow!("refused: {}", Refusal::from(fault))
}

// Prints the rows. A text that ends with a newline has an empty row behind it, which is not printed.
fn print_rows<V: View>(rt: &HostRuntime, view: &V) -> anyhow::Result<()>
    requires { V.Meaning.sound view.now }
{
    let len = view.len();
    each_row(rt.alloc(), view, |start, text| {
        if start < len {
            println!(rt; "{text}")?;
        }
        Ok(())
    })?;
    Ok(())
}

// Prints the text of a block as a fresh view shows it.
fn print_text<V: View<Store = FixedBuffer> + Drop>(
    rt: &HostRuntime,
    block: &Block,
) -> anyhow::Result<()> {
    let mut view = V::open(FixedBuffer::new());
    view.edit(0, 0, &block.text).map_err(refused)?;
    let set_width = Order {
        verb: block.verb,
        x: block.width,
        y: 0,
    };
    view.order(0, set_width, &[]).map_err(refused)?;
    print_rows(rt, &view)
}

// Prints the text of a block as the layer shows it whose verb the block has.
fn print_block(rt: &HostRuntime, block: &Block) -> anyhow::Result<()> {
    match block.verb {
        't' => print_text::<Tabbed>(rt, block),
        'w' => print_text::<Wrapped>(rt, block),
        verb => bail!("no layer here has the verb {verb}"),
    }
}

fn run(rt: &HostRuntime) -> anyhow::Result<()> {
    for block in &read_blocks(rt)? {
        print_block(rt, block)?;
    }
    Ok(())
}

fn main(rt: HostRuntime) -> anyhow::Result<()> {
    run(&rt)
}
