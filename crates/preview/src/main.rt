// A part program as a setter sees it: a hint behind a depth and a fold over the tool change, each row with the document
// line that it begins in, and an order that is refused.
#![tactic(auto)]

use buffer::buffer::Buffer;
use buffer::gap_buffer::open;
use layer::layer::Layer;
use layers::folds::Folds;
use layers::hints::Hints;
use printing::orders::arrange;
use printing::rows::print_numbered;
use printing::words::codes_of;
use view::bare::Bare;
use view::view::View;

// Folds over hints over a buffer.
type Layered<B> = Layer<Layer<Bare<B>, Hints>, Folds>;

// The steps from the top of the view to its layers.
const FOLDS: u32 = 0;

const HINTS: u32 = 1;

const PART_PROGRAM: &str = "%\n\
O4711 (FLANGE, BORE Ø32 H7)\n\
N10 G90 G54 G17\n\
N20 T12 M6\t(BORING BAR)\n\
N30 S850 M3\n\
N40 G0 X60. Y40.\n\
N50 G43 Z50. H12 M8\n\
N60 G98 G86 Z-45. R2. F68\n\
N70 X120.\n\
N80 G80 G0 Z100. M9\n\
N90 M30\n\
%\n";

// Arranges a view of the document in `store`, of which `document` is a copy to look words up in, and prints its rows.
fn show<B: Buffer + Drop>(rt: &HostRuntime, store: B, document: &B) -> anyhow::Result<()> {
    let mut view = Layered::open(store);
    arrange(rt, &mut view, document, HINTS, FOLDS)?;
    print_numbered(rt, &view, document)?;
    Ok(())
}

// stays: in each program, since the cells are owned where they are lent; a library function would be handed the part
// program and what shows it, and be no plainer
fn run(rt: &HostRuntime) -> anyhow::Result<()> {
    let mut cells = codes_of(rt.alloc(), PART_PROGRAM)?;
    let mut copy = codes_of(rt.alloc(), PART_PROGRAM)?;
    let n = cells.len();
    let document = open(&mut copy, n).buffer;
    let opened = open(&mut cells, n);
    if let Some(fault) = opened.refused {
        return Err(fault.into());
    }
    show(rt, opened.buffer, &document)
}

fn main(rt: HostRuntime) -> anyhow::Result<()> {
    run(&rt)
}
