// A part program as a setter sees it on a narrow screen: a hint behind a depth, a fold over the tool change, tab stops and
// soft wrap, each row with the document line that it begins in, and orders that are refused.
#![tactic(auto)]

use buffer::buffer::Buffer;
use buffer::gap_buffer::open;
use layer::layer::Layer;
use layers::folds::Folds;
use layers::hints::Hints;
use linewise::tabs::Tabs;
use linewise::wrap::Wrap;
use printing::orders::{arrange, print_order};
use printing::rows::print_numbered;
use printing::words::codes_of;
use std::io;
use view::bare::Bare;
use view::order::Order;
use view::view::View;

// Folds over hints over a buffer.
type Folded<B> = Layer<Layer<Bare<B>, Hints>, Folds>;

// Soft wrap over tab stops over these.
type Layered<B> = Layer<Layer<Folded<B>, Tabs>, Wrap>;

// The steps from the top of the view to its layers.
const WRAP: u32 = 0;

const TABS: u32 = 1;

const FOLDS: u32 = 2;

const HINTS: u32 = 3;

const PART_PROGRAM: &str = "%\n\
O4711 (FLANGE, BORE Ø32 H7)\n\
N10 G90 G54 G17\n\
N20 T12 M6\t(BORING BAR)\n\
N30 S850 M3\n\
N40 G0 X60. Y40.\n\
N50 G43 Z50. H12 M8\n\
N60 G98 G86 Z-45. R2. F68\t(DEPTH 45)\n\
N70 X120.\n\
N80 G80 G0 Z100. M9\n\
N90 M30\n\
%\n";

// Sets the two widths, and has one refused that is too narrow.
fn set_widths<V: View>(rt: &HostRuntime, view: &mut V) -> io::Result<()>
    requires { V.Meaning.sound view.old }
    ensures { V.Meaning.sound view.new }
{
    let stops = Order {
        verb: 't',
        x: 4,
        y: 0,
    };
    let narrow = Order {
        verb: 'w',
        x: 24,
        y: 0,
    };
    let narrower = Order {
        verb: 'w',
        x: 1,
        y: 0,
    };
    print_order(rt, "tab stops by 4", view, TABS, stops, &[])?;
    print_order(rt, "rows of 24", view, WRAP, narrow, &[])?;
    print_order(rt, "rows of 1", view, WRAP, narrower, &[])
}

// Arranges a view of the document in `store`, of which `document` is a copy to look words up in, and prints its rows.
fn show<B: Buffer + Drop>(rt: &HostRuntime, store: B, document: &B) -> anyhow::Result<()> {
    let mut view = Layered::open(store);
    arrange(rt, &mut view, document, HINTS, FOLDS)?;
    set_widths(rt, &mut view)?;
    print_numbered(rt, &view, document)?;
    Ok(())
}

// stays: in each program, since the cells are owned where they are lent; a library function would be handed the part
// program and what shows it, and be no plainer
fn run(rt: &HostRuntime) -> anyhow::Result<()> {
    let mut cells = codes_of(rt.alloc(), PART_PROGRAM)?;
    let mut copy = codes_of(rt.alloc(), PART_PROGRAM)?;
    let n = cells.len();
    let document = open(&mut copy, n).buffer;
    let opened = open(&mut cells, n);
    if let Some(fault) = opened.refused {
        return Err(fault.into());
    }
    show(rt, opened.buffer, &document)
}

fn main(rt: HostRuntime) -> anyhow::Result<()> {
    run(&rt)
}
