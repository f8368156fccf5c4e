// A layer of soft wrap: a long line is cut into rows by soft breaks. A walk goes twice over each row.
ghost use Rattle.std.specs.Prelude.{◌≡◌, ◌≤◌};
ghost use Rattle.lines.specs.Lines.{line_start as start_of_line};
ghost use Rattle.lines.specs.Wraps.{row_length, soft_wrap};
ghost use Rattle.view.specs.Layers.{wrap as wrap_records, narrowest_wrap, widest_wrap};
ghost use Rattle.view.specs.Orders.{verb_w};
ghost use Rattle.lines.proofs.Changing.{line_start_same};
ghost use Rattle.lines.proofs.Lining.{line_start_le};
ghost use Rattle.lines.proofs.Steadiness.{wrap_steady, wrap_shown_le};
ghost use Rattle.linewise.specs.Widths.{wrap_bounded};
ghost use Rattle.std.proofs.Common.{rules};

use crate::breaking::row_end;
use crate::kind::Lines;
use crate::scan::Scan;
use crate::width::Width;
use codes::code::{SOFT_BREAK, is_row_end};
use view::reading::line_start;
use view::view::View;

// A layer of soft wrap.
pub type Wrap = Lines<Breaks>;

// How many codes a row has at most.
#[derive(Clone, Copy)]
pub struct Breaks {
    width: u32,
    ghost stands: { (narrowest_wrap ≤ width) × (width ≤ widest_wrap) },
}

impl Scan for Breaks {
    ghost transducer = { λ t. soft_wrap (row_length t.width) };

    ghost steady = { λ t. wrap_steady (row_length t.width) };

    ghost bounded = { λ t. wrap_bounded t.width t.stands.1 };

    // how many codes the row still takes
    fn start<V: View>(&self, below: &V) -> u32 {
        row_end(below, self.width, 0)
    }

    fn size(&self, state: u32, code: u32) -> u32 {
        if is_row_end(code) || state > 0 { 1 } else { 2 }
    }

    fn shown(&self, state: u32, code: u32, j: u32) -> u32 {
        if j == 0 && self.size(state, code) == 2 {
            SOFT_BREAK
        } else {
            code
        }
    }

    fn next<V: View>(&self, state: u32, code: u32, below: &V, i: u32) -> u32 {
        if is_row_end(code) {
            row_end(below, self.width, i + 1) - (i + 1)
        } else if state > 0 {
            state - 1
        } else {
            row_end(below, self.width, i) - i - 1
        }
    }
}

impl Width for Breaks {
    ghost width_of = { λ t. t.width };

    ghost records_at = { wrap_records };

    ghost anew_from = { start_of_line };

    ghost NARROWEST = { narrowest_wrap };

    ghost WIDEST = { widest_wrap };

    ghost OPENING = { 80 };

    ghost FACTOR = { 2 };

    ghost VERB = { verb_w };

    ghost opens = { Prim.search rules };

    ghost fits = { Prim.search rules };

    ghost takes = { Prim.search rules };

    ghost grows = { Prim.search rules };

    ghost speaks = { Prim.search rules };

    ghost refuses = { Prim.search rules };

    ghost obeys = { Prim.search rules };

    ghost changes = { Prim.search rules };

    ghost stays = { Prim.search rules };

    ghost raises = { Prim.search rules };

    ghost shows = { Prim.search rules };

    ghost shows_few = { λ t. wrap_shown_le (row_length t.width) };

    ghost anew_before = { line_start_le };

    ghost anew_same = { λ t xs ys c k. line_start_same (soft_wrap (row_length t.width)) (wrap_steady (row_length t.width)) xs ys c.start c.old c.new k };

    const NARROWEST: u32 = 2;

    const WIDEST: u32 = 1024;

    const OPENING: u32 = 80;

    const FACTOR: u32 = 2;

    const VERB: char = 'w';

    fn at_width(width: u32) -> Breaks {
        Breaks { width }
    }

    fn anew<V: View>(below: &V, place: u32) -> u32 {
        line_start(below, place)
    }
}
