// A layer of tab stops: a tab is shown as spaces up to the next stop of its line.
ghost use Rattle.std.specs.Prelude.{◌≡◌, ◌≤◌};
ghost use Rattle.lines.specs.Tabs.{tab_stops};
ghost use Rattle.view.specs.Layers.{tabs as tab_records, widest_tab};
ghost use Rattle.view.specs.Orders.{verb_t};
ghost use Rattle.lines.proofs.Changing.{near_start};
ghost use Rattle.lines.proofs.Steadiness.{tabs_steady, tabs_blind, tabs_shown_le};
ghost use Rattle.linewise.specs.Widths.{tabs_bounded};
ghost use Rattle.std.proofs.Common.{rules};

use crate::kind::Lines;
use crate::scan::Scan;
use crate::width::Width;
use codes::code::{SPACE, TAB, is_row_end};
use view::view::View;

// A layer of tab stops.
pub type Tabs = Lines<Stops>;

// The distance between two stops.
#[derive(Clone, Copy)]
pub struct Stops {
    width: u32,
    ghost stands: { (1 ≤ width) × (width ≤ widest_tab) },
}

impl Scan for Stops {
    ghost transducer = { λ t. tab_stops t.width };

    ghost steady = { λ t. tabs_steady t.width t.stands.0 };

    ghost bounded = { λ t. tabs_bounded t.width };

    fn start<V: View>(&self, below: &V) -> u32 {
        0
    }

    fn size(&self, state: u32, code: u32) -> u32 {
        if code == TAB {
            self.width - state % self.width
        } else {
            1
        }
    }

    fn shown(&self, state: u32, code: u32, j: u32) -> u32 {
        if code == TAB { SPACE } else { code }
    }

    fn next<V: View>(&self, state: u32, code: u32, below: &V, i: u32) -> u32 {
        if is_row_end(code) {
            0
        } else {
            state + self.size(state, code)
        }
    }
}

impl Width for Stops {
    ghost width_of = { λ t. t.width };

    ghost records_at = { tab_records };

    ghost anew_from = { λ xs p. p };

    ghost NARROWEST = { 1 };

    ghost WIDEST = { widest_tab };

    ghost OPENING = { 8 };

    ghost FACTOR = { 16 };

    ghost VERB = { verb_t };

    ghost opens = { Prim.search rules };

    ghost fits = { Prim.search rules };

    ghost takes = { Prim.search rules };

    ghost grows = { Prim.search rules };

    ghost speaks = { Prim.search rules };

    ghost refuses = { Prim.search rules };

    ghost obeys = { Prim.search rules };

    ghost changes = { Prim.search rules };

    ghost stays = { Prim.search rules };

    ghost raises = { Prim.search rules };

    ghost shows = { Prim.search rules };

    ghost shows_few = { λ t k x. tabs_shown_le t.width k x t.stands.1 t.stands.0 };

    ghost anew_before = { Prim.search rules };

    ghost anew_same = { λ t xs ys c k. near_start (tab_stops t.width) (tabs_steady t.width t.stands.0) (tabs_blind t.width) xs ys c.start c.old c.new k };

    const NARROWEST: u32 = 1;

    const WIDEST: u32 = 16;

    const OPENING: u32 = 8;

    const FACTOR: u32 = 16;

    const VERB: char = 't';

    fn at_width(width: u32) -> Stops {
        Stops { width }
    }

    fn anew<V: View>(below: &V, place: u32) -> u32 {
        place
    }
}
