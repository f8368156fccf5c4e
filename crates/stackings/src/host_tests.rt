// What a host may write around a layer: a struct over its own buffer, one over any view that leads to the next, and one with
// two layers over the same. None of them says anything of the view that it holds.
use crate::checks::{check_shown, written};
use buffer::buffer::Buffer;
use buffer::fixed_buffer::FixedBuffer;
use buffer::gap_buffer::open;
use layer::layer::Layer;
use layers::hints::Hints;
use linewise::tabs::Tabs;
use std::process::Abort;
use view::bare::Bare;
use view::order::Order;
use view::view::{Meaning, View};

// A part of the screen.
#[derive(Drop)]
struct Pane<B: Buffer> {
    view: Layer<Bare<B>, Hints>,
    row: u32,
}

// A view, and the ones split off from it.
#[derive(Drop)]
struct Split<V: View> {
    view: Layer<V, Hints>,
    next: Option<Box<Split<V>>>,
}

// Two views side by side.
#[derive(Drop)]
struct Pair<V, K> {
    left: Layer<V, K>,
    right: Layer<V, K>,
}

const HINT: Order = Order {
    verb: 'i',
    x: 1,
    y: 0,
};

// Has a view of hints show z behind its first letter.
fn put_hint<V: View>(rt: &impl Abort, view: &mut V)
    requires { V.sound view.old }
    ensures { V.sound view.new }
{
    assert!(rt; view.order(0, HINT, &[122]).is_ok());
}

fn pane_over<B: Buffer>(store: B) -> Pane<B>
    ensures { ⟦<Layer<Bare<B>, Hints> as Meaning>⟧.sound result.view }
{
    Pane {
        view: View::open(store),
        row: 0,
    }
}

#[test]
fn a_pane_over_a_buffer(rt: HostRuntime) {
    let mut pane = pane_over(written("ab"));
    put_hint(&rt, &mut pane.view);
    check_shown(&rt, &pane.view, "azb");
    let mut cells = [97, 98, 0];
    let mut lent = pane_over(open(&mut cells, 2).buffer);
    put_hint(&rt, &mut lent.view);
    check_shown(&rt, &lent.view, "azb");
    assert_eq!(rt; lent.row, 0);
}

#[test]
fn a_split_view(rt: HostRuntime) {
    let mut below = Split {
        view: Layer::<Bare<FixedBuffer>, Hints>::open(written("ab")),
        next: None,
    };
    put_hint(&rt, &mut below.view);
    let Ok(next) = Box::new(rt.alloc(), below) else {
        panic!(rt; "no memory for a split view");
    };
    let split = Split {
        view: Layer::<Bare<FixedBuffer>, Hints>::open(written("cd")),
        next: Some(next),
    };
    check_shown(&rt, &split.view, "cd");
    let Some(next) = split.next else {
        panic!(rt; "the lower view is gone");
    };
    check_shown(&rt, &next.view, "azb");
    assert!(rt; next.next.is_none());
}

#[test]
fn two_views_side_by_side(rt: HostRuntime) {
    let pair = Pair {
        left: Layer::<Bare<FixedBuffer>, Tabs>::open(written("a\tb")),
        right: View::open(written("\tb")),
    };
    check_shown(&rt, &pair.left, "a       b");
    check_shown(&rt, &pair.right, "        b");
}
