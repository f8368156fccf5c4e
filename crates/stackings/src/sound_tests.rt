// What a host may write over views that are sound by their type: nothing is asked of the view, here or of a caller.
ghost use Rattle.std.specs.Prelude.{◌≡◌, ◌≤◌, length};
ghost use Rattle.view.specs.Seen.{text_at};

use crate::checks::{change, check_shown, written};
use buffer::buffer::Buffer;
use buffer::fixed_buffer::FixedBuffer;
use buffer::gap_buffer::open;
use layer::layer::Layer;
use layers::folds::Folds;
use layers::hints::Hints;
use linewise::tabs::{Stops, Tabs};
use linewise::width::Width;
use linewise::wrap::Breaks;
use sound::always::AlwaysSound;
use sound::once::SoundOnce;
use sound::sound_view::SoundView;
use std::process::Abort;
use view::bare::Bare;
use view::order::Order;
use view::view::View;

// A part that names its view by its type.
#[derive(Drop)]
struct Window<B: Buffer>
where
    Layer<Bare<B>, Hints>: View<Store = B> + SoundOnce,
{
    view: SoundView<Layer<Bare<B>, Hints>>,
}

impl<B: Buffer> Window<B>
where
    Layer<Bare<B>, Hints>: View<Store = B> + SoundOnce,
{
    // Types y in front of all, and answers where the document's end lies on the screen.
    fn typed(&mut self) -> Option<u32> {
        self.view.edit(0, 0, &[121]).ok()?;
        self.view.last(self.view.document_len()).ok()
    }
}

type Pile<B> = SoundView<Layer<Layer<Bare<B>, Hints>, Tabs>>;

// A part of the screen.
#[derive(Drop)]
struct Part<V: AlwaysSound> {
    view: V,
    row: u32,
}

impl<V: AlwaysSound> Part<V> {
    // Has the layer of hints, so many steps down, show z behind the first letter, and types y in front of it.
    fn fill(&mut self, rt: &impl Abort, hints: u32) {
        let hint = Order {
            verb: 'i',
            x: 1,
            y: 0,
        };
        assert!(rt; self.view.order(hints, hint, &[122]).is_ok());
        assert!(rt; self.view.edit(0, 0, &[121]).is_ok());
        self.row = 1;
    }
}

fn anew<S: Width, V: AlwaysSound>(below: &V, place: u32) -> u32
    requires { place ≤ length (text_at V.Meaning below.now) }
    ensures { result ≡ S.anew_from (text_at V.Meaning below.now) place }
{
    S::anew(below, place)
}

fn hints_over<V: AlwaysSound>(store: V::Store) -> SoundView<Layer<V, Hints>> {
    View::open(store)
}

fn part_over<B: Buffer>(store: B) -> Part<Pile<B>> {
    Part {
        view: View::open(store),
        row: 0,
    }
}

#[test]
fn parts_of_a_screen(rt: HostRuntime) {
    let mut part = part_over(written("ab\tc"));
    part.fill(&rt, 1);
    check_shown(&rt, &part.view, "yazb    c");
    let mut cells = [97, 98, 0];
    let mut lent = part_over(open(&mut cells, 2).buffer);
    lent.fill(&rt, 1);
    check_shown(&rt, &lent.view, "yazb");
    assert_eq!(rt; [part.row, lent.row], [1, 1]);
}

#[test]
fn a_bare_view(rt: HostRuntime) {
    let mut part = Part {
        view: Bare::open(written("ab")),
        row: 0,
    };
    assert_eq!(rt; part.view.edit(0, 0, &[121]).ok(), change(0, 0, 1));
    check_shown(&rt, &part.view, "yab");
}

#[test]
fn a_layer_over_any_of_them(rt: HostRuntime) {
    let mut part = Part {
        view: hints_over::<SoundView<Layer<Bare<FixedBuffer>, Folds>>>(written("ab")),
        row: 0,
    };
    part.fill(&rt, 0);
    check_shown(&rt, &part.view, "yazb");
}

#[test]
fn a_view_in_hand(rt: HostRuntime) {
    let mut below = Layer::<Bare<FixedBuffer>, Hints>::open(written("ab"));
    assert!(rt; below.edit(0, 0, &[122]).is_ok());
    let mut window = Window {
        view: SoundView::new(below),
    };
    assert_eq!(rt; window.typed(), Some(4));
    check_shown(&rt, &window.view, "yzab");
    assert_eq!(rt; window.view.document_len(), 4);
    assert_eq!(rt; window.view.ceiling(), 5_120);
    assert_eq!(rt; window.view.under(2).ok(), Some(2));
    assert_eq!(rt; window.view.first(2).ok(), Some(2));
    assert!(rt; window.view.last(5).is_err());
}

#[test]
fn shown_anew(rt: HostRuntime) {
    let view = SoundView::<Layer<Bare<FixedBuffer>, Hints>>::open(written("ab\ncd"));
    assert_eq!(rt; view.len(), 5);
    assert_eq!(rt; anew::<Stops, _>(&view, 4), 4);
    assert_eq!(rt; anew::<Breaks, _>(&view, 4), 3);
}
