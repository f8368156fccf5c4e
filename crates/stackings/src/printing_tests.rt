// What the programs share in `printing`, over views that are sound by their type: nothing is asked of a view, here or of a caller.
ghost use Rattle.std.specs.Prelude.{◌≡◌, length, IfOk};
ghost use Rattle.lines.specs.Rows.{rows};
ghost use Rattle.view.specs.Seen.{text_at};
ghost use Rattle.printing.specs.Visits.{VisitsRows};
ghost use Rattle.printing.specs.Orders.{Obeyed, Arranged};

use crate::checks::{check_shown, written};
use buffer::buffer::Buffer;
use buffer::fixed_buffer::FixedBuffer;
use layer::layer::Layer;
use layers::folds::Folds;
use layers::hints::Hints;
use printing::{orders, rows};
use sound::always::AlwaysSound;
use sound::sound_view::SoundView;
use std::alloc::Global;
use std::io;
use view::bare::Bare;
use view::order::Order;
use view::view::View;

type Both = SoundView<Layer<Layer<Bare<FixedBuffer>, Hints>, Folds>>;

fn each_row<V: AlwaysSound, F: FnMut(u32, String) -> anyhow::Result<()>>(
    heap: Global,
    view: &V,
    visit: F,
) -> anyhow::Result<u32>
    requires { F.IsAlwaysCallable visit }
    ensures count { IfOk result (λ n. n ≡ length (rows (text_at V.Meaning view.now))) }
    ensures visits { IfOk result (λ _. VisitsRows F.step visit (rows (text_at V.Meaning view.now))) }
{
    rows::each_row(heap, view, visit)
}

fn print_numbered<V: AlwaysSound, B: Buffer>(
    rt: &HostRuntime,
    view: &V,
    document: &B,
) -> anyhow::Result<u32>
    ensures { IfOk result (λ n. n ≡ length (rows (text_at V.Meaning view.now))) }
{
    rows::print_numbered(rt, view, document)
}

fn print_order<V: AlwaysSound>(
    rt: &impl Print,
    title: &str,
    view: &mut V,
    k: u32,
    order: Order,
    w: &[u32],
) -> io::Result<()>
    ensures obeys { Obeyed V.Meaning view.old view.new k order w.now }
    ensures stays { V.Meaning.doc view.new ≡ V.Meaning.doc view.old }
{
    orders::print_order(rt, title, view, k, order, w)
}

fn arrange<V: AlwaysSound, B: Buffer>(
    rt: &HostRuntime,
    view: &mut V,
    document: &B,
    hints: u32,
    folds: u32,
) -> anyhow::Result<()>
    ensures orders { IfOk result (λ _. Arranged V.Meaning view.old view.new (B.Buffer.doc document.now) hints folds) }
    ensures stays { V.Meaning.doc view.new ≡ V.Meaning.doc view.old }
{
    orders::arrange(rt, view, document, hints, folds)
}

#[test]
fn printed(rt: HostRuntime) {
    let document = written("N20 T1\nN40 Z1. R2.\n");
    let mut view = Both::open(written("N20 T1\nN40 Z1. R2.\n"));
    assert!(rt; arrange(&rt, &mut view, &document, 1, 0).is_ok());
    check_shown(&rt, &view, "~\nN40 Z1. (depth) R2.\n");
    let unfold = Order {
        verb: 'u',
        x: 0,
        y: 0,
    };
    assert!(rt; print_order(&rt, "unfold", &mut view, 0, unfold, &[]).is_ok());
    check_shown(&rt, &view, "N20 T1\nN40 Z1. (depth) R2.\n");
    let mut last = 0u32;
    let count = each_row(rt.alloc(), &view, |start, _row| {
        last = start;
        Ok(())
    });
    assert_eq!(rt; count.ok(), Some(3));
    assert_eq!(rt; last, 27);
    assert_eq!(rt; print_numbered(&rt, &view, &document).ok(), Some(3));
}
