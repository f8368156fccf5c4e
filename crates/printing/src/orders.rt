// Orders to the layers of a view, with the answers printed.
ghost use Rattle.std.specs.Prelude.{◌≡◌, IfOk};
ghost use Rattle.printing.specs.Orders.{Obeyed, Arranged};

use crate::words::{codes_of, place_of};
use buffer::buffer::Buffer;
use buffer::fault::Refusal;
use std::io;
use view::order::Order;
use view::view::View;

// Has the layer `k` steps down carry out `order`, whose codes are `w`, and prints its answer under `title`. Costs what the
// order costs.
pub fn print_order<V: View>(
    rt: &impl Print,
    title: &str,
    view: &mut V,
    k: u32,
    order: Order,
    w: &[u32],
) -> io::Result<()>
    requires { V.Meaning.sound view.old }
    ensures sound { V.Meaning.sound view.new }
    ensures obeys { Obeyed V.Meaning view.old view.new k order w.now }
    ensures stays { V.Meaning.doc view.new ≡ V.Meaning.doc view.old }
{
    match view.order(k, order, w) {
        Ok(change) => println!(rt;
            "{title}: {} codes at {} became {}",
            change.old, change.start, change.new
        ),
        Err(fault) => println!(rt; "{title}: refused, {}", Refusal::from(fault)),
    }
}

// Puts a hint behind the depth of a part program, `document`, and a fold over its tool change, and tries a second fold
// there; the layers of hints and of folds lie so many steps down. Costs three searches and the three orders.
pub fn arrange<V: View, B: Buffer>(
    rt: &HostRuntime,
    view: &mut V,
    document: &B,
    hints: u32,
    folds: u32,
) -> anyhow::Result<()>
    requires { V.Meaning.sound view.old }
    ensures sound { V.Meaning.sound view.new }
    ensures orders { IfOk result (λ _. Arranged V.Meaning view.old view.new (B.Buffer.doc document.now) hints folds) }
    ensures stays { V.Meaning.doc view.new ≡ V.Meaning.doc view.old }
{
    let heap = rt.alloc();
    let hint = codes_of(heap, " (depth)")?;
    let add = Order {
        verb: 'i',
        x: place_of(heap, document, " R2.")?,
        y: 0,
    };
    let fold = Order {
        verb: 'f',
        x: place_of(heap, document, "N20")?,
        y: place_of(heap, document, "\nN40")?,
    };
    print_order(rt, "hint", view, hints, add, &hint)?;
    print_order(rt, "fold", view, folds, fold, &[])?;
    print_order(rt, "fold again", view, folds, fold, &[])?;
    Ok(())
}
