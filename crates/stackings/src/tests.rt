// The worked examples of hints and folds, stacks of several layers, and refusals with their layers.
use crate::checks::{change, check_text, check_under, letters, refusal, told};
use crate::wide::Wide;
use buffer::buffer::Buffer;
use buffer::fixed_buffer::FixedBuffer;
use layer::layer::Layer;
use layers::folds::Folds;
use layers::hints::Hints;
use places::change::Change;
use std::process::Abort;
use std::test::Fail;
use view::bare::Bare;
use view::kind::Kind;
use view::order::Order;
use view::view::View;

type Hinted = Layer<Bare<FixedBuffer>, Hints>;

type Folded = Layer<Bare<FixedBuffer>, Folds>;

type Both = Layer<Hinted, Folds>;

const DOTS: u32 = 8_943;

const FOLD: Order = Order {
    verb: 'f',
    x: 3,
    y: 8,
};

// An edit below the fold [3, 8) of ten letters: the change and the text.
fn edited_fold(rt: &impl Abort, a: u32, expected: Option<Change>, codes: &[u32]) {
    let mut view = Folded::open(letters(10));
    assert_eq!(rt; view.order(0, FOLD, &[]).ok(), change(3, 5, 1));
    check_text(rt, &view, &[97, 98, 99, DOTS, 105, 106]);
    assert_eq!(rt; view.edit(a, 0, &[120]).ok(), expected);
    check_text(rt, &view, codes);
}

#[test]
fn typing_at_a_fold(rt: HostRuntime) {
    edited_fold(
        &rt,
        5,
        change(3, 1, 6),
        &[97, 98, 99, 100, 101, 120, 102, 103, 104, 105, 106],
    );
    edited_fold(&rt, 3, change(3, 0, 1), &[97, 98, 99, 120, DOTS, 105, 106]);
    edited_fold(&rt, 8, change(4, 0, 1), &[97, 98, 99, DOTS, 120, 105, 106]);
}

#[test]
fn typing_at_a_hint(rt: HostRuntime) {
    let mut view = Hinted::open(letters(6));
    let order = Order {
        verb: 'i',
        x: 3,
        y: 0,
    };
    assert_eq!(rt; view.order(0, order, &[122, 122]).ok(), change(3, 0, 2));
    check_text(&rt, &view, &[97, 98, 99, 122, 122, 100, 101, 102]);
    check_under(&rt, &view, &[0, 1, 2, 3, 3, 3, 4, 5, 6]);
    assert_eq!(rt; view.first(3).ok(), Some(3));
    assert_eq!(rt; view.last(3).ok(), Some(5));
    assert_eq!(rt; view.edit(3, 0, &[81]).ok(), change(5, 0, 1));
    check_text(&rt, &view, &[97, 98, 99, 122, 122, 81, 100, 101, 102]);
}

// A hint, a fold over it, and an edit in front of both.
#[test]
fn folds_over_hints(rt: HostRuntime) {
    let mut view = Both::open(letters(6));
    let hint = Order {
        verb: 'i',
        x: 2,
        y: 0,
    };
    assert_eq!(rt; view.order(1, hint, &[122]).ok(), change(2, 0, 1));
    let fold = Order {
        verb: 'f',
        x: 2,
        y: 4,
    };
    assert_eq!(rt; view.order(0, fold, &[]).ok(), change(2, 3, 1));
    check_text(&rt, &view, &[97, 98, DOTS, 101, 102]);
    check_under(&rt, &view, &[0, 1, 2, 4, 5, 6]);
    assert_eq!(rt; view.edit(0, 0, &[120]).ok(), change(0, 0, 1));
    check_text(&rt, &view, &[120, 97, 98, DOTS, 101, 102]);
}

// A layer over its own kind: the upper hint stands at the first place over its document place.
#[test]
fn hints_over_hints(rt: HostRuntime) {
    let mut view = Layer::<Hinted, Hints>::open(letters(2));
    let order = Order {
        verb: 'i',
        x: 1,
        y: 0,
    };
    assert_eq!(rt; view.order(1, order, &[49]).ok(), change(1, 0, 1));
    assert_eq!(rt; view.order(0, order, &[50]).ok(), change(1, 0, 1));
    check_text(&rt, &view, &[97, 50, 49, 98]);
    check_under(&rt, &view, &[0, 1, 1, 1, 2]);
}

// Hints over a buffer of the highest most: they are asleep, and a fold on top of them is not.
#[test]
fn asleep(rt: HostRuntime) {
    let mut view = Layer::<Layer<Bare<Wide<FixedBuffer>>, Hints>, Folds>::open(Wide {
        inner: letters(4),
    });
    assert_eq!(rt; view.ceiling(), 1_073_741_824);
    let order = Order {
        verb: 'i',
        x: 1,
        y: 0,
    };
    assert_eq!(rt; refusal(view.order(1, order, &[49])), told(12, 1, 0));
    let fold = Order {
        verb: 'f',
        x: 1,
        y: 3,
    };
    assert_eq!(rt; view.order(0, fold, &[]).ok(), change(1, 2, 1));
    check_text(&rt, &view, &[97, DOTS, 100]);
}

// Each cause once, at its layer, and nothing changed by any.
#[test]
fn refusals(rt: HostRuntime) {
    let mut view = Both::open(letters(4));
    let order = Order {
        verb: 'i',
        x: 2,
        y: 9,
    };
    assert_eq!(rt; refusal(view.edit(5, 0, &[97])), told(1, 3, 5));
    assert_eq!(rt; refusal(view.edit(0, 0, &[])), told(2, 3, 0));
    assert_eq!(rt; refusal(view.order(2, order, &[97])), told(6, 2, 2));
    assert_eq!(rt; refusal(view.order(0, order, &[97])), told(7, 0, 105));
    assert_eq!(rt; refusal(view.order(1, order, &[])), told(8, 1, 0));
    assert_eq!(rt; refusal(view.order(1, order, &[97, 10])), told(3, 1, 1));
    check_text(&rt, &view, &[97, 98, 99, 100]);
}

#[test]
fn fold_refusals(rt: HostRuntime) {
    let mut view = Folded::open(letters(4));
    let fold = Order {
        verb: 'f',
        x: 1,
        y: 9,
    };
    assert_eq!(rt; refusal(view.order(0, fold, &[])), told(1, 0, 9));
    let fold = Order {
        verb: 'f',
        x: 2,
        y: 2,
    };
    assert_eq!(rt; refusal(view.order(0, fold, &[])), told(8, 0, 2));
    let open = Order {
        verb: 'u',
        x: 1,
        y: 0,
    };
    assert_eq!(rt; refusal(view.order(0, open, &[])), told(11, 0, 1));
    check_text(&rt, &view, &[97, 98, 99, 100]);
}
