// Edits of a text of three rows, and the rows that they damage.
use crate::damage::Damage;
use crate::rows::{count_rows, damage_of, ends_before};
use buffer::buffer::Buffer;
use buffer::fixed_buffer::FixedBuffer;
use std::process::Abort;
use std::test::Fail;
use view::bare::Bare;
use view::view::View;

// ab, cd and ef.
const TEXT: [u32; 8] = [97, 98, 10, 99, 100, 10, 101, 102];

fn damage(first: u32, old: u32, new: u32) -> Damage {
    Damage { first, old, new }
}

fn check_edit(
    rt: &impl Abort,
    a: u32,
    r: u32,
    w: &[u32],
    rows: u32,
    expected: Damage,
) -> Result<(), Fail> {
    let mut view = Bare::open(FixedBuffer::new());
    let _ = view.edit(0, 0, &TEXT);
    let rows_before = count_rows(&view);
    assert_eq!(rt; rows_before, 3);
    let change = view.edit(a, r, w)?;
    assert_eq!(rt; count_rows(&view), rows);
    assert_eq!(rt; damage_of(&view, change, rows_before), expected);
    Ok(())
}

#[test]
fn edits(rt: HostRuntime) -> Result<(), Fail> {
    check_edit(&rt, 3, 0, &[120], 3, damage(1, 1, 1))?;
    check_edit(&rt, 1, 3, &[], 2, damage(0, 2, 1))?;
    check_edit(&rt, 4, 0, &[10, 10], 5, damage(1, 1, 3))?;
    check_edit(&rt, 8, 0, &[10], 4, damage(2, 1, 2))?;
    check_edit(&rt, 0, 8, &[], 1, damage(0, 3, 1))
}

#[test]
fn places(rt: HostRuntime) {
    let mut view = Bare::open(FixedBuffer::new());
    let _ = view.edit(0, 0, &TEXT);
    assert_eq!(rt; ends_before(&view, 2), 0);
    assert_eq!(rt; ends_before(&view, 3), 1);
    assert_eq!(rt; ends_before(&view, 8), 2);
    assert_eq!(rt; ends_before(&view, 4_000_000_000), 2);
}

#[test]
fn both(rt: HostRuntime) {
    assert_eq!(rt;
        damage(2, 1, 3).followed_by(damage(4, 2, 1)),
        damage(2, 2, 3)
    );
    assert_eq!(rt;
        damage(0, 1, 1).followed_by(damage(5, 1, 2)),
        damage(0, 6, 7)
    );
    assert_eq!(rt;
        damage(5, 1, 2).followed_by(damage(0, 1, 1)),
        damage(0, 6, 7)
    );
}
