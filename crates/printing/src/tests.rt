// What is shared by the programs, over a bare view.
use crate::orders::{arrange, print_order};
use crate::rows::{each_row, print_numbered};
use crate::words::{codes_of, place_of};
use buffer::buffer::Buffer;
use buffer::fixed_buffer::FixedBuffer;
use buffer::gap_buffer::try_open;
use codes::text::decode_text;
use std::test::Fail;
use view::bare::Bare;
use view::order::Order;
use view::view::View;

#[test]
fn rows(rt: HostRuntime) -> Result<(), Fail> {
    let heap = rt.alloc();
    let table: [(&str, &[u32], &str); 5] = [
        ("", &[0], "|"),
        ("ab", &[0], "|ab"),
        ("ab\n", &[0, 3], "|ab|"),
        ("ab\n\nÄ⋯c", &[0, 3, 4], "|ab||Ä⋯c"),
        ("\n", &[0, 1], "||"),
    ];
    for (text, at, joined) in &table {
        let mut cells = decode_text(heap, text.as_bytes())?;
        let n = cells.len();
        let view = Bare::open(try_open(&mut cells, n)?);
        let mut starts = Vec::new(heap);
        let mut shown = String::new(heap);
        let count = each_row(heap, &view, |start, row| {
            starts.push(start)?;
            shown.push('|')?;
            shown.push_str(row.as_str())?;
            Ok(())
        });
        assert_eq!(rt; count.ok(), Some(at.len() as u32));
        assert!(rt; starts.as_slice() == *at);
        assert_eq!(rt; shown.as_str(), *joined);
    }
    Ok(())
}

#[test]
fn stopped(rt: HostRuntime) -> Result<(), Fail> {
    let heap = rt.alloc();
    let mut view = Bare::open(FixedBuffer::new());
    view.edit(0, 0, &[97, 10, 98, 10, 99])?;
    let mut calls = 0u32;
    let count = each_row(heap, &view, |start, _row| {
        calls = calls.saturating_add(1);
        anyhow::ensure!(start < 2, "stop");
        Ok(())
    });
    assert!(rt; count.is_err());
    assert_eq!(rt; calls, 2);
    Ok(())
}

#[test]
fn words(rt: HostRuntime) -> Result<(), Fail> {
    let heap = rt.alloc();
    let mut cells = decode_text(heap, "N20 N30\nN30".as_bytes())?;
    let n = cells.len();
    let document = try_open(&mut cells, n)?;
    assert_eq!(rt; place_of(heap, &document, "N30").ok(), Some(4));
    assert_eq!(rt; place_of(heap, &document, "\nN30").ok(), Some(7));
    assert_eq!(rt; place_of(heap, &document, "").ok(), Some(0));
    assert!(rt; place_of(heap, &document, "N40").is_err());
    assert_eq!(rt; codes_of(heap, "N⋯")?.as_slice(), [78, 8943].as_slice());
    Ok(())
}

#[test]
fn prints(rt: HostRuntime) -> Result<(), Fail> {
    let heap = rt.alloc();
    let mut cells = decode_text(heap, "N20 T1\nN40 Z1. R2.\n".as_bytes())?;
    let n = cells.len();
    let document = try_open(&mut cells, n)?;
    let mut view = Bare::open(FixedBuffer::new());
    view.edit(0, 0, &[78, 50, 48, 10])?;
    let order = Order {
        verb: 'f',
        x: 0,
        y: 1,
    };
    assert!(rt; print_order(&rt, "fold", &mut view, 0, order, &[]).is_ok());
    assert!(rt; arrange(&rt, &mut view, &document, 1, 0).is_ok());
    assert_eq!(rt; view.document_len(), 4);
    assert_eq!(rt; print_numbered(&rt, &view, &document).ok(), Some(2));
    Ok(())
}
