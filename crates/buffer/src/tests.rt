// Edits, refusals and openings, on both buffers.
use crate::buffer::Buffer;
use crate::fault::{BufferFault, Refusal};
use crate::fixed_buffer::FixedBuffer;
use crate::gap_buffer::{open, try_open};
use std::process::Abort;
use std::test::Fail;

// An edit, its refusal if it is refused, and the document after it.
#[derive(Clone, Copy)]
struct Step {
    a: u32,
    r: u32,
    w: &'static [u32],
    refusal: Option<Refusal>,
    after: &'static [u32],
}

fn taken(a: u32, r: u32, w: &'static [u32], after: &'static [u32]) -> Step {
    Step {
        a,
        r,
        w,
        refusal: None,
        after,
    }
}

fn refused(a: u32, r: u32, w: &'static [u32], cause: u8, spot: u64, after: &'static [u32]) -> Step {
    Step {
        a,
        r,
        w,
        refusal: told(cause, spot),
        after,
    }
}

fn told(cause: u8, spot: u64) -> Option<Refusal> {
    Some(Refusal {
        number: cause,
        layer: 0,
        spot,
    })
}

fn answer(x: Result<(), BufferFault>) -> Option<Refusal> {
    x.err().map(Refusal::from)
}

fn check_document<B: Buffer>(rt: &impl Abort, buffer: &B, codes: &[u32]) -> Result<(), Fail> {
    assert_eq!(rt; buffer.len() as usize, codes.len());
    for (i, code) in (0..).zip(codes) {
        assert_eq!(rt; buffer.code(i), Ok(*code));
    }
    let len = buffer.len();
    assert_eq!(rt;
        buffer.code(len).err().map(Refusal::from),
        told(1, u64::from(len))
    );
    Ok(())
}

fn play<B: Buffer>(rt: &impl Abort, buffer: &mut B, steps: &[Step]) -> Result<(), Fail> {
    for step in steps {
        let x = buffer.edit(step.a, step.r, step.w);
        assert_eq!(rt; answer(x), step.refusal);
        check_document(rt, buffer, step.after)?;
    }
    Ok(())
}

#[test]
fn edits(rt: HostRuntime) -> Result<(), Fail> {
    // both ends, across the gap, empty and refused
    let steps = [
        refused(0, 1, &[97], 1, 0, &[]),
        refused(1, 0, &[97], 1, 1, &[]),
        refused(0, 0, &[], 2, 0, &[]),
        taken(0, 0, &[97, 98, 99], &[97, 98, 99]),
        taken(3, 0, &[100], &[97, 98, 99, 100]),
        taken(0, 0, &[122], &[122, 97, 98, 99, 100]),
        taken(2, 2, &[120, 121, 119], &[122, 97, 120, 121, 119, 100]),
        refused(3, 4, &[97], 1, 3, &[122, 97, 120, 121, 119, 100]),
        refused(6, 0, &[], 2, 6, &[122, 97, 120, 121, 119, 100]),
        refused(
            2,
            1,
            &[97, 10, 127, 8],
            3,
            2,
            &[122, 97, 120, 121, 119, 100],
        ),
        refused(7, 0, &[127], 1, 7, &[122, 97, 120, 121, 119, 100]),
        taken(5, 1, &[], &[122, 97, 120, 121, 119]),
        taken(0, 1, &[9], &[9, 97, 120, 121, 119]),
        taken(3, 2, &[10], &[9, 97, 120, 10]),
        taken(1, 2, &[], &[9, 10]),
        taken(0, 2, &[], &[]),
        taken(0, 0, &[1_114_111], &[1_114_111]),
    ];
    let mut cells = [0; 16];
    let mut gap = try_open(&mut cells, 0)?;
    play(&rt, &mut gap, &steps)?;
    let mut fixed = FixedBuffer::new();
    play(&rt, &mut fixed, &steps)
}

#[test]
fn full(rt: HostRuntime) -> Result<(), Fail> {
    let steps = [
        refused(0, 0, &[1, 1, 1], 3, 0, &[97, 98]),
        refused(0, 0, &[99, 99, 99], 4, 2, &[97, 98]),
        taken(1, 0, &[120, 121], &[97, 120, 121, 98]),
        refused(0, 1, &[122], 4, 0, &[97, 120, 121, 98]),
        taken(0, 1, &[], &[120, 121, 98]),
        taken(3, 0, &[122], &[120, 121, 98, 122]),
    ];
    let mut cells = [97, 98, 0, 0];
    let mut gap = try_open(&mut cells, 2)?;
    play(&rt, &mut gap, &steps)?;
    let mut fixed = FixedBuffer::new();
    assert_eq!(rt; answer(fixed.edit(0, 0, &[97; 4097])), told(4, 4096));
    assert_eq!(rt; answer(fixed.edit(0, 0, &[97; 4096])), None);
    assert_eq!(rt; fixed.spare(), 0);
    assert_eq!(rt; answer(fixed.edit(4096, 0, &[97])), told(4, 0));
    assert_eq!(rt; fixed.len(), 4096);
    Ok(())
}

#[test]
fn openings(rt: HostRuntime) -> Result<(), Fail> {
    let mut many = vec![in rt.alloc(); 7; 1_048_577]?;
    let opened = open(many.as_mut_slice(), 1_048_578);
    assert_eq!(rt; opened.buffer.len(), 0);
    assert_eq!(rt; opened.buffer.spare(), 0);
    assert_eq!(rt; opened.refused.map(Refusal::from), told(13, 1_048_577));
    let mut cells = [97, 8, 98];
    assert_eq!(rt; open(&mut cells, 4).refused.map(Refusal::from), told(1, 4));
    assert_eq!(rt; open(&mut cells, 3).refused.map(Refusal::from), told(3, 1));
    assert_eq!(rt;
        try_open(&mut cells, 3).err().map(Refusal::from),
        told(3, 1)
    );
    let opened = open(&mut cells, 1);
    assert!(rt; opened.refused.is_none());
    assert_eq!(rt; opened.buffer.spare(), 2);
    check_document(&rt, &opened.buffer, &[97])
}

#[test]
fn texts(rt: HostRuntime) -> Result<(), Fail> {
    let fault = BufferFault::NoSpare { spare: 2 };
    let text = format!(in rt.alloc(); "{fault}")?;
    assert_eq!(rt; text.as_str(), "more codes than the spare of 2");
    let refusal = Refusal::from(fault);
    let text = format!(in rt.alloc(); "{refusal}")?;
    assert_eq!(rt; text.as_str(), "number 4, layer 0, spot 2");
    Ok(())
}
