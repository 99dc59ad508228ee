//! Heads and references as text: that memory suffices.
use pg_list::Bytes;
use pg_marks::{Head, HeadList, Reference, ReferenceList, print_heads};
use std::alloc::{AllocError, Global};
use std::test::Fail;

// The heads of one page, without one at its top.
fn heads(alloc: Global) -> Result<HeadList, AllocError> {
    let mut heads = HeadList::new(alloc);
    heads.push(Head {
        top: Bytes::from_slice(alloc, b"")?,
        first: Bytes::from_slice(alloc, b"A")?,
        bottom: Bytes::from_slice(alloc, b"B")?,
    })?;
    Ok(heads)
}

fn reference(
    alloc: Global,
    name: &[u8],
    on: u32,
    page: Option<u32>,
) -> Result<Reference, AllocError> {
    Ok(Reference {
        name: Bytes::from_slice(alloc, name)?,
        on,
        page,
    })
}

// A reference to what stands on a page, and one to what stands on none.
fn references(alloc: Global) -> Result<ReferenceList, AllocError> {
    let mut references = ReferenceList::new(alloc);
    references.push(reference(alloc, b"x", 1, Some(2))?)?;
    references.push(reference(alloc, b"y", 2, None)?)?;
    Ok(references)
}

#[test]
fn heads_and_references(rt: HostRuntime) -> Result<(), Fail> {
    let alloc = rt.alloc();
    let heads = heads(alloc)?;
    let references = references(alloc)?;
    let mut text = Vec::new(alloc);
    print_heads(&heads, &references, &mut text)?;
    assert_eq!(rt;
        text.as_slice(),
        &b"page 1 top {} first {A} bottom {B}\nuse {x} on 1 is 2\nuse {y} on 2 is none\n"[..]
    );
    Ok(())
}
