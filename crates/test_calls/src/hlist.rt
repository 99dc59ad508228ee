//! What no clause says: that memory suffices for two paragraphs.
use pg_hlist::read_paras;
use std::alloc::Global;
use std::test::Fail;

const FILE: &str = r"Two paragraphs
\hbox(0.0+0.0)x0.0
.\hbox(7.0+2.0)x10.0
..\glue 1.0
.\glue 2.0 plus 1.0
.\hbox(7.0+2.0)x10.0

\hbox(0.0+0.0)x0.0
.\penalty -50
";

// How many paragraphs a text has, and how many items the last one has.
fn sizes(alloc: Global, text: &str) -> Option<(usize, usize)> {
    if text.len() >= 1000 {
        return None;
    }
    let paras = read_paras(alloc, text.as_bytes()).ok()?;
    let last = paras.as_slice().last()?;
    Some((paras.as_slice().len(), last.len()))
}

#[test]
fn two_paragraphs_are_read(rt: HostRuntime) -> Result<(), Fail> {
    assert_eq!(rt; sizes(rt.alloc(), FILE), Some((2, 1)));
    Ok(())
}
