//! What no clause says: that memory suffices to read a script, and to refuse one.
use pg_edits::{ScriptStep, read_script};
use std::alloc::Global;
use std::test::Fail;

const INSERT: &str = r"show
insert 2
.\special{pg:choice}
.\special{pg:variant 0 0}
.\hbox(7.0+2.0)x345.0
.\special{pg:end}
.\glue 3.0
show
";

// How many steps there are, and 0; or the line and the kind of the fault.
fn told(alloc: Global, text: &str) -> (usize, u8) {
    if text.len() > 200 {
        return (0, 0);
    }
    match read_script(alloc, text.as_bytes()) {
        Ok(script) => (script.as_slice().len(), 0),
        Err(fault) => (fault.line as usize, fault.kind.number()),
    }
}

#[test]
fn an_insert_brings_its_blocks(rt: HostRuntime) -> Result<(), Fail> {
    let blocks = match read_script(rt.alloc(), INSERT.as_bytes()) {
        Ok(script) => match script.as_slice() {
            [ScriptStep::Show, ScriptStep::Change(edit), ScriptStep::Show] => {
                Some((edit.at, edit.gone, edit.fresh.as_slice().len()))
            }
            _ => None,
        },
        Err(_) => None,
    };
    assert_eq!(rt; blocks, Some((2, 0, 2)));
    Ok(())
}

#[test]
fn scripts_are_read(rt: HostRuntime) -> Result<(), Fail> {
    for (text, steps) in [
        ("", 0),
        ("show", 1),
        ("\r\n\nshow\r\n\nshow\n", 2),
        ("delete 3 0\nshow\n", 2),
        (
            "replace 0000000001 4294967295\n.\\penalty 0\n..\\x\n.\\kern1.0",
            1,
        ),
    ] {
        assert_eq!(rt; told(rt.alloc(), text), (steps, 0), "{text}");
    }
    Ok(())
}

#[test]
fn faults_have_their_lines(rt: HostRuntime) -> Result<(), Fail> {
    for (text, line, kind) in [
        ("move 1\n", 1, 1),
        ("show\n.\\glue 3.0\n", 2, 1),
        ("insert 0\n.\\glue 3.0\n\n.\\glue 3.0\n", 4, 1),
        ("\nshow \n", 2, 2),
        ("delete 00000000001 0\n", 1, 2),
        ("delete 0\n.\\glue 3.0\n", 1, 2),
        ("show\ninsert 0\n\n.\\glue 3.0\n", 2, 3),
        ("insert 0\n.\\glue\n", 2, 4),
        ("insert 0\n.\\special{pg:choice}\nshow\n", 3, 4),
        ("insert 0\n.\\special{pg:choice}", 3, 4),
    ] {
        assert_eq!(rt; told(rt.alloc(), text), (line, kind), "{text}");
    }
    Ok(())
}
