//! Names of values and blocks: `#` stands before a number, and `=` before a text.
use pliron_text_llvm_names::{
    DefinitionKind, LocalDefinition, LocalName, NameFault, bytes_in, label_name, local_name,
    name_definitions, resolve_uses,
};
use pliron_text_llvm_syntax::{ByteSpan, Hole, HoleKind};
use std::alloc::Global;
use std::process::Abort;

/// Local names, and what they say. LLVM reads them so.
static LOCAL: &str = "\
a word -- %x.1 => =x.1
a word that begins with a digit's sign -- %-1 => =-1
what is in quotes -- %\"a b\" => =a b
nothing in quotes -- %\"\" => =
a number -- %12 => #12
zeros before a number -- %007 => #7
digits in quotes -- %\"7\" => =7
the greatest number of 32 bits -- %4294967295 => #4294967295
a greater number -- %4294967296 => large
an escape -- %\"\\41\" => escape";

// What the name says, or why it isn't read.
fn said(rt: &impl Abort, alloc: Global, name: Result<LocalName<'_>, NameFault>) -> String {
    match name {
        Ok(LocalName::Number(number)) => format!(in alloc; "#{number}").expect(rt, "memory"),
        Ok(LocalName::Text(text)) => {
            let bytes = Vec::from_slice(alloc, text).expect(rt, "memory");
            let text = String::from_utf8(bytes).ok().expect(rt, "a text");
            format!(in alloc; "={text}").expect(rt, "memory")
        }
        Err(NameFault::Escape) => format!(in alloc; "escape").expect(rt, "memory"),
        Err(NameFault::LargeNumber) => format!(in alloc; "large").expect(rt, "memory"),
    }
}

fn whole(text: &str) -> ByteSpan {
    ByteSpan {
        start: 0,
        end: text.len(),
    }
}

fn expect_name(rt: &impl Abort, alloc: Global, case: &str) {
    let (name, row) = case.split_once(" -- ").expect(rt, "a name");
    let (text, wanted) = row.split_once(" => ").expect(rt, "a case");
    let found = said(rt, alloc, local_name(text.as_bytes(), whole(text)));
    assert!(rt; found.as_str() == wanted, "{name}: {found}");
}

#[test]
fn reads_local_names(rt: HostRuntime) {
    for case in LOCAL.lines() {
        expect_name(&rt, rt.alloc(), case);
    }
}

#[test]
fn reads_labels(rt: HostRuntime) {
    let text = "\"a b\":";
    let found = said(&rt, rt.alloc(), label_name(text.as_bytes(), whole(text)));
    assert!(rt; found.as_str() == "=a b", "{found}");
}

#[test]
fn takes_bytes_of_spans(rt: HostRuntime) {
    let bytes = bytes_in(b"define", ByteSpan { start: 2, end: 4 });
    assert!(rt; bytes == b"fi".as_slice());
}

// What the holes of the text name, among these definitions.
fn targets_in(
    rt: &impl Abort,
    alloc: Global,
    text: &[u8],
    definitions: &[LocalDefinition],
    holes: &[Hole],
) -> Vec<Option<usize>> {
    let mut targets = Vec::new(alloc);
    match name_definitions(alloc, text, definitions) {
        Ok(table) => {
            resolve_uses(text, definitions, &table, holes, &mut targets)
                .ok()
                .expect(rt, "uses");
        }
        Err(_) => panic!(rt; "names"),
    }
    targets
}

#[test]
fn names_definitions(rt: HostRuntime) {
    let text = b"%x b: %3";
    let named = |what, start, end| LocalDefinition {
        what,
        name: Some(ByteSpan { start, end }),
    };
    let unnamed = |what| LocalDefinition { what, name: None };
    let definitions = [
        named(DefinitionKind::Argument(0), 0, 2),
        unnamed(DefinitionKind::Argument(1)),
        named(DefinitionKind::Block(0), 3, 5),
        named(DefinitionKind::Result(1), 6, 8),
        unnamed(DefinitionKind::Result(2)),
    ];
    let table = name_definitions(rt.alloc(), text, &definitions)
        .ok()
        .expect(&rt, "names");
    assert!(rt; table.find(LocalName::Text(b"x")) == Some(0));
    assert!(rt; table.find(LocalName::Number(0)) == Some(1));
    assert!(rt; table.find(LocalName::Text(b"b")) == Some(2));
    assert!(rt; table.find(LocalName::Number(3)) == Some(3));
    assert!(rt; table.find(LocalName::Number(4)) == Some(4));
    assert!(rt; table.find(LocalName::Number(1)).is_none());
    let holes = [Hole {
        kind: HoleKind::Operand,
        span: ByteSpan { start: 6, end: 8 },
    }];
    let targets = targets_in(&rt, rt.alloc(), text, &definitions, &holes);
    assert!(rt; targets.as_slice() == [Some(3)].as_slice());
}
