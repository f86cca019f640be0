//! Large and awkward modules.
use pliron_text_llvm_syntax::{ExpectedSyntax, LlvmFault, ModulePart, split_text};
use std::alloc::Global;
use std::process::Abort;

// The text that is repeated so often.
fn repeat(rt: &impl Abort, text: &[u8], times: usize, out: &mut Vec<u8>) {
    for _ in 0..times {
        out.extend_from_slice(text).expect(rt, "memory");
    }
}

// How many parts the text has.
fn count(rt: &impl Abort, alloc: Global, text: &[u8]) -> usize {
    split_text(alloc, text).ok().expect(rt, "parts").len()
}

#[test]
fn takes_a_million_brackets_in_one_another(rt: HostRuntime) {
    let mut text = Vec::new(rt.alloc());
    repeat(&rt, b"[", 1_000_000, &mut text);
    repeat(&rt, b"]", 1_000_000, &mut text);
    assert_eq!(rt; count(&rt, rt.alloc(), &text), 1);
}

#[test]
fn refuses_a_million_open_brackets_at_the_end(rt: HostRuntime) {
    let mut text = Vec::new(rt.alloc());
    repeat(&rt, b"<", 1_000_000, &mut text);
    let found = split_text(rt.alloc(), &text).err();
    assert!(rt; found == Some(LlvmFault::Expected(1_000_000, ExpectedSyntax::CloseAngle)));
}

#[test]
fn takes_a_name_of_a_million_bytes(rt: HostRuntime) {
    let mut text = Vec::new(rt.alloc());
    repeat(&rt, b"define void @", 1, &mut text);
    repeat(&rt, b"a", 1_000_000, &mut text);
    repeat(&rt, b"() {}", 1, &mut text);
    assert_eq!(rt; count(&rt, rt.alloc(), &text), 1);
}

#[test]
fn takes_a_hundred_thousand_functions(rt: HostRuntime) {
    let mut text = Vec::new(rt.alloc());
    repeat(&rt, b"define void @f() { ret void }\n", 100_000, &mut text);
    assert_eq!(rt; count(&rt, rt.alloc(), &text), 200_000);
}

#[test]
fn takes_numbers_without_blanks_between_them(rt: HostRuntime) {
    let mut text = Vec::new(rt.alloc());
    repeat(&rt, b"-1", 1_000_000, &mut text);
    assert_eq!(rt; count(&rt, rt.alloc(), &text), 1);
}

#[test]
fn takes_bytes_that_are_no_text(rt: HostRuntime) {
    let text = b"\0; \xff\r\n@g = global [2 x i8] c\"\xff\x01\"".as_slice();
    let parts = split_text(rt.alloc(), text).ok().expect(&rt, "parts");
    assert_eq!(rt; parts.len(), 1);
    for part in &parts {
        assert!(rt; matches!(part, ModulePart::Raw(span) if span.end == text.len()));
    }
}
