//! Forms, cut and filled. `_` stands for an operand, `^` for a successor.
use pliron_text_llvm_syntax::{ByteSpan, Hole, HoleKind, are_holes, cut, fill, is_mark, num_mark};
use std::alloc::Global;
use std::process::Abort;

static STATEMENT: &str = "br i1 %c, label %a, label %b";

static HOLES: [Hole; 3] = [
    Hole {
        kind: HoleKind::Operand,
        span: ByteSpan { start: 6, end: 8 },
    },
    Hole {
        kind: HoleKind::Successor,
        span: ByteSpan { start: 16, end: 18 },
    },
    Hole {
        kind: HoleKind::Successor,
        span: ByteSpan { start: 26, end: 28 },
    },
];

fn form_of(rt: &impl Abort, alloc: Global, text: &[u8], holes: &[Hole]) -> Vec<u8> {
    assert!(rt; are_holes(text, holes), "holes in order");
    cut(alloc, text, holes).expect(rt, "memory")
}

#[test]
fn cuts_a_mark_for_each_hole(rt: HostRuntime) {
    let form = form_of(&rt, rt.alloc(), STATEMENT.as_bytes(), &HOLES);
    assert!(rt; form.as_slice() == b"br i1 \0, label \x01, label \x01".as_slice());
    assert_eq!(rt; num_mark(&form), 3);
}

#[test]
fn fills_a_form(rt: HostRuntime) {
    let form = b"br i1 \0, label \x01, label \x01".as_slice();
    let texts = [b"true".as_slice(), b"%5".as_slice(), b"%a".as_slice()];
    let text = fill(rt.alloc(), form, &texts).expect(&rt, "memory");
    assert!(rt; text.as_slice() == b"br i1 true, label %5, label %a".as_slice());
}

#[test]
fn fills_marks_without_a_text_with_nothing(rt: HostRuntime) {
    let text = fill(rt.alloc(), b"a\0b\x01c", &[b"x".as_slice()]).expect(&rt, "memory");
    assert!(rt; text.as_slice() == b"axbc".as_slice());
}

#[test]
fn tells_holes_that_overlap(rt: HostRuntime) {
    let (hole, next) = (HOLES[0], HOLES[1]);
    let text = STATEMENT.as_bytes();
    assert!(rt; !are_holes(text, &[next, hole]), "falling");
    assert!(rt; !are_holes(text, &[hole, hole]), "twice");
    assert!(rt; !are_holes(b"br i1 ", &[hole]), "past the end");
}

#[test]
fn tells_marks(rt: HostRuntime) {
    assert!(rt; is_mark(HoleKind::Operand.mark()));
    assert!(rt; is_mark(HoleKind::Successor.mark()));
    assert!(rt; !is_mark(2));
}
