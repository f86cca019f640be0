//! Tokens, by LLVM's lexer: a text a line, and what its tokens are.
use pliron_text_llvm_syntax::{LlvmToken, TokenKind, bytes_of, token_at};
use std::alloc::Global;
use std::process::Abort;

/// Texts, and their tokens but for blanks and comments, each in its kind's brackets.
static TOKENS: &str = "\
words -- add i32 => word(add) word(i32)
a statement -- %x = add nsw i32 -7, @g => name(%x) mark(=) word(add) word(nsw) word(i32) word(-7) mark(,) name(@g)
labels -- a: -1: $a: \"a b\": 12: => label(a:) label(-1:) label($a:) label(\"a b\":) label(12:)
names -- %5 @a.b $c !dbg #0 ^1 !7 => name(%5) name(@a.b) name($c) name(!dbg) name(#0) name(^1) name(!7)
names in quotes -- %\"a b\" @\"\" $\"c\" => name(%\"a b\") name(@\"\") name($\"c\")
a name of metadata with a backslash -- !llvm.x\\20y => name(!llvm.x\\20y)
metadata -- !{!\"a\", !0} => mark(!) open({) mark(!) text(\"a\") mark(,) name(!0) close(})
a backslash before a quote -- \"a\\\" b => text(\"a\\\") word(b)
bytes -- c\"a\\00\" c \"a\" => text(c\"a\\00\") word(c) text(\"a\")
floats -- 1.5e+00 -1.0E+3 +1.5 0xK4000 f0x1 => word(1.5e+00) word(-1.0E+3) word(+1.5) word(0xK4000) word(f0x1)
no exponent -- e+1 => word(e) word(+1)
brackets -- ([{<>}]) => open(() open([) open({) open(<) close(>) close(}) close(]) close())
marks -- =,*|: => mark(=) mark(,) mark(*) mark(|) mark(:)
dots -- ... => word(...)
a record -- #dbg_value(i32 %x) => name(#dbg_value) open(() word(i32) name(%x) close())
comments -- a ; b => word(a)
comments inside a line -- a/* b **/c/**/d => word(a) word(c) word(d)
an empty text --  =>";

// The kind's name.
fn name_of(kind: TokenKind) -> &'static str {
    match kind {
        TokenKind::Trivia => "trivia",
        TokenKind::Word => "word",
        TokenKind::Label => "label",
        TokenKind::Name => "name",
        TokenKind::Text => "text",
        TokenKind::Open(_) => "open",
        TokenKind::Close(_) => "close",
        TokenKind::Mark => "mark",
    }
}

fn write_token(rt: &impl Abort, text: &[u8], token: &LlvmToken, out: &mut String) {
    if token.kind == TokenKind::Trivia {
        return;
    }
    let bytes = text.get(token.span.start..token.span.end).unwrap_or(b"");
    out.push_str(" ").expect(rt, "memory");
    out.push_str(name_of(token.kind)).expect(rt, "memory");
    out.push_str("(").expect(rt, "memory");
    out.push_str(std::str::from_utf8(bytes).unwrap_or("?"))
        .expect(rt, "memory");
    out.push_str(")").expect(rt, "memory");
}

// The tokens of the text, each with its kind.
fn tokens_of(rt: &impl Abort, alloc: Global, text: &[u8]) -> String {
    let mut out = String::new(alloc);
    let mut at = 0;
    for _ in 0..text.len() {
        if at >= text.len() {
            break;
        }
        let token = token_at(text, at).ok().expect(rt, "a token");
        write_token(rt, text, &token, &mut out);
        at = token.span.end;
    }
    out
}

#[test]
fn tells_tokens_apart(rt: HostRuntime) {
    for case in TOKENS.lines() {
        let (name, row) = case.split_once(" -- ").expect(&rt, "a name");
        let (text, wanted) = row.split_once(" =>").expect(&rt, "a case");
        let found = tokens_of(&rt, rt.alloc(), text.as_bytes());
        assert!(rt; found.as_str() == wanted, "{name}: {found}");
    }
}

// The bytes of the token at this byte, none where none is there.
fn bytes_at(text: &[u8], at: usize) -> &[u8] {
    if at >= text.len() {
        return b"";
    }
    match token_at(text, at) {
        Ok(token) => bytes_of(text, token.span),
        Err(_) => b"",
    }
}

#[test]
fn gives_the_bytes_of_a_span(rt: HostRuntime) {
    assert!(rt; bytes_at(b"a bc", 2) == b"bc".as_slice());
    assert!(rt; bytes_at(b"a bc", 1) == b" ".as_slice());
}
