//! Words and bytes, each where it is read and where it is not.
use super::printed_bytes;
use std::alloc::Global;
use std::process::Abort;

// Whether the text with this piece at its place is read.
fn is_read(rt: &impl Abort, alloc: Global, piece: &[u8], around: (&str, &str)) -> bool {
    let mut text = Vec::new(alloc);
    text.extend_from_slice(around.0.as_bytes())
        .expect(rt, "memory");
    text.extend_from_slice(piece).expect(rt, "memory");
    text.extend_from_slice(around.1.as_bytes())
        .expect(rt, "memory");
    printed_bytes(rt, alloc, text.as_slice()).as_str() != "unreadable"
}

/// Words that are no names.
static WORDS: &str = "mod func const add mul div read print pair sink scope box br cbr ret fork";

// No word of the notation is a name, and each is one with a letter more.
#[test]
fn words_that_are_no_names(rt: HostRuntime) {
    let alloc = rt.alloc();
    for around in [
        ("func { b0(): ", " = read }"),
        ("func { b0(", "): }"),
        ("func { ", "(): }"),
    ] {
        for word in WORDS.split_ascii_whitespace() {
            let longer = format!(in alloc; "{word}_").expect(&rt, "memory");
            assert!(&rt;
                !is_read(&rt, alloc, word.as_bytes(), around),
                "readable: {word}"
            );
            assert!(&rt;
                is_read(&rt, alloc, longer.as_bytes(), around),
                "unreadable: {longer}"
            );
        }
    }
}

// Each byte as a blank, as the first letter of a name and as a later one.
#[test]
fn bytes(rt: HostRuntime) {
    let alloc = rt.alloc();
    for byte in 0..=255_u8 {
        let is_blank = byte == b' ' || byte == b'\t' || byte == b'\r' || byte == b'\n';
        let is_letter = byte.is_ascii_uppercase() || byte.is_ascii_lowercase();
        let is_part = is_letter || byte.is_ascii_digit() || byte == b'_';
        let table = [
            (("func { ", " b0(): ret }"), is_blank),
            (("func { b0(): ", " = read }"), is_letter),
            (("func { b0(): x", "y = read }"), is_part),
        ];
        for (around, want) in &table {
            assert!(&rt;
                is_read(&rt, alloc, &[byte], *around) == *want,
                "byte {byte} in {}",
                around.0
            );
        }
    }
}
