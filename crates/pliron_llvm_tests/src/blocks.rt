//! Blocks of bodies: `l` is a label, `-` a statement, `t` one that ends a block.
use pliron_text_llvm_reader::{BlockFault, BlockLines, LineRole, split_blocks};
use std::alloc::Global;
use std::process::Abort;

/// Lines, and where their blocks end; or the line where the end of a block was expected.
static BODIES: &str = "\
a statement that ends the block => t => 1
two blocks => --tl-t => 3 6
a block without a label behind another one => -t-t => 2 4
labels and ends alone => ltltlt => 2 4 6
no line => => no block
no end => -- => line 2
a label where an end is expected => -l-t => line 1
a label alone at the end => tl => line 2
two labels => llt => line 1
a statement behind the last end => t- => line 2";

// What the letter says of its line.
fn role_of(letter: u8) -> LineRole {
    match letter {
        b'l' => LineRole::Label,
        b't' => LineRole::Terminator,
        _ => LineRole::Plain,
    }
}

// Where the blocks end, with a blank between them.
fn ends_of(rt: &impl Abort, alloc: Global, blocks: &[BlockLines]) -> String {
    let mut out = String::new(alloc);
    for block in blocks {
        let end = format!(in alloc; "{} ", block.end).expect(rt, "memory");
        out.push_str(end.as_str()).expect(rt, "memory");
    }
    out
}

// What the lines are read as.
fn reading_of(rt: &impl Abort, alloc: Global, letters: &str) -> String {
    let mut roles = Vec::new(alloc);
    for letter in letters.as_bytes() {
        roles.push(role_of(*letter)).expect(rt, "memory");
    }
    let mut blocks = Vec::new(alloc);
    match split_blocks(&roles, &mut blocks) {
        Ok(()) => ends_of(rt, alloc, &blocks),
        Err(BlockFault::NoBlock) => format!(in alloc; "no block").expect(rt, "memory"),
        Err(BlockFault::NoTerminator(line)) => format!(in alloc; "line {line}").expect(
            rt, "memory",
        ),
        Err(BlockFault::NoMemory) => format!(in alloc; "no memory").expect(rt, "memory"),
    }
}

#[test]
fn splits_bodies_into_blocks(rt: HostRuntime) {
    for case in BODIES.lines() {
        let (name, row) = case.split_once(" => ").expect(&rt, "a name");
        let (letters, wanted) = row.split_once("=> ").expect(&rt, "a case");
        let found = reading_of(&rt, rt.alloc(), letters.trim_end());
        assert!(rt;
            found.as_str().trim_end() == wanted.trim_end(),
            "{name}: {found}"
        );
    }
}
