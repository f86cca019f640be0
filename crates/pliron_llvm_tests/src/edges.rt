//! Edges of functions and what they pass to phis; where and why a function is refused or kept. `|` stands for the end of a
//! line.
use crate::lines::{at_place, with_lines};
use pliron_text_llvm_edges::{BlockEdge, BlockPhi, EdgeFault, EdgeForm, FunctionEdges, read_edges};
use pliron_text_llvm_functions::{FunctionFault, FunctionForm, FunctionReading, read_function};
use pliron_text_llvm_names::bytes_in;
use pliron_text_llvm_syntax::function_at;
use std::alloc::Global;
use std::process::Abort;

/// Functions, and their edges between blocks by number, the blocks that have edges with those from which they come, and
/// their phis: the block, and for each edge to it the value that it passes.
static READ: &str = "\
no edge -- define void @f() {|  ret void|} => edges; into; phis
one block after the other -- define void @f() {|  br label %a|a:|  br label %b|b:|  ret void|} => edges 0>1 1>2; into 1<0 2<1; phis
a loop -- define i32 @f(i32 %n) {|e:|  br label %h|h:|  %i = phi i32 [ 0, %e ], [ %j, %l ]|  %c = icmp slt i32 %i, %n|  br i1 %c, label %l, label %x|l:|  %j = add nsw i32 %i, 1|  br label %h|x:|  ret i32 %i|} => edges 0>1 1>2 1>3 2>1; into 1<0 1<2 2<1 3<1; phis 1(0=0 2=%j)
a loop of one block, with two phis -- define void @f(i1 %c) {|  br label %1|1:|  %a = phi i32 [ 1, %0 ], [ %b, %1 ]|  %b = phi i32 [ 2, %0 ], [ %a, %1 ]|  br i1 %c, label %1, label %2|2:|  ret void|} => edges 0>1 1>1 1>2; into 1<0 1<1 2<1; phis 1(0=1 1=%b) 1(0=2 1=%a)
a diamond, the entries in another order -- define i32 @f(i1 %c) {|  br i1 %c, label %a, label %b|a:|  br label %d|b:|  br label %d|d:|  %y = phi i32 [ 7, %b ], [ 5, %a ]|  ret i32 %y|} => edges 0>1 0>2 1>3 2>3; into 1<0 2<0 3<1 3<2; phis 3(1=5 2=7)
a branch to one block -- define i32 @f(i1 %c) {|a:|  br i1 %c, label %d, label %d|d:|  %y = phi i32 [ 1, %a ], [ 1, %a ]|  ret i32 %y|} => edges 0>1 0>1; into 1<0 1<0; phis 1(0=1 0=1)
a switch with two equal edges -- define i32 @f(i32 %x, i32 %v) {|  switch i32 %x, label %a [ i32 0, label %d i32 1, label %d ]|a:|  br label %d|d:|  %y = phi i32 [ %v, %0 ], [ 7, %a ], [ %v, %0 ]|  ret i32 %y|} => edges 0>1 0>2 0>2 1>2; into 1<0 2<0 2<0 2<1; phis 2(0=%v 0=%v 1=7)
an invoke -- define i32 @f() personality ptr @p {|  %r = invoke i32 @g() to label %n unwind label %u|n:|  ret i32 %r|u:|  %l = landingpad { ptr, i32 } cleanup|  resume { ptr, i32 } %l|} => edges 0>1 0>2; into 1<0 2<0; phis
a block to which no edge leads -- define i32 @f() {|  br label %d|b:|  br label %d|d:|  %y = phi i32 [ 1, %0 ], [ 2, %b ]|  ret i32 %y|} => edges 0>2 1>2; into 2<0 2<1; phis 2(0=1 1=2)";

/// Functions that LLVM refuses, and the place and what was expected there.
static REFUSED: &str = "\
an edge to the first block -- define void @f() {|a:|  br label %a|} => 3:12 no edge to the first block
a phi behind another statement -- define i32 @f(i1 %c) {|a:|  br i1 %c, label %b, label %d|b:|  br label %d|d:|  %x = add i32 1, 2|  %y = phi i32 [ 1, %a ], [ 2, %b ]|  ret i32 %y|} => 8:3 phis only at the beginning of a block
an entry is missing -- define i32 @f(i1 %c) {|a:|  br i1 %c, label %b, label %d|b:|  br label %d|d:|  %y = phi i32 [ 1, %a ]|  ret i32 %y|} => 7:8 a value for each edge to this block
an entry for a block from which no edge leads -- define i32 @f(i1 %c) {|a:|  br i1 %c, label %b, label %d|b:|  br label %d|d:|  %y = phi i32 [ 1, %a ], [ 2, %b ], [ 3, %d ]|  ret i32 %y|} => 7:8 a value for each edge to this block
two entries for one edge -- define i32 @f(i1 %c) {|a:|  br i1 %c, label %b, label %d|b:|  br label %d|d:|  %y = phi i32 [ 1, %a ], [ 2, %b ], [ 2, %b ]|  ret i32 %y|} => 7:8 a value for each edge to this block
one entry for two edges -- define i32 @f(i1 %c) {|a:|  br i1 %c, label %d, label %d|d:|  %y = phi i32 [ 1, %a ]|  ret i32 %y|} => 5:8 a value for each edge to this block
two values for one block -- define i32 @f(i1 %c, i32 %v, i32 %w) {|a:|  br i1 %c, label %d, label %d|d:|  %y = phi i32 [ %v, %a ], [ %w, %a ]|  ret i32 %y|} => 5:30 one value for each block before
an entry for a block that isn't defined -- define i32 @f(i1 %c) {|a:|  br label %d|d:|  %y = phi i32 [ 1, %z ]|  ret i32 %y|} => 5:21 a block of this function
an entry for a value -- define i32 @f(i1 %c) {|a:|  br label %d|d:|  %y = phi i32 [ 1, %c ]|  ret i32 %y|} => 5:21 a block of this function
a phi in the first block -- define i32 @f() {|a:|  %y = phi i32 [ 1, %a ]|  ret i32 %y|} => 3:8 a value for each edge to this block";

/// Functions that are kept as they are written, and the place and the reason.
static KEPT: &str = "\
two texts of a constant -- define i32 @f(i1 %c) {|a:|  br i1 %c, label %d, label %d|d:|  %y = phi i32 [ 1, %a ], [ 01, %a ]|  ret i32 %y|} => 5:29 kept: two texts of a constant for one block";

// Adds the text.
fn add(rt: &impl Abort, out: &mut String, text: &str) {
    out.push_str(text).expect(rt, "memory");
}

// Adds the edge, with the mark between its blocks.
fn add_edge(rt: &impl Abort, alloc: Global, out: &mut String, from: usize, mark: char, to: usize) {
    let edge = format!(in alloc; " {from}{mark}{to}").expect(rt, "memory");
    add(rt, out, edge.as_str());
}

// Adds the edges that lead to each block.
fn add_incoming(rt: &impl Abort, alloc: Global, out: &mut String, incoming: &[Vec<BlockEdge>]) {
    for list in incoming {
        for edge in list {
            add_edge(rt, alloc, out, edge.to, '<', edge.from);
        }
    }
}

// Adds the phi: its block, and for each edge the block that it comes from and the value that it passes.
fn add_phi(
    rt: &impl Abort,
    alloc: Global,
    text: &[u8],
    reading: &FunctionReading,
    out: &mut String,
    phi: &BlockPhi,
) {
    let block = phi.place.block;
    add(
        rt,
        out,
        format!(in alloc; " {block}(").expect(rt, "memory").as_str(),
    );
    for (i, entry) in phi.entries.iter().enumerate() {
        let hole = reading.body.holes.get(entry.value).expect(rt, "a hole");
        let value = std::str::from_utf8(bytes_in(text, hole.span)).unwrap_or("");
        let from = entry.block;
        let blank = if i == 0 { "" } else { " " };
        add(
            rt,
            out,
            format!(in alloc; "{blank}{from}={value}")
                .expect(rt, "memory")
                .as_str(),
        );
    }
    add(rt, out, ")");
}

// The edges, those that lead to each block, and the phis.
fn edges_of(
    rt: &impl Abort,
    alloc: Global,
    text: &[u8],
    reading: &FunctionReading,
    found: &FunctionEdges,
) -> String {
    let mut out = String::new(alloc);
    add(rt, &mut out, " edges");
    for edge in &found.edges {
        add_edge(rt, alloc, &mut out, edge.from, '>', edge.to);
    }
    add(rt, &mut out, "; into");
    add_incoming(rt, alloc, &mut out, &found.incoming);
    add(rt, &mut out, "; phis");
    for phi in &found.phis {
        add_phi(rt, alloc, text, reading, &mut out, phi);
    }
    out
}

// What is found of the edges of a function that was read.
fn form_of_reading(
    rt: &impl Abort,
    alloc: Global,
    text: &[u8],
    reading: &FunctionReading,
) -> String {
    match read_edges(alloc, text, reading) {
        Ok(EdgeForm::Read(found)) => edges_of(rt, alloc, text, reading, &found),
        Ok(EdgeForm::Kept(at, why)) => {
            let why = format!(in alloc; "kept: {why}").expect(rt, "memory");
            at_place(rt, alloc, text, at, why.as_str())
        }
        Err(EdgeFault::Refused(at, why)) => {
            let why = format!(in alloc; "{why}").expect(rt, "memory");
            at_place(rt, alloc, text, at, why.as_str())
        }
        Err(EdgeFault::NoMemory) => format!(in alloc; " no memory").expect(rt, "memory"),
    }
}

// What is found of the edges of the function.
fn form_of(rt: &impl Abort, alloc: Global, text: &[u8]) -> String {
    assert!(rt; !text.is_empty());
    let function = function_at(text, 0, &mut Vec::new(alloc))
        .ok()
        .expect(rt, "a function");
    match read_function(alloc, text, &function) {
        Ok(FunctionForm::Read(reading)) => form_of_reading(rt, alloc, text, &reading),
        Err(FunctionFault::Refused(at, why)) => {
            let why = format!(in alloc; "{why}").expect(rt, "memory");
            at_place(rt, alloc, text, at, why.as_str())
        }
        Ok(FunctionForm::Kept(_, _)) | Err(FunctionFault::Broken(_)) => {
            format!(in alloc; " not read").expect(rt, "memory")
        }
    }
}

fn expect_edges(rt: &impl Abort, alloc: Global, case: &str) {
    let (name, row) = case.split_once(" -- ").expect(rt, "a name");
    let (text, wanted) = row.split_once(" =>").expect(rt, "a case");
    let lines = with_lines(alloc, text).expect(rt, "memory");
    let found = form_of(rt, alloc, lines.as_str().as_bytes());
    assert!(rt; found.as_str() == wanted, "{name}: {found}");
}

#[test]
fn reads_edges_and_phis(rt: HostRuntime) {
    for case in READ.lines() {
        expect_edges(&rt, rt.alloc(), case);
    }
}

#[test]
fn refuses_edges_and_phis(rt: HostRuntime) {
    for case in REFUSED.lines() {
        expect_edges(&rt, rt.alloc(), case);
    }
}

#[test]
fn keeps_functions_for_their_edges(rt: HostRuntime) {
    for case in KEPT.lines() {
        expect_edges(&rt, rt.alloc(), case);
    }
}
