//! The public names of `pliron_core` that no other test takes, at their places.
use crate::steps::in_new_context;
use crate::straight::build_sum;
use pliron_core::{
    AttrObj, Attrs, Context, InlineList, NoMemory, OpInsertionPoint, OperationEntry, RegionSlot,
    Use, change_laws,
};
use std::alloc::Global;
use std::process::Abort;

// A type has this name.
fn is_type<T>() {}

#[test]
fn names_and_laws(rt: HostRuntime) {
    is_type::<NoMemory>();
    is_type::<OperationEntry>();
    is_type::<RegionSlot>();
    is_type::<Use>();
    change_laws();
    assert!(rt; OpInsertionPoint::Unset == OpInsertionPoint::Unset);
}

fn fill_row(rt: &impl Abort, row: &mut InlineList<u32>) {
    assert!(rt; row.is_empty());
    row.push(3).expect(rt, "memory");
    row.push(5).expect(rt, "memory");
    assert_eq!(rt; row.len(), 2);
    row.remove(0);
    row.set(0, 7);
    assert_eq!(rt; row.get(0), 7);
    assert_eq!(rt; row.last(), Some(7));
    row.pop();
    assert_eq!(rt; row.last(), None);
}

#[test]
fn items_of_a_row(rt: HostRuntime) {
    let mut row = InlineList::new(rt.alloc());
    fill_row(&rt, &mut row)
}

#[test]
fn attributes_as_a_list(rt: HostRuntime) {
    let attrs = [AttrObj::Int(7)];
    let list = Attrs::new(Vec::from_array(rt.alloc(), attrs).expect(&rt, "memory"));
    assert_eq!(rt; list.into_vec().len(), 1);
}

// The operations directly inside the root, in turn, by their places.
fn walk_inside(rt: &impl Abort, alloc: Global, ctx: &mut Context) {
    let sum = build_sum(rt, alloc, ctx);
    ctx.well_formed();
    ctx.contents_agree();
    assert!(rt; sum.func.is_live(ctx));
    assert!(rt; sum.func.first_inside(ctx) == Some(sum.one));
    assert!(rt; sum.one.is_live(ctx));
    assert!(rt; sum.one.next_beside(ctx) == Some(sum.two));
    assert!(rt; sum.ret.is_live(ctx));
    assert!(rt; sum.ret.next_beside(ctx) == None);
}

#[test]
fn walks_over_what_is_directly_inside(rt: HostRuntime) {
    in_new_context(&rt, rt.alloc(), walk_inside)
}
