//! The components of graphs of calls.
use crate::building::module;
use crate::policy::Routines;
use pliron_core::Context;
use pliron_graph_calls::FunctionTable;
use pliron_graph_components::Scc;
use pliron_opt_inline::call_components;
use pliron_test_cases::cases::row_of;
use std::alloc::Global;
use std::process::Abort;

// A line has a name, the functions of a module, and the places of those of each component, in order.
static ROWS: &str = "\
one that calls nothing -- func@f 0: ret 0 => 0
a chain of three -- func@f 0: call@g 0; ret 0 / func@g 0: call@h 0; ret 0 / func@h 0: ret 0 => 0|1|2
the callee stands first -- func@g 0: ret 0 / func@f 0: call@g 0; ret 0 => 1|0
a call of itself -- func@f 0: call@f 0; ret 0 => 0
two that call each other -- func@f 0: call@g 0; ret 0 / func@g 0: call@f 0; ret 0 => 1 0
a call of no function here -- func@f 0: call@k 0; ret 0 => 0
";

fn push_component(component: &Scc<u32>, text: &mut String) -> Option<()> {
    for (i, place) in component.nodes.iter().enumerate() {
        if i > 0 {
            text.push_str(" ").ok()?;
        }
        write!(text, "{place}").ok()?;
    }
    Some(())
}

fn written(alloc: Global, components: &[Scc<u32>]) -> Option<String> {
    let mut text = String::new(alloc);
    for (i, component) in components.iter().enumerate() {
        if i > 0 {
            text.push_str("|").ok()?;
        }
        push_component(component, &mut text)?;
    }
    Some(text)
}

fn components_in(alloc: Global, table: &FunctionTable, ctx: &Context) -> Option<String> {
    if !table
        .functions()
        .iter()
        .all(|function| function.is_live(ctx))
    {
        return None;
    }
    let components = call_components::<Routines>(alloc, table, ctx).ok()?;
    written(alloc, &components)
}

fn answered(alloc: Global, ctx: &mut Context, functions: &str) -> Option<String> {
    let holder = module(alloc, ctx, functions)?;
    if !holder.is_live(ctx) {
        return None;
    }
    let table = FunctionTable::of::<Routines>(alloc, holder, ctx).ok()??;
    components_in(alloc, &table, ctx)
}

fn check_row(rt: &impl Abort, alloc: Global, row: &str) {
    let row = row_of(row).expect(rt, "a row");
    let found = answered(alloc, &mut Context::new(alloc), row.asked).expect(rt, "the whole");
    assert_eq!(rt; found.as_str(), row.want, "{}", row.name);
}

#[test]
fn callers_come_first(rt: HostRuntime) {
    for row in ROWS.lines() {
        check_row(&rt, rt.alloc(), row);
    }
}
