//! The laws on linked runs and on rewrite rules.
use pliron_dialect_bench::Bench;
use pliron_pass_linked::{linked_runs_agree, linked_runs_agree_on_inputs, linked_runs_kept};
use pliron_rewrite_inlining::{
    calls_are_inlined, inlined_calls_keep_linked_runs, inlined_roots_stay_fit,
    linked_runs_kept_by_name,
};
use pliron_rewrite_rules::{
    equal_values_replace_one_another, leaves_replace_results, operations_are_inserted,
    results_before_replace_results,
};

#[test]
fn laws_of_linked_runs(_rt: HostRuntime) {
    linked_runs_agree();
    linked_runs_agree_on_inputs();
    linked_runs_kept();
    calls_are_inlined();
    linked_runs_kept_by_name();
    inlined_calls_keep_linked_runs();
    inlined_roots_stay_fit();
}

#[test]
fn laws_of_rules(_rt: HostRuntime) {
    equal_values_replace_one_another::<Bench>();
    leaves_replace_results::<Bench>();
    results_before_replace_results::<Bench>();
    operations_are_inserted::<Bench>();
}
