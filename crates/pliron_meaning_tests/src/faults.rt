//! The texts of the faults, and what becomes allocation failure.
use pliron_core::NoMemory;
use pliron_test_cases::OptError;
use std::alloc::{AllocError, Global};
use std::process::Abort;

static TEXTS: &str = "Memory => want of memory
LiveUse => a value of an unreachable block is used
VerifyBefore => verification failed before the pass
VerifyAfter => verification failed after the pass
Pass(7) => the pass failed with code 7";

// The name of the fault, and its text after an arrow, are the case.
fn check_fault(rt: &impl Abort, alloc: Global, fault: &OptError, case: &str) {
    let got = format!(in alloc; "{fault:?} => {fault}").expect(rt, "memory");
    assert_eq!(rt; got.as_str(), case, "{case}");
}

#[test]
fn texts_of_the_five_faults(rt: HostRuntime) {
    let faults = [
        OptError::Memory,
        OptError::LiveUse,
        OptError::VerifyBefore,
        OptError::VerifyAfter,
        OptError::Pass(7),
    ];
    for (fault, case) in faults.iter().zip(TEXTS.lines()) {
        check_fault(&rt, rt.alloc(), fault, case);
    }
}

#[test]
fn refusals_become_want_of_memory(rt: HostRuntime) {
    assert!(rt; OptError::from(NoMemory) == OptError::Memory);
    assert!(rt; OptError::from(AllocError) == OptError::Memory);
}
