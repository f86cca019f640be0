//! What inlining over a module answers.
use pliron_core::{Operation, Ptr, Value};

/// Why a call was inlined.
#[derive(Clone, Copy, Debug, PartialEq, Eq, Drop)]
pub enum InliningReason {
    /// The policy asks for it.
    AskedFor,
    /// The callee isn't larger than the threshold.
    Small,
    /// It is the only call of a private function.
    OnlyCall,
}

/// A call that was inlined: the function that called, the one that it called, and why.
#[derive(Clone, Copy, Debug, PartialEq, Eq, Drop)]
pub struct InlinedCall {
    pub caller: Ptr<Operation>,
    pub callee: Ptr<Operation>,
    pub reason: InliningReason,
}

/// A value that was made, and the older one that it stands for: a result of the call, or a value of the callee.
#[derive(Clone, Copy, Debug, PartialEq, Eq, Drop)]
pub struct MadeValue {
    pub value: Value,
    pub original: Value,
}

/// The calls that were inlined, and the values that were made for that, each in their order.
#[derive(Debug, Drop)]
pub struct InlinedCalls {
    pub calls: Vec<InlinedCall>,
    pub values: Vec<MadeValue>,
}
