//! The names in MLIR's texts that inlining goes by.

/// Entries of a function that may differ between a caller and its callee: its name, its type, what others see of it, and what
/// it promises.
pub(crate) static OWN: [&str; 19] = [
    "sym_name",
    "sym_visibility",
    "function_type",
    "arg_attrs",
    "res_attrs",
    "linkage",
    "visibility_",
    "dso_local",
    "unnamed_addr",
    "no_unwind",
    "will_return",
    "memory_effects",
    "always_inline",
    "inline_hint",
    "no_inline",
    "CConv",
    "comdat",
    "section",
    "alignment",
];

/// Entries of a function that isn't inlined.
pub(crate) static NEVER_INLINED: [&str; 6] = [
    "no_inline",
    "optimize_none",
    "naked",
    "returns_twice",
    "garbageCollector",
    "personality",
];

/// The same among the attributes that are handed to LLVM as they are.
pub(crate) static NEVER_INLINED_IN_LLVM: [&str; 8] = [
    "noinline",
    "optnone",
    "naked",
    "returns_twice",
    "presplitcoroutine",
    "noduplicate",
    "strictfp",
    "gc",
];

/// Marks of arguments that a call passes otherwise than as a value.
pub(crate) static PASSED_OTHERWISE: [&str; 6] = [
    "llvm.byval",
    "llvm.inalloca",
    "llvm.preallocated",
    "llvm.nest",
    "llvm.swifterror",
    "llvm.swiftasync",
];

/// Linkages whose body no other one may replace.
pub(crate) static EXACT_LINKAGES: [&str; 6] = [
    "private",
    "internal",
    "external",
    "available_externally",
    "linkonce_odr",
    "weak_odr",
];

/// The flag of a module of which bodies that aren't local may be replaced when the program is loaded.
pub(crate) static REPLACED: [&str; 1] = ["SemanticInterposition"];

/// Linkages and visibilities of functions that nobody else names.
pub(crate) static PRIVATE: [&str; 2] = ["private", "internal"];

/// Entries of a call that may be inlined, beside those whose values are looked at.
pub(crate) static OF_CALLS: [&str; 13] = [
    "callee",
    "CConv",
    "res_attrs",
    "fastmathFlags",
    "operandSegmentSizes",
    "memory_effects",
    "no_unwind",
    "will_return",
    "always_inline",
    "inline_hint",
    "branch_weights",
    "tbaa",
    "access_groups",
];

/// Entries of an operation that belongs to its function alone: scopes of aliases, which hold for one run of it.
pub(crate) static NEVER_COPIED: [&str; 4] = [
    "alias_scopes",
    "noalias_scopes",
    "returns_twice",
    "op_bundle_tags",
];

/// Functions that come back more than once, or look at the frame of their caller.
pub(crate) static SEES_FRAME: [&str; 7] = [
    "@setjmp",
    "@_setjmp",
    "@sigsetjmp",
    "@__sigsetjmp",
    "@vfork",
    "@getcontext",
    "@alloca",
];

/// Operations that calls are, and what they cost.
pub(crate) static CALLING: [&str; 4] = [
    "\"llvm.call\"",
    "\"func.call\"",
    "\"func.call_indirect\"",
    "\"llvm.invoke\"",
];

/// Operations that no code is made for, or that a jump or a return costs nothing.
pub(crate) static FREE: [&str; 18] = [
    "\"llvm.mlir.constant\"",
    "\"llvm.mlir.addressof\"",
    "\"llvm.mlir.zero\"",
    "\"llvm.mlir.undef\"",
    "\"llvm.mlir.poison\"",
    "\"arith.constant\"",
    "\"func.constant\"",
    "\"llvm.bitcast\"",
    "\"llvm.inttoptr\"",
    "\"llvm.ptrtoint\"",
    "\"llvm.freeze\"",
    "\"llvm.br\"",
    "\"llvm.return\"",
    "\"llvm.unreachable\"",
    "\"cf.br\"",
    "\"func.return\"",
    "\"llvm.intr.assume\"",
    "\"llvm.intr.expect\"",
];
