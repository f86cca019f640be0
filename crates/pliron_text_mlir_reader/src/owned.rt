//! The properties that operations own, by their names, as far as passes read them.
ghost use Rattle.std.specs.Prelude.{◌≡◌};
ghost use Rattle.pliron_text_mlir_reader.specs.Owners.{owned_named, value_owners, predicate_owners, llvm_overflow_owners, arith_overflow_owners, exact_owners, edges_owners, callee_owners, symbol_owners};
ghost use Rattle.pliron_dialect_mlir.specs.Names.{is_named};

/// What is read of the properties of an operation. Every other entry of its property list and attribute dictionary is
/// text alone.
#[derive(Clone, Copy, Debug, PartialEq, Eq)]
pub enum OwnedProperty {
    Nothing,
    /// `value`: the number of a constant.
    Value,
    /// Nothing: the constant is the zero of its type.
    Zero,
    /// `predicate`, of a comparison.
    Predicate,
    /// `overflowFlags` of the dialect `llvm`: a property, which no attribute dictionary has.
    LlvmOverflow,
    /// `overflowFlags` of the dialect `arith`.
    ArithOverflow,
    /// `isExact`.
    Exact,
    /// `isDisjoint`.
    Disjoint,
    /// `nonNeg`.
    NonNegative,
    /// `operandSegmentSizes`, and of a switch `case_operand_segments` and `case_values`.
    Edges,
    /// `callee`: the function that is called.
    Callee,
    /// `sym_name`: the name of a function.
    Symbol,
}

fn owns_value(name: &[u8]) -> bool
    ensures { result ≡ is_named value_owners name.now }
{
    name == b"llvm.mlir.constant".as_slice() || name == b"arith.constant".as_slice()
}

fn owns_predicate(name: &[u8]) -> bool
    ensures { result ≡ is_named predicate_owners name.now }
{
    name == b"llvm.icmp".as_slice() || name == b"arith.cmpi".as_slice()
}

fn owns_llvm_overflow(name: &[u8]) -> bool
    ensures { result ≡ is_named llvm_overflow_owners name.now }
{
    name == b"llvm.add".as_slice()
        || name == b"llvm.sub".as_slice()
        || name == b"llvm.mul".as_slice()
        || name == b"llvm.shl".as_slice()
        || name == b"llvm.trunc".as_slice()
}

fn owns_arith_overflow(name: &[u8]) -> bool
    ensures { result ≡ is_named arith_overflow_owners name.now }
{
    name == b"arith.addi".as_slice()
        || name == b"arith.subi".as_slice()
        || name == b"arith.muli".as_slice()
        || name == b"arith.shli".as_slice()
        || name == b"arith.trunci".as_slice()
}

fn owns_exact(name: &[u8]) -> bool
    ensures { result ≡ is_named exact_owners name.now }
{
    name == b"llvm.udiv".as_slice()
        || name == b"llvm.sdiv".as_slice()
        || name == b"llvm.lshr".as_slice()
        || name == b"llvm.ashr".as_slice()
        || name == b"arith.divui".as_slice()
        || name == b"arith.divsi".as_slice()
        || name == b"arith.shrui".as_slice()
        || name == b"arith.shrsi".as_slice()
}

fn owns_edges(name: &[u8]) -> bool
    ensures { result ≡ is_named edges_owners name.now }
{
    name == b"llvm.cond_br".as_slice()
        || name == b"cf.cond_br".as_slice()
        || name == b"llvm.switch".as_slice()
        || name == b"cf.switch".as_slice()
}

fn owns_callee(name: &[u8]) -> bool
    ensures { result ≡ is_named callee_owners name.now }
{
    name == b"llvm.call".as_slice() || name == b"func.call".as_slice()
}

fn owns_symbol(name: &[u8]) -> bool
    ensures { result ≡ is_named symbol_owners name.now }
{
    name == b"llvm.func".as_slice() || name == b"func.func".as_slice()
}

/// What is read of the properties of operations of this name, without quotes. Cost: constant.
pub fn owned_by(name: &[u8]) -> OwnedProperty
    ensures { result ≡ owned_named name.now }
{
    if owns_value(name) {
        OwnedProperty::Value
    } else if name == b"llvm.mlir.zero".as_slice() {
        OwnedProperty::Zero
    } else if owns_predicate(name) {
        OwnedProperty::Predicate
    } else if owns_llvm_overflow(name) {
        OwnedProperty::LlvmOverflow
    } else if owns_arith_overflow(name) {
        OwnedProperty::ArithOverflow
    } else if owns_exact(name) {
        OwnedProperty::Exact
    } else if name == b"llvm.or".as_slice() {
        OwnedProperty::Disjoint
    } else if name == b"llvm.zext".as_slice() {
        OwnedProperty::NonNegative
    } else if owns_edges(name) {
        OwnedProperty::Edges
    } else if owns_callee(name) {
        OwnedProperty::Callee
    } else if owns_symbol(name) {
        OwnedProperty::Symbol
    } else {
        OwnedProperty::Nothing
    }
}
