//! The classes by the names of MLIR.
ghost use Rattle.std.specs.Prelude.{◌≡◌};
ghost use Rattle.pliron_dialect_mlir.specs.Names.{class_named as class_named_in, classes_elsewhere};
ghost use Rattle.pliron_dialect_mlir.specs.Names.{complex_class as complex_class_of, arith_class as arith_class_of};
ghost use Rattle.pliron_dialect_mlir.specs.Names.{arith_classes, arith_operators, llvm_class as llvm_class_of, llvm_classes};
ghost use Rattle.pliron_dialect_mlir.specs.Names.{llvm_operators, llvm_effects, llvm_local, effect_intrinsics, lookup, is_named, is_pure as is_pure_of, is_effect as is_effect_of};
ghost use Rattle.pliron_dialect_mlir.specs.Names.{pure_casts, pure_aggregates, float_operations, counting_intrinsics};
ghost use Rattle.pliron_dialect_mlir.specs.Names.{overflowing_intrinsics, hinting_intrinsics, float_functions};
ghost use Rattle.pliron_dialect_mlir.specs.Names.{float_roundings, float_others, is_pure_intrinsic as is_pure_intrinsic_of};

use crate::kind::Class;
use pliron_bits::{BinaryOperator, Cast};

/// The class of the operations of this name, where their operands and results are integers of at most 64 bits or
/// `index`; none for a name that is not known.
///
/// An operation has no side effects only where LLVM and MLIR say that it is pure: neither loads nor calls, nor what
/// may give another value each time, as `llvm.mlir.undef`, `llvm.freeze` and `llvm.alloca`. Cost: linear in the name.
pub fn class_named(name: &[u8]) -> Option<Class>
    ensures { result ≡ class_named_in name.now }
{
    if let Some(rest) = name.strip_prefix(b"llvm.") {
        llvm_class(rest)
    } else if let Some(rest) = name.strip_prefix(b"arith.") {
        Some(arith_class(rest))
    } else if let Some(_) = name.strip_prefix(b"math.") {
        Some(Class::Opaque)
    } else if let Some(_) = name.strip_prefix(b"complex.") {
        Some(complex_class(name))
    } else {
        class_elsewhere(name)
    }
}

// Of the dialects `builtin`, `func`, `cf`, and of the terminators of some others that only pass on their operands.
fn class_elsewhere(name: &[u8]) -> Option<Class>
    ensures { result ≡ lookup classes_elsewhere name.now }
{
    if name == b"builtin.module".as_slice() {
        Some(Class::Module)
    } else if name == b"builtin.unrealized_conversion_cast".as_slice() {
        Some(Class::Opaque)
    } else if name == b"func.func".as_slice() {
        Some(Class::Root)
    } else if name == b"func.return".as_slice() {
        Some(Class::Leave)
    } else if name == b"func.constant".as_slice() {
        Some(Class::Constant)
    } else if name == b"func.call".as_slice() {
        Some(Class::Effect)
    } else if name == b"func.call_indirect".as_slice() {
        Some(Class::Effect)
    } else if name == b"cf.br".as_slice() {
        Some(Class::Jump)
    } else if name == b"cf.cond_br".as_slice() {
        Some(Class::Branch)
    } else if name == b"cf.switch".as_slice() {
        Some(Class::Switch)
    } else if name == b"cf.assert".as_slice() {
        Some(Class::Effect)
    } else if name == b"scf.yield".as_slice() {
        Some(Class::Leave)
    } else if name == b"scf.condition".as_slice() {
        Some(Class::Leave)
    } else if name == b"affine.yield".as_slice() {
        Some(Class::Leave)
    } else if name == b"linalg.yield".as_slice() {
        Some(Class::Leave)
    } else {
        None
    }
}

// Of the dialect `complex`: constants are data, the others are pure.
fn complex_class(name: &[u8]) -> Class
    ensures { result ≡ complex_class_of name.now }
{
    if name == b"complex.constant".as_slice() {
        Class::Constant
    } else {
        Class::Opaque
    }
}

// Of the dialect `arith`, but for operators.
fn arith_named(name: &[u8]) -> Option<Class>
    ensures { result ≡ lookup arith_classes name.now }
{
    if name == b"constant".as_slice() {
        Some(Class::Constant)
    } else if name == b"select".as_slice() {
        Some(Class::Select)
    } else if name == b"cmpi".as_slice() {
        Some(Class::Compare)
    } else if name == b"extui".as_slice() {
        Some(Class::Cast(Cast::ZeroExtend))
    } else if name == b"index_castui".as_slice() {
        Some(Class::Cast(Cast::ZeroExtend))
    } else if name == b"bitcast".as_slice() {
        Some(Class::Cast(Cast::ZeroExtend))
    } else if name == b"extsi".as_slice() {
        Some(Class::Cast(Cast::SignExtend))
    } else if name == b"index_cast".as_slice() {
        Some(Class::Cast(Cast::SignExtend))
    } else if name == b"trunci".as_slice() {
        Some(Class::Cast(Cast::Truncate))
    } else {
        None
    }
}

// Of the dialect `arith`, whose operations are all pure.
fn arith_class(name: &[u8]) -> Class
    ensures { result ≡ arith_class_of name.now }
{
    match arith_named(name) {
        Some(class) => class,
        None => match arith_operator(name) {
            Some(operator) => Class::Binary(operator),
            None => Class::Opaque,
        },
    }
}

fn arith_operator(name: &[u8]) -> Option<BinaryOperator>
    ensures { result ≡ lookup arith_operators name.now }
{
    if name == b"addi".as_slice() {
        Some(BinaryOperator::Add)
    } else if name == b"subi".as_slice() {
        Some(BinaryOperator::Subtract)
    } else if name == b"muli".as_slice() {
        Some(BinaryOperator::Multiply)
    } else if name == b"divui".as_slice() {
        Some(BinaryOperator::UnsignedDivide)
    } else if name == b"divsi".as_slice() {
        Some(BinaryOperator::SignedDivide)
    } else if name == b"remui".as_slice() {
        Some(BinaryOperator::UnsignedRemainder)
    } else if name == b"remsi".as_slice() {
        Some(BinaryOperator::SignedRemainder)
    } else if name == b"shli".as_slice() {
        Some(BinaryOperator::ShiftLeft)
    } else if name == b"shrui".as_slice() {
        Some(BinaryOperator::LogicalShiftRight)
    } else if name == b"shrsi".as_slice() {
        Some(BinaryOperator::ArithmeticShiftRight)
    } else if name == b"andi".as_slice() {
        Some(BinaryOperator::And)
    } else if name == b"ori".as_slice() {
        Some(BinaryOperator::Or)
    } else if name == b"xori".as_slice() {
        Some(BinaryOperator::Xor)
    } else if name == b"minui".as_slice() {
        Some(BinaryOperator::UnsignedMinimum)
    } else if name == b"minsi".as_slice() {
        Some(BinaryOperator::SignedMinimum)
    } else if name == b"maxui".as_slice() {
        Some(BinaryOperator::UnsignedMaximum)
    } else if name == b"maxsi".as_slice() {
        Some(BinaryOperator::SignedMaximum)
    } else if name == b"ceildivui".as_slice() {
        Some(BinaryOperator::UnsignedDivideUp)
    } else if name == b"ceildivsi".as_slice() {
        Some(BinaryOperator::SignedDivideUp)
    } else if name == b"floordivsi".as_slice() {
        Some(BinaryOperator::SignedDivideDown)
    } else {
        None
    }
}

// Of the dialect `llvm`, but for operators, and for what is only pure or an effect.
fn llvm_named(name: &[u8]) -> Option<Class>
    ensures { result ≡ lookup llvm_classes name.now }
{
    if name == b"mlir.constant".as_slice() {
        Some(Class::Constant)
    } else if name == b"mlir.addressof".as_slice() {
        Some(Class::Constant)
    } else if name == b"mlir.zero".as_slice() {
        Some(Class::Constant)
    } else if name == b"select".as_slice() {
        Some(Class::Select)
    } else if name == b"icmp".as_slice() {
        Some(Class::Compare)
    } else if name == b"zext".as_slice() {
        Some(Class::Cast(Cast::ZeroExtend))
    } else if name == b"bitcast".as_slice() {
        Some(Class::Cast(Cast::ZeroExtend))
    } else if name == b"sext".as_slice() {
        Some(Class::Cast(Cast::SignExtend))
    } else if name == b"trunc".as_slice() {
        Some(Class::Cast(Cast::Truncate))
    } else if name == b"br".as_slice() {
        Some(Class::Jump)
    } else if name == b"cond_br".as_slice() {
        Some(Class::Branch)
    } else if name == b"switch".as_slice() {
        Some(Class::Switch)
    } else if name == b"return".as_slice() {
        Some(Class::Leave)
    } else if name == b"unreachable".as_slice() {
        Some(Class::Unreachable)
    } else if name == b"func".as_slice() {
        Some(Class::Root)
    } else {
        None
    }
}

// Of the dialect `llvm`. Names that are none of these ask the world too.
fn llvm_class(name: &[u8]) -> Option<Class>
    ensures { result ≡ llvm_class_of name.now }
{
    if let Some(operator) = llvm_operator(name) {
        return Some(Class::Binary(operator));
    }
    if let Some(class) = llvm_named(name) {
        return Some(class);
    }
    if is_pure(name) {
        Some(Class::Opaque)
    } else if is_effect(name) {
        Some(Class::Effect)
    } else if is_local(name) {
        Some(Class::Local)
    } else {
        None
    }
}

fn llvm_operator(name: &[u8]) -> Option<BinaryOperator>
    ensures { result ≡ lookup llvm_operators name.now }
{
    if name == b"add".as_slice() {
        Some(BinaryOperator::Add)
    } else if name == b"sub".as_slice() {
        Some(BinaryOperator::Subtract)
    } else if name == b"mul".as_slice() {
        Some(BinaryOperator::Multiply)
    } else if name == b"udiv".as_slice() {
        Some(BinaryOperator::UnsignedDivide)
    } else if name == b"sdiv".as_slice() {
        Some(BinaryOperator::SignedDivide)
    } else if name == b"urem".as_slice() {
        Some(BinaryOperator::UnsignedRemainder)
    } else if name == b"srem".as_slice() {
        Some(BinaryOperator::SignedRemainder)
    } else if name == b"shl".as_slice() {
        Some(BinaryOperator::ShiftLeft)
    } else if name == b"lshr".as_slice() {
        Some(BinaryOperator::LogicalShiftRight)
    } else if name == b"ashr".as_slice() {
        Some(BinaryOperator::ArithmeticShiftRight)
    } else if name == b"and".as_slice() {
        Some(BinaryOperator::And)
    } else if name == b"or".as_slice() {
        Some(BinaryOperator::Or)
    } else if name == b"xor".as_slice() {
        Some(BinaryOperator::Xor)
    } else if name == b"intr.umin".as_slice() {
        Some(BinaryOperator::UnsignedMinimum)
    } else if name == b"intr.smin".as_slice() {
        Some(BinaryOperator::SignedMinimum)
    } else if name == b"intr.umax".as_slice() {
        Some(BinaryOperator::UnsignedMaximum)
    } else if name == b"intr.smax".as_slice() {
        Some(BinaryOperator::SignedMaximum)
    } else {
        None
    }
}

// Whether it is a pure operation that no table knows.
fn is_pure(name: &[u8]) -> bool
    ensures { result ≡ is_pure_of name.now }
{
    match name.strip_prefix(b"intr.") {
        Some(rest) => is_pure_intrinsic(rest),
        None => is_pure_cast(name) || is_pure_aggregate(name) || is_float_operation(name),
    }
}

// Whether it is a pure intrinsic.
fn is_pure_intrinsic(name: &[u8]) -> bool
    ensures { result ≡ is_pure_intrinsic_of name.now }
{
    is_counting(name)
        || is_overflowing(name)
        || is_hinting(name)
        || is_float_function(name)
        || is_rounding(name)
        || is_float_intrinsic(name)
        || name.strip_prefix(b"vector.reduce.").is_some()
}

fn is_pure_cast(name: &[u8]) -> bool
    ensures { result ≡ is_named pure_casts name.now }
{
    name == b"inttoptr".as_slice()
        || name == b"ptrtoint".as_slice()
        || name == b"addrspacecast".as_slice()
        || name == b"fptoui".as_slice()
        || name == b"fptosi".as_slice()
        || name == b"uitofp".as_slice()
        || name == b"sitofp".as_slice()
        || name == b"fpext".as_slice()
        || name == b"fptrunc".as_slice()
}

fn is_pure_aggregate(name: &[u8]) -> bool
    ensures { result ≡ is_named pure_aggregates name.now }
{
    name == b"getelementptr".as_slice()
        || name == b"insertvalue".as_slice()
        || name == b"extractvalue".as_slice()
        || name == b"insertelement".as_slice()
        || name == b"extractelement".as_slice()
        || name == b"shufflevector".as_slice()
}

fn is_float_operation(name: &[u8]) -> bool
    ensures { result ≡ is_named float_operations name.now }
{
    name == b"fadd".as_slice()
        || name == b"fsub".as_slice()
        || name == b"fmul".as_slice()
        || name == b"fdiv".as_slice()
        || name == b"frem".as_slice()
        || name == b"fneg".as_slice()
        || name == b"fcmp".as_slice()
}

fn is_counting(name: &[u8]) -> bool
    ensures { result ≡ is_named counting_intrinsics name.now }
{
    name == b"abs".as_slice()
        || name == b"bswap".as_slice()
        || name == b"bitreverse".as_slice()
        || name == b"ctlz".as_slice()
        || name == b"cttz".as_slice()
        || name == b"ctpop".as_slice()
        || name == b"fshl".as_slice()
        || name == b"fshr".as_slice()
}

fn is_overflowing(name: &[u8]) -> bool
    ensures { result ≡ is_named overflowing_intrinsics name.now }
{
    name == b"sadd.with.overflow".as_slice()
        || name == b"uadd.with.overflow".as_slice()
        || name == b"ssub.with.overflow".as_slice()
        || name == b"usub.with.overflow".as_slice()
        || name == b"smul.with.overflow".as_slice()
        || name == b"umul.with.overflow".as_slice()
}

fn is_hinting(name: &[u8]) -> bool
    ensures { result ≡ is_named hinting_intrinsics name.now }
{
    name == b"sadd.sat".as_slice()
        || name == b"uadd.sat".as_slice()
        || name == b"ssub.sat".as_slice()
        || name == b"usub.sat".as_slice()
        || name == b"sshl.sat".as_slice()
        || name == b"ushl.sat".as_slice()
        || name == b"expect".as_slice()
        || name == b"expect.with.probability".as_slice()
        || name == b"ptrmask".as_slice()
}

fn is_float_function(name: &[u8]) -> bool
    ensures { result ≡ is_named float_functions name.now }
{
    name == b"fabs".as_slice()
        || name == b"sqrt".as_slice()
        || name == b"sin".as_slice()
        || name == b"cos".as_slice()
        || name == b"exp".as_slice()
        || name == b"exp2".as_slice()
        || name == b"log".as_slice()
        || name == b"log10".as_slice()
        || name == b"log2".as_slice()
        || name == b"pow".as_slice()
}

fn is_rounding(name: &[u8]) -> bool
    ensures { result ≡ is_named float_roundings name.now }
{
    name == b"floor".as_slice()
        || name == b"ceil".as_slice()
        || name == b"trunc".as_slice()
        || name == b"rint".as_slice()
        || name == b"nearbyint".as_slice()
        || name == b"round".as_slice()
        || name == b"roundeven".as_slice()
}

fn is_float_intrinsic(name: &[u8]) -> bool
    ensures { result ≡ is_named float_others name.now }
{
    name == b"powi".as_slice()
        || name == b"fma".as_slice()
        || name == b"fmuladd".as_slice()
        || name == b"copysign".as_slice()
        || name == b"minnum".as_slice()
        || name == b"maxnum".as_slice()
        || name == b"minimum".as_slice()
        || name == b"maximum".as_slice()
        || name == b"is.fpclass".as_slice()
}

// Whether it asks the world, and would do the same in another function.
fn is_effect(name: &[u8]) -> bool
    ensures { result ≡ is_effect_of name.now }
{
    match name.strip_prefix(b"intr.") {
        Some(rest) => is_effect_intrinsic(rest),
        None => is_plain_effect(name),
    }
}

fn is_effect_intrinsic(name: &[u8]) -> bool
    ensures { result ≡ is_named effect_intrinsics name.now }
{
    name == b"memcpy".as_slice()
        || name == b"memcpy.inline".as_slice()
        || name == b"memmove".as_slice()
        || name == b"memset".as_slice()
        || name == b"memset.inline".as_slice()
        || name == b"assume".as_slice()
        || name == b"prefetch".as_slice()
        || name == b"trap".as_slice()
        || name == b"debugtrap".as_slice()
}

fn is_plain_effect(name: &[u8]) -> bool
    ensures { result ≡ is_named llvm_effects name.now }
{
    name == b"mlir.undef".as_slice()
        || name == b"mlir.poison".as_slice()
        || name == b"freeze".as_slice()
        || name == b"load".as_slice()
        || name == b"store".as_slice()
        || name == b"call".as_slice()
        || name == b"fence".as_slice()
        || name == b"atomicrmw".as_slice()
        || name == b"cmpxchg".as_slice()
}

// Whether it asks the world for memory or arguments of its function.
fn is_local(name: &[u8]) -> bool
    ensures { result ≡ is_named llvm_local name.now }
{
    name == b"alloca".as_slice() || name == b"inline_asm".as_slice() || name == b"va_arg".as_slice()
}
