//! What opcodes are to the passes.
ghost use Rattle.std.specs.Prelude.{◌≡◌};
ghost use Rattle.pliron_text_llvm_reader.specs.Words.{is_one_of};
ghost use Rattle.pliron_text_llvm_classes.specs.Opcodes.{row_of_word, operators, casts, predicates, pure_float_opcodes, pure_cast_opcodes, pure_element_opcodes, is_pure_opcode, effect_opcodes};

use pliron_bits::{BinaryOperator, Cast, Predicate};

/// The operator on integers of this name. Cost: constant.
pub fn operator_named(opcode: &[u8]) -> Option<BinaryOperator>
    ensures { result ≡ row_of_word operators opcode.now }
{
    if opcode == b"add".as_slice() {
        Some(BinaryOperator::Add)
    } else if opcode == b"sub".as_slice() {
        Some(BinaryOperator::Subtract)
    } else if opcode == b"mul".as_slice() {
        Some(BinaryOperator::Multiply)
    } else if opcode == b"udiv".as_slice() {
        Some(BinaryOperator::UnsignedDivide)
    } else if opcode == b"sdiv".as_slice() {
        Some(BinaryOperator::SignedDivide)
    } else if opcode == b"urem".as_slice() {
        Some(BinaryOperator::UnsignedRemainder)
    } else if opcode == b"srem".as_slice() {
        Some(BinaryOperator::SignedRemainder)
    } else if opcode == b"shl".as_slice() {
        Some(BinaryOperator::ShiftLeft)
    } else if opcode == b"lshr".as_slice() {
        Some(BinaryOperator::LogicalShiftRight)
    } else if opcode == b"ashr".as_slice() {
        Some(BinaryOperator::ArithmeticShiftRight)
    } else if opcode == b"and".as_slice() {
        Some(BinaryOperator::And)
    } else if opcode == b"or".as_slice() {
        Some(BinaryOperator::Or)
    } else if opcode == b"xor".as_slice() {
        Some(BinaryOperator::Xor)
    } else {
        None
    }
}

/// The cast of integers of this name. Cost: constant.
pub fn cast_named(opcode: &[u8]) -> Option<Cast>
    ensures { result ≡ row_of_word casts opcode.now }
{
    if opcode == b"zext".as_slice() {
        Some(Cast::ZeroExtend)
    } else if opcode == b"bitcast".as_slice() {
        Some(Cast::ZeroExtend)
    } else if opcode == b"sext".as_slice() {
        Some(Cast::SignExtend)
    } else if opcode == b"trunc".as_slice() {
        Some(Cast::Truncate)
    } else {
        None
    }
}

/// The predicate of this name. Cost: constant.
pub fn predicate_named(word: &[u8]) -> Option<Predicate>
    ensures { result ≡ row_of_word predicates word.now }
{
    if word == b"eq".as_slice() {
        Some(Predicate::Equal)
    } else if word == b"ne".as_slice() {
        Some(Predicate::NotEqual)
    } else if word == b"slt".as_slice() {
        Some(Predicate::SignedLess)
    } else if word == b"sle".as_slice() {
        Some(Predicate::SignedLessEqual)
    } else if word == b"sgt".as_slice() {
        Some(Predicate::SignedGreater)
    } else if word == b"sge".as_slice() {
        Some(Predicate::SignedGreaterEqual)
    } else if word == b"ult".as_slice() {
        Some(Predicate::UnsignedLess)
    } else if word == b"ule".as_slice() {
        Some(Predicate::UnsignedLessEqual)
    } else if word == b"ugt".as_slice() {
        Some(Predicate::UnsignedGreater)
    } else if word == b"uge".as_slice() {
        Some(Predicate::UnsignedGreaterEqual)
    } else {
        None
    }
}

fn is_pure_float(opcode: &[u8]) -> bool
    ensures { result ≡ is_one_of pure_float_opcodes opcode.now }
{
    opcode == b"fadd".as_slice()
        || opcode == b"fsub".as_slice()
        || opcode == b"fmul".as_slice()
        || opcode == b"fdiv".as_slice()
        || opcode == b"frem".as_slice()
        || opcode == b"fneg".as_slice()
        || opcode == b"fcmp".as_slice()
}

fn is_pure_cast(opcode: &[u8]) -> bool
    ensures { result ≡ is_one_of pure_cast_opcodes opcode.now }
{
    opcode == b"fptrunc".as_slice()
        || opcode == b"fpext".as_slice()
        || opcode == b"uitofp".as_slice()
        || opcode == b"sitofp".as_slice()
        || opcode == b"fptoui".as_slice()
        || opcode == b"fptosi".as_slice()
        || opcode == b"inttoptr".as_slice()
        || opcode == b"ptrtoint".as_slice()
        || opcode == b"ptrtoaddr".as_slice()
        || opcode == b"addrspacecast".as_slice()
}

fn is_pure_of_elements(opcode: &[u8]) -> bool
    ensures { result ≡ is_one_of pure_element_opcodes opcode.now }
{
    opcode == b"getelementptr".as_slice()
        || opcode == b"extractvalue".as_slice()
        || opcode == b"insertvalue".as_slice()
        || opcode == b"extractelement".as_slice()
        || opcode == b"insertelement".as_slice()
        || opcode == b"shufflevector".as_slice()
}

/// Whether what it gives follows from what it is given and from its text. Cost: constant.
pub fn is_pure(opcode: &[u8]) -> bool
    ensures { result ≡ is_pure_opcode opcode.now }
{
    is_pure_float(opcode) || is_pure_cast(opcode) || is_pure_of_elements(opcode)
}

/// Whether it asks the world, and would do so in any function. Cost: constant.
pub fn is_effect(opcode: &[u8]) -> bool
    ensures { result ≡ is_one_of effect_opcodes opcode.now }
{
    opcode == b"load".as_slice()
        || opcode == b"store".as_slice()
        || opcode == b"fence".as_slice()
        || opcode == b"atomicrmw".as_slice()
        || opcode == b"cmpxchg".as_slice()
        || opcode == b"freeze".as_slice()
        || opcode == b"call".as_slice()
        || opcode == b"tail".as_slice()
        || opcode == b"musttail".as_slice()
        || opcode == b"notail".as_slice()
}
