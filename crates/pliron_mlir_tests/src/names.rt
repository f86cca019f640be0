//! Names of operations, by what LLVM's and MLIR's pages say of them.
use pliron_dialect_mlir::class_named;
use std::alloc::Global;

static ROWS: &str = "\
builtin.module => Some(Module)
builtin.unrealized_conversion_cast => Some(Opaque)
func.func => Some(Root)
func.return => Some(Leave)
func.constant => Some(Constant)
func.call => Some(Effect)
func.call_indirect => Some(Effect)
cf.br => Some(Jump)
cf.cond_br => Some(Branch)
cf.switch => Some(Switch)
cf.assert => Some(Effect)
scf.yield => Some(Leave)
scf.condition => Some(Leave)
scf.for => None
arith.constant => Some(Constant)
arith.addi => Some(Binary(Add))
arith.subi => Some(Binary(Subtract))
arith.muli => Some(Binary(Multiply))
arith.divui => Some(Binary(UnsignedDivide))
arith.divsi => Some(Binary(SignedDivide))
arith.remui => Some(Binary(UnsignedRemainder))
arith.remsi => Some(Binary(SignedRemainder))
arith.shli => Some(Binary(ShiftLeft))
arith.shrui => Some(Binary(LogicalShiftRight))
arith.shrsi => Some(Binary(ArithmeticShiftRight))
arith.andi => Some(Binary(And))
arith.ori => Some(Binary(Or))
arith.xori => Some(Binary(Xor))
arith.minui => Some(Binary(UnsignedMinimum))
arith.minsi => Some(Binary(SignedMinimum))
arith.maxui => Some(Binary(UnsignedMaximum))
arith.maxsi => Some(Binary(SignedMaximum))
arith.ceildivui => Some(Binary(UnsignedDivideUp))
arith.ceildivsi => Some(Binary(SignedDivideUp))
arith.floordivsi => Some(Binary(SignedDivideDown))
arith.cmpi => Some(Compare)
arith.extui => Some(Cast(ZeroExtend))
arith.extsi => Some(Cast(SignExtend))
arith.trunci => Some(Cast(Truncate))
arith.index_cast => Some(Cast(SignExtend))
arith.index_castui => Some(Cast(ZeroExtend))
arith.select => Some(Select)
arith.addf => Some(Opaque)
arith.cmpf => Some(Opaque)
arith.mulsi_extended => Some(Opaque)
math.sqrt => Some(Opaque)
complex.mul => Some(Opaque)
complex.constant => Some(Constant)
llvm.mlir.constant => Some(Constant)
llvm.mlir.addressof => Some(Constant)
llvm.mlir.zero => Some(Constant)
llvm.add => Some(Binary(Add))
llvm.sub => Some(Binary(Subtract))
llvm.mul => Some(Binary(Multiply))
llvm.udiv => Some(Binary(UnsignedDivide))
llvm.sdiv => Some(Binary(SignedDivide))
llvm.urem => Some(Binary(UnsignedRemainder))
llvm.srem => Some(Binary(SignedRemainder))
llvm.shl => Some(Binary(ShiftLeft))
llvm.lshr => Some(Binary(LogicalShiftRight))
llvm.ashr => Some(Binary(ArithmeticShiftRight))
llvm.and => Some(Binary(And))
llvm.or => Some(Binary(Or))
llvm.xor => Some(Binary(Xor))
llvm.intr.umin => Some(Binary(UnsignedMinimum))
llvm.intr.smin => Some(Binary(SignedMinimum))
llvm.intr.umax => Some(Binary(UnsignedMaximum))
llvm.intr.smax => Some(Binary(SignedMaximum))
llvm.icmp => Some(Compare)
llvm.zext => Some(Cast(ZeroExtend))
llvm.sext => Some(Cast(SignExtend))
llvm.trunc => Some(Cast(Truncate))
llvm.select => Some(Select)
llvm.br => Some(Jump)
llvm.cond_br => Some(Branch)
llvm.switch => Some(Switch)
llvm.return => Some(Leave)
llvm.unreachable => Some(Unreachable)
llvm.func => Some(Root)
llvm.getelementptr => Some(Opaque)
llvm.bitcast => Some(Cast(ZeroExtend))
llvm.inttoptr => Some(Opaque)
llvm.ptrtoint => Some(Opaque)
llvm.insertvalue => Some(Opaque)
llvm.extractvalue => Some(Opaque)
llvm.fadd => Some(Opaque)
llvm.fcmp => Some(Opaque)
llvm.sitofp => Some(Opaque)
llvm.fptoui => Some(Opaque)
llvm.intr.abs => Some(Opaque)
llvm.intr.ctlz => Some(Opaque)
llvm.intr.bswap => Some(Opaque)
llvm.intr.fshl => Some(Opaque)
llvm.intr.fmuladd => Some(Opaque)
llvm.intr.expect => Some(Opaque)
llvm.intr.umul.with.overflow => Some(Opaque)
llvm.intr.vector.reduce.add => Some(Opaque)
llvm.mlir.undef => Some(Effect)
llvm.mlir.poison => Some(Effect)
llvm.freeze => Some(Effect)
llvm.alloca => Some(Local)
llvm.load => Some(Effect)
llvm.store => Some(Effect)
llvm.call => Some(Effect)
llvm.inline_asm => Some(Local)
llvm.va_arg => Some(Local)
llvm.fence => Some(Effect)
llvm.intr.memcpy => Some(Effect)
llvm.intr.memset => Some(Effect)
llvm.intr.trap => Some(Effect)
llvm.intr.stacksave => None
llvm.intr.lifetime.start => None
llvm.intr.is.constant => None
llvm.intr.vastart => None
llvm.mlir.global => None
llvm.invoke => None
llvm.addx => None
llvm. => None
add => None
 => None
";

// What the name is.
fn class_of(alloc: Global, name: &str) -> Option<String> {
    let class = class_named(name.as_bytes());
    format!(in alloc; "{class:?}").ok()
}

fn agrees(alloc: Global, row: &str) -> bool {
    match row.split_once(" => ") {
        Some((name, answer)) => match class_of(alloc, name) {
            Some(class) => class.as_str() == answer,
            None => false,
        },
        None => false,
    }
}

#[test]
fn knows_names(rt: HostRuntime) {
    let alloc = rt.alloc();
    let failing = ROWS.lines().find(|row| !agrees(alloc, row));
    assert_eq!(rt; failing, None);
}
