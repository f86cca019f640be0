//! What instcombine makes of operations that rules rewrite, by `tools/llvm_rows`.

pub static ROWS: &str = "\
icmp sle i8 x 9 -- (%0: i8):|  %1 = \"llvm.mlir.constant\"() <{value = 9 : i8}> : () -> i8|  %2 = \"llvm.icmp\"(%0, \
    %1) <{predicate = 3 : i64}> : (i8, i8) -> i1|  \"llvm.return\"(%2) : (i1) -> () => (%0: i8):|  %1 = \
    \"llvm.mlir.constant\"() <{value = 9 : i8}> : () -> i8|  %3 = \"llvm.mlir.constant\"() <{value = 10 : i8}> : () \
    -> i8|  %4 = \"llvm.icmp\"(%0, %3) <{predicate = 2 : i64}> : (i8, i8) -> i1|  %2 = \"llvm.icmp\"(%0, %1) \
    <{predicate = 3 : i64}> : (i8, i8) -> i1|  \"llvm.return\"(%4) : (i1) -> ()
icmp sle i8 x -3 -- (%0: i8):|  %1 = \"llvm.mlir.constant\"() <{value = -3 : i8}> : () -> i8|  %2 = \"llvm.icmp\"(%0, \
    %1) <{predicate = 3 : i64}> : (i8, i8) -> i1|  \"llvm.return\"(%2) : (i1) -> () => (%0: i8):|  %1 = \
    \"llvm.mlir.constant\"() <{value = -3 : i8}> : () -> i8|  %3 = \"llvm.mlir.constant\"() <{value = -2 : i8}> : () \
    -> i8|  %4 = \"llvm.icmp\"(%0, %3) <{predicate = 2 : i64}> : (i8, i8) -> i1|  %2 = \"llvm.icmp\"(%0, %1) \
    <{predicate = 3 : i64}> : (i8, i8) -> i1|  \"llvm.return\"(%4) : (i1) -> ()
icmp sge i8 x 9 -- (%0: i8):|  %1 = \"llvm.mlir.constant\"() <{value = 9 : i8}> : () -> i8|  %2 = \"llvm.icmp\"(%0, \
    %1) <{predicate = 5 : i64}> : (i8, i8) -> i1|  \"llvm.return\"(%2) : (i1) -> () => (%0: i8):|  %1 = \
    \"llvm.mlir.constant\"() <{value = 9 : i8}> : () -> i8|  %3 = \"llvm.mlir.constant\"() <{value = 8 : i8}> : () -> \
    i8|  %4 = \"llvm.icmp\"(%0, %3) <{predicate = 4 : i64}> : (i8, i8) -> i1|  %2 = \"llvm.icmp\"(%0, %1) <{predicate \
    = 5 : i64}> : (i8, i8) -> i1|  \"llvm.return\"(%4) : (i1) -> ()
icmp sge i8 x -3 -- (%0: i8):|  %1 = \"llvm.mlir.constant\"() <{value = -3 : i8}> : () -> i8|  %2 = \"llvm.icmp\"(%0, \
    %1) <{predicate = 5 : i64}> : (i8, i8) -> i1|  \"llvm.return\"(%2) : (i1) -> () => (%0: i8):|  %1 = \
    \"llvm.mlir.constant\"() <{value = -3 : i8}> : () -> i8|  %3 = \"llvm.mlir.constant\"() <{value = -4 : i8}> : () \
    -> i8|  %4 = \"llvm.icmp\"(%0, %3) <{predicate = 4 : i64}> : (i8, i8) -> i1|  %2 = \"llvm.icmp\"(%0, %1) \
    <{predicate = 5 : i64}> : (i8, i8) -> i1|  \"llvm.return\"(%4) : (i1) -> ()
icmp ule i8 x 9 -- (%0: i8):|  %1 = \"llvm.mlir.constant\"() <{value = 9 : i8}> : () -> i8|  %2 = \"llvm.icmp\"(%0, \
    %1) <{predicate = 7 : i64}> : (i8, i8) -> i1|  \"llvm.return\"(%2) : (i1) -> () => (%0: i8):|  %1 = \
    \"llvm.mlir.constant\"() <{value = 9 : i8}> : () -> i8|  %3 = \"llvm.mlir.constant\"() <{value = 10 : i8}> : () \
    -> i8|  %4 = \"llvm.icmp\"(%0, %3) <{predicate = 6 : i64}> : (i8, i8) -> i1|  %2 = \"llvm.icmp\"(%0, %1) \
    <{predicate = 7 : i64}> : (i8, i8) -> i1|  \"llvm.return\"(%4) : (i1) -> ()
icmp ule i8 x -3 -- (%0: i8):|  %1 = \"llvm.mlir.constant\"() <{value = -3 : i8}> : () -> i8|  %2 = \"llvm.icmp\"(%0, \
    %1) <{predicate = 7 : i64}> : (i8, i8) -> i1|  \"llvm.return\"(%2) : (i1) -> () => (%0: i8):|  %1 = \
    \"llvm.mlir.constant\"() <{value = -3 : i8}> : () -> i8|  %3 = \"llvm.mlir.constant\"() <{value = -2 : i8}> : () \
    -> i8|  %4 = \"llvm.icmp\"(%0, %3) <{predicate = 6 : i64}> : (i8, i8) -> i1|  %2 = \"llvm.icmp\"(%0, %1) \
    <{predicate = 7 : i64}> : (i8, i8) -> i1|  \"llvm.return\"(%4) : (i1) -> ()
icmp uge i8 x 9 -- (%0: i8):|  %1 = \"llvm.mlir.constant\"() <{value = 9 : i8}> : () -> i8|  %2 = \"llvm.icmp\"(%0, \
    %1) <{predicate = 9 : i64}> : (i8, i8) -> i1|  \"llvm.return\"(%2) : (i1) -> () => (%0: i8):|  %1 = \
    \"llvm.mlir.constant\"() <{value = 9 : i8}> : () -> i8|  %3 = \"llvm.mlir.constant\"() <{value = 8 : i8}> : () -> \
    i8|  %4 = \"llvm.icmp\"(%0, %3) <{predicate = 8 : i64}> : (i8, i8) -> i1|  %2 = \"llvm.icmp\"(%0, %1) <{predicate \
    = 9 : i64}> : (i8, i8) -> i1|  \"llvm.return\"(%4) : (i1) -> ()
icmp uge i8 x -3 -- (%0: i8):|  %1 = \"llvm.mlir.constant\"() <{value = -3 : i8}> : () -> i8|  %2 = \"llvm.icmp\"(%0, \
    %1) <{predicate = 9 : i64}> : (i8, i8) -> i1|  \"llvm.return\"(%2) : (i1) -> () => (%0: i8):|  %1 = \
    \"llvm.mlir.constant\"() <{value = -3 : i8}> : () -> i8|  %3 = \"llvm.mlir.constant\"() <{value = -4 : i8}> : () \
    -> i8|  %4 = \"llvm.icmp\"(%0, %3) <{predicate = 8 : i64}> : (i8, i8) -> i1|  %2 = \"llvm.icmp\"(%0, %1) \
    <{predicate = 9 : i64}> : (i8, i8) -> i1|  \"llvm.return\"(%4) : (i1) -> ()
icmp eq i8 5 x -- (%0: i8):|  %1 = \"llvm.mlir.constant\"() <{value = 5 : i8}> : () -> i8|  %2 = \"llvm.icmp\"(%1, \
    %0) <{predicate = 0 : i64}> : (i8, i8) -> i1|  \"llvm.return\"(%2) : (i1) -> () => (%0: i8):|  %1 = \
    \"llvm.mlir.constant\"() <{value = 5 : i8}> : () -> i8|  %3 = \"llvm.icmp\"(%0, %1) <{predicate = 0 : i64}> : \
    (i8, i8) -> i1|  %2 = \"llvm.icmp\"(%1, %0) <{predicate = 0 : i64}> : (i8, i8) -> i1|  \"llvm.return\"(%3) : (i1) \
    -> ()
icmp ne i8 5 x -- (%0: i8):|  %1 = \"llvm.mlir.constant\"() <{value = 5 : i8}> : () -> i8|  %2 = \"llvm.icmp\"(%1, \
    %0) <{predicate = 1 : i64}> : (i8, i8) -> i1|  \"llvm.return\"(%2) : (i1) -> () => (%0: i8):|  %1 = \
    \"llvm.mlir.constant\"() <{value = 5 : i8}> : () -> i8|  %3 = \"llvm.icmp\"(%0, %1) <{predicate = 1 : i64}> : \
    (i8, i8) -> i1|  %2 = \"llvm.icmp\"(%1, %0) <{predicate = 1 : i64}> : (i8, i8) -> i1|  \"llvm.return\"(%3) : (i1) \
    -> ()
icmp slt i8 5 x -- (%0: i8):|  %1 = \"llvm.mlir.constant\"() <{value = 5 : i8}> : () -> i8|  %2 = \"llvm.icmp\"(%1, \
    %0) <{predicate = 2 : i64}> : (i8, i8) -> i1|  \"llvm.return\"(%2) : (i1) -> () => (%0: i8):|  %1 = \
    \"llvm.mlir.constant\"() <{value = 5 : i8}> : () -> i8|  %3 = \"llvm.icmp\"(%0, %1) <{predicate = 4 : i64}> : \
    (i8, i8) -> i1|  %2 = \"llvm.icmp\"(%1, %0) <{predicate = 2 : i64}> : (i8, i8) -> i1|  \"llvm.return\"(%3) : (i1) \
    -> ()
icmp sgt i8 5 x -- (%0: i8):|  %1 = \"llvm.mlir.constant\"() <{value = 5 : i8}> : () -> i8|  %2 = \"llvm.icmp\"(%1, \
    %0) <{predicate = 4 : i64}> : (i8, i8) -> i1|  \"llvm.return\"(%2) : (i1) -> () => (%0: i8):|  %1 = \
    \"llvm.mlir.constant\"() <{value = 5 : i8}> : () -> i8|  %3 = \"llvm.icmp\"(%0, %1) <{predicate = 2 : i64}> : \
    (i8, i8) -> i1|  %2 = \"llvm.icmp\"(%1, %0) <{predicate = 4 : i64}> : (i8, i8) -> i1|  \"llvm.return\"(%3) : (i1) \
    -> ()
icmp ult i8 5 x -- (%0: i8):|  %1 = \"llvm.mlir.constant\"() <{value = 5 : i8}> : () -> i8|  %2 = \"llvm.icmp\"(%1, \
    %0) <{predicate = 6 : i64}> : (i8, i8) -> i1|  \"llvm.return\"(%2) : (i1) -> () => (%0: i8):|  %1 = \
    \"llvm.mlir.constant\"() <{value = 5 : i8}> : () -> i8|  %3 = \"llvm.icmp\"(%0, %1) <{predicate = 8 : i64}> : \
    (i8, i8) -> i1|  %2 = \"llvm.icmp\"(%1, %0) <{predicate = 6 : i64}> : (i8, i8) -> i1|  \"llvm.return\"(%3) : (i1) \
    -> ()
icmp ugt i8 5 x -- (%0: i8):|  %1 = \"llvm.mlir.constant\"() <{value = 5 : i8}> : () -> i8|  %2 = \"llvm.icmp\"(%1, \
    %0) <{predicate = 8 : i64}> : (i8, i8) -> i1|  \"llvm.return\"(%2) : (i1) -> () => (%0: i8):|  %1 = \
    \"llvm.mlir.constant\"() <{value = 5 : i8}> : () -> i8|  %3 = \"llvm.icmp\"(%0, %1) <{predicate = 6 : i64}> : \
    (i8, i8) -> i1|  %2 = \"llvm.icmp\"(%1, %0) <{predicate = 8 : i64}> : (i8, i8) -> i1|  \"llvm.return\"(%3) : (i1) \
    -> ()
add i8 5 x -- (%0: i8):|  %1 = \"llvm.mlir.constant\"() <{value = 5 : i8}> : () -> i8|  %2 = \"llvm.add\"(%1, %0) : \
    (i8, i8) -> i8|  \"llvm.return\"(%2) : (i8) -> () => (%0: i8):|  %1 = \"llvm.mlir.constant\"() <{value = 5 : i8}> \
    : () -> i8|  %3 = \"llvm.add\"(%0, %1) : (i8, i8) -> i8|  %2 = \"llvm.add\"(%1, %0) : (i8, i8) -> i8|  \
    \"llvm.return\"(%3) : (i8) -> ()
add nsw i8 5 x -- (%0: i8):|  %1 = \"llvm.mlir.constant\"() <{value = 5 : i8}> : () -> i8|  %2 = \"llvm.add\"(%1, %0) \
    <{overflowFlags = #llvm.overflow<nsw>}> : (i8, i8) -> i8|  \"llvm.return\"(%2) : (i8) -> () => (%0: i8):|  %1 = \
    \"llvm.mlir.constant\"() <{value = 5 : i8}> : () -> i8|  %3 = \"llvm.add\"(%0, %1) <{overflowFlags = \
    #llvm.overflow<nsw>}> : (i8, i8) -> i8|  %2 = \"llvm.add\"(%1, %0) <{overflowFlags = #llvm.overflow<nsw>}> : (i8, \
    i8) -> i8|  \"llvm.return\"(%3) : (i8) -> ()
add nuw i8 5 x -- (%0: i8):|  %1 = \"llvm.mlir.constant\"() <{value = 5 : i8}> : () -> i8|  %2 = \"llvm.add\"(%1, %0) \
    <{overflowFlags = #llvm.overflow<nuw>}> : (i8, i8) -> i8|  \"llvm.return\"(%2) : (i8) -> () => (%0: i8):|  %1 = \
    \"llvm.mlir.constant\"() <{value = 5 : i8}> : () -> i8|  %3 = \"llvm.add\"(%0, %1) <{overflowFlags = \
    #llvm.overflow<nuw>}> : (i8, i8) -> i8|  %2 = \"llvm.add\"(%1, %0) <{overflowFlags = #llvm.overflow<nuw>}> : (i8, \
    i8) -> i8|  \"llvm.return\"(%3) : (i8) -> ()
mul i8 5 x -- (%0: i8):|  %1 = \"llvm.mlir.constant\"() <{value = 5 : i8}> : () -> i8|  %2 = \"llvm.mul\"(%1, %0) : \
    (i8, i8) -> i8|  \"llvm.return\"(%2) : (i8) -> () => (%0: i8):|  %1 = \"llvm.mlir.constant\"() <{value = 5 : i8}> \
    : () -> i8|  %3 = \"llvm.mul\"(%0, %1) : (i8, i8) -> i8|  %2 = \"llvm.mul\"(%1, %0) : (i8, i8) -> i8|  \
    \"llvm.return\"(%3) : (i8) -> ()
mul nuw nsw i8 5 x -- (%0: i8):|  %1 = \"llvm.mlir.constant\"() <{value = 5 : i8}> : () -> i8|  %2 = \"llvm.mul\"(%1, \
    %0) <{overflowFlags = #llvm.overflow<nsw, nuw>}> : (i8, i8) -> i8|  \"llvm.return\"(%2) : (i8) -> () => (%0: \
    i8):|  %1 = \"llvm.mlir.constant\"() <{value = 5 : i8}> : () -> i8|  %3 = \"llvm.mul\"(%0, %1) <{overflowFlags = \
    #llvm.overflow<nsw, nuw>}> : (i8, i8) -> i8|  %2 = \"llvm.mul\"(%1, %0) <{overflowFlags = #llvm.overflow<nsw, \
    nuw>}> : (i8, i8) -> i8|  \"llvm.return\"(%3) : (i8) -> ()
and i8 5 x -- (%0: i8):|  %1 = \"llvm.mlir.constant\"() <{value = 5 : i8}> : () -> i8|  %2 = \"llvm.and\"(%1, %0) : \
    (i8, i8) -> i8|  \"llvm.return\"(%2) : (i8) -> () => (%0: i8):|  %1 = \"llvm.mlir.constant\"() <{value = 5 : i8}> \
    : () -> i8|  %3 = \"llvm.and\"(%0, %1) : (i8, i8) -> i8|  %2 = \"llvm.and\"(%1, %0) : (i8, i8) -> i8|  \
    \"llvm.return\"(%3) : (i8) -> ()
or i8 5 x -- (%0: i8):|  %1 = \"llvm.mlir.constant\"() <{value = 5 : i8}> : () -> i8|  %2 = \"llvm.or\"(%1, %0) : \
    (i8, i8) -> i8|  \"llvm.return\"(%2) : (i8) -> () => (%0: i8):|  %1 = \"llvm.mlir.constant\"() <{value = 5 : i8}> \
    : () -> i8|  %3 = \"llvm.or\"(%0, %1) : (i8, i8) -> i8|  %2 = \"llvm.or\"(%1, %0) : (i8, i8) -> i8|  \
    \"llvm.return\"(%3) : (i8) -> ()
or disjoint i8 5 x -- (%0: i8):|  %1 = \"llvm.mlir.constant\"() <{value = 5 : i8}> : () -> i8|  %2 = \"llvm.or\"(%1, \
    %0) <{isDisjoint}> : (i8, i8) -> i8|  \"llvm.return\"(%2) : (i8) -> () => (%0: i8):|  %1 = \
    \"llvm.mlir.constant\"() <{value = 5 : i8}> : () -> i8|  %3 = \"llvm.or\"(%0, %1) <{isDisjoint}> : (i8, i8) -> \
    i8|  %2 = \"llvm.or\"(%1, %0) <{isDisjoint}> : (i8, i8) -> i8|  \"llvm.return\"(%3) : (i8) -> ()
xor i8 5 x -- (%0: i8):|  %1 = \"llvm.mlir.constant\"() <{value = 5 : i8}> : () -> i8|  %2 = \"llvm.xor\"(%1, %0) : \
    (i8, i8) -> i8|  \"llvm.return\"(%2) : (i8) -> () => (%0: i8):|  %1 = \"llvm.mlir.constant\"() <{value = 5 : i8}> \
    : () -> i8|  %3 = \"llvm.xor\"(%0, %1) : (i8, i8) -> i8|  %2 = \"llvm.xor\"(%1, %0) : (i8, i8) -> i8|  \
    \"llvm.return\"(%3) : (i8) -> ()
mul i8 x 2 -- (%0: i8):|  %1 = \"llvm.mlir.constant\"() <{value = 2 : i8}> : () -> i8|  %2 = \"llvm.mul\"(%0, %1) : \
    (i8, i8) -> i8|  \"llvm.return\"(%2) : (i8) -> () => (%0: i8):|  %1 = \"llvm.mlir.constant\"() <{value = 2 : i8}> \
    : () -> i8|  %3 = \"llvm.mlir.constant\"() <{value = 1 : i8}> : () -> i8|  %4 = \"llvm.shl\"(%0, %3) : (i8, i8) \
    -> i8|  %2 = \"llvm.mul\"(%0, %1) : (i8, i8) -> i8|  \"llvm.return\"(%4) : (i8) -> ()
mul i8 x 16 -- (%0: i8):|  %1 = \"llvm.mlir.constant\"() <{value = 16 : i8}> : () -> i8|  %2 = \"llvm.mul\"(%0, %1) : \
    (i8, i8) -> i8|  \"llvm.return\"(%2) : (i8) -> () => (%0: i8):|  %1 = \"llvm.mlir.constant\"() <{value = 16 : \
    i8}> : () -> i8|  %3 = \"llvm.mlir.constant\"() <{value = 4 : i8}> : () -> i8|  %4 = \"llvm.shl\"(%0, %3) : (i8, \
    i8) -> i8|  %2 = \"llvm.mul\"(%0, %1) : (i8, i8) -> i8|  \"llvm.return\"(%4) : (i8) -> ()
mul nsw i8 x 2 -- (%0: i8):|  %1 = \"llvm.mlir.constant\"() <{value = 2 : i8}> : () -> i8|  %2 = \"llvm.mul\"(%0, %1) \
    <{overflowFlags = #llvm.overflow<nsw>}> : (i8, i8) -> i8|  \"llvm.return\"(%2) : (i8) -> () => (%0: i8):|  %1 = \
    \"llvm.mlir.constant\"() <{value = 2 : i8}> : () -> i8|  %3 = \"llvm.mlir.constant\"() <{value = 1 : i8}> : () -> \
    i8|  %4 = \"llvm.shl\"(%0, %3) <{overflowFlags = #llvm.overflow<nsw>}> : (i8, i8) -> i8|  %2 = \"llvm.mul\"(%0, \
    %1) <{overflowFlags = #llvm.overflow<nsw>}> : (i8, i8) -> i8|  \"llvm.return\"(%4) : (i8) -> ()
mul nsw i8 x 16 -- (%0: i8):|  %1 = \"llvm.mlir.constant\"() <{value = 16 : i8}> : () -> i8|  %2 = \"llvm.mul\"(%0, \
    %1) <{overflowFlags = #llvm.overflow<nsw>}> : (i8, i8) -> i8|  \"llvm.return\"(%2) : (i8) -> () => (%0: i8):|  %1 \
    = \"llvm.mlir.constant\"() <{value = 16 : i8}> : () -> i8|  %3 = \"llvm.mlir.constant\"() <{value = 4 : i8}> : () \
    -> i8|  %4 = \"llvm.shl\"(%0, %3) <{overflowFlags = #llvm.overflow<nsw>}> : (i8, i8) -> i8|  %2 = \
    \"llvm.mul\"(%0, %1) <{overflowFlags = #llvm.overflow<nsw>}> : (i8, i8) -> i8|  \"llvm.return\"(%4) : (i8) -> ()
mul nuw i8 x 2 -- (%0: i8):|  %1 = \"llvm.mlir.constant\"() <{value = 2 : i8}> : () -> i8|  %2 = \"llvm.mul\"(%0, %1) \
    <{overflowFlags = #llvm.overflow<nuw>}> : (i8, i8) -> i8|  \"llvm.return\"(%2) : (i8) -> () => (%0: i8):|  %1 = \
    \"llvm.mlir.constant\"() <{value = 2 : i8}> : () -> i8|  %3 = \"llvm.mlir.constant\"() <{value = 1 : i8}> : () -> \
    i8|  %4 = \"llvm.shl\"(%0, %3) <{overflowFlags = #llvm.overflow<nuw>}> : (i8, i8) -> i8|  %2 = \"llvm.mul\"(%0, \
    %1) <{overflowFlags = #llvm.overflow<nuw>}> : (i8, i8) -> i8|  \"llvm.return\"(%4) : (i8) -> ()
mul nuw i8 x 16 -- (%0: i8):|  %1 = \"llvm.mlir.constant\"() <{value = 16 : i8}> : () -> i8|  %2 = \"llvm.mul\"(%0, \
    %1) <{overflowFlags = #llvm.overflow<nuw>}> : (i8, i8) -> i8|  \"llvm.return\"(%2) : (i8) -> () => (%0: i8):|  %1 \
    = \"llvm.mlir.constant\"() <{value = 16 : i8}> : () -> i8|  %3 = \"llvm.mlir.constant\"() <{value = 4 : i8}> : () \
    -> i8|  %4 = \"llvm.shl\"(%0, %3) <{overflowFlags = #llvm.overflow<nuw>}> : (i8, i8) -> i8|  %2 = \
    \"llvm.mul\"(%0, %1) <{overflowFlags = #llvm.overflow<nuw>}> : (i8, i8) -> i8|  \"llvm.return\"(%4) : (i8) -> ()
mul nuw nsw i8 x 2 -- (%0: i8):|  %1 = \"llvm.mlir.constant\"() <{value = 2 : i8}> : () -> i8|  %2 = \"llvm.mul\"(%0, \
    %1) <{overflowFlags = #llvm.overflow<nsw, nuw>}> : (i8, i8) -> i8|  \"llvm.return\"(%2) : (i8) -> () => (%0: \
    i8):|  %1 = \"llvm.mlir.constant\"() <{value = 2 : i8}> : () -> i8|  %3 = \"llvm.mlir.constant\"() <{value = 1 : \
    i8}> : () -> i8|  %4 = \"llvm.shl\"(%0, %3) <{overflowFlags = #llvm.overflow<nsw, nuw>}> : (i8, i8) -> i8|  %2 = \
    \"llvm.mul\"(%0, %1) <{overflowFlags = #llvm.overflow<nsw, nuw>}> : (i8, i8) -> i8|  \"llvm.return\"(%4) : (i8) \
    -> ()
mul nuw nsw i8 x 16 -- (%0: i8):|  %1 = \"llvm.mlir.constant\"() <{value = 16 : i8}> : () -> i8|  %2 = \
    \"llvm.mul\"(%0, %1) <{overflowFlags = #llvm.overflow<nsw, nuw>}> : (i8, i8) -> i8|  \"llvm.return\"(%2) : (i8) \
    -> () => (%0: i8):|  %1 = \"llvm.mlir.constant\"() <{value = 16 : i8}> : () -> i8|  %3 = \"llvm.mlir.constant\"() \
    <{value = 4 : i8}> : () -> i8|  %4 = \"llvm.shl\"(%0, %3) <{overflowFlags = #llvm.overflow<nsw, nuw>}> : (i8, i8) \
    -> i8|  %2 = \"llvm.mul\"(%0, %1) <{overflowFlags = #llvm.overflow<nsw, nuw>}> : (i8, i8) -> i8|  \
    \"llvm.return\"(%4) : (i8) -> ()
udiv i8 x 2 -- (%0: i8):|  %1 = \"llvm.mlir.constant\"() <{value = 2 : i8}> : () -> i8|  %2 = \"llvm.udiv\"(%0, %1) : \
    (i8, i8) -> i8|  \"llvm.return\"(%2) : (i8) -> () => (%0: i8):|  %1 = \"llvm.mlir.constant\"() <{value = 2 : i8}> \
    : () -> i8|  %3 = \"llvm.mlir.constant\"() <{value = 1 : i8}> : () -> i8|  %4 = \"llvm.lshr\"(%0, %3) : (i8, i8) \
    -> i8|  %2 = \"llvm.udiv\"(%0, %1) : (i8, i8) -> i8|  \"llvm.return\"(%4) : (i8) -> ()
udiv i8 x 16 -- (%0: i8):|  %1 = \"llvm.mlir.constant\"() <{value = 16 : i8}> : () -> i8|  %2 = \"llvm.udiv\"(%0, %1) \
    : (i8, i8) -> i8|  \"llvm.return\"(%2) : (i8) -> () => (%0: i8):|  %1 = \"llvm.mlir.constant\"() <{value = 16 : \
    i8}> : () -> i8|  %3 = \"llvm.mlir.constant\"() <{value = 4 : i8}> : () -> i8|  %4 = \"llvm.lshr\"(%0, %3) : (i8, \
    i8) -> i8|  %2 = \"llvm.udiv\"(%0, %1) : (i8, i8) -> i8|  \"llvm.return\"(%4) : (i8) -> ()
udiv exact i8 x 2 -- (%0: i8):|  %1 = \"llvm.mlir.constant\"() <{value = 2 : i8}> : () -> i8|  %2 = \"llvm.udiv\"(%0, \
    %1) <{isExact}> : (i8, i8) -> i8|  \"llvm.return\"(%2) : (i8) -> () => (%0: i8):|  %1 = \"llvm.mlir.constant\"() \
    <{value = 2 : i8}> : () -> i8|  %3 = \"llvm.mlir.constant\"() <{value = 1 : i8}> : () -> i8|  %4 = \
    \"llvm.lshr\"(%0, %3) <{isExact}> : (i8, i8) -> i8|  %2 = \"llvm.udiv\"(%0, %1) <{isExact}> : (i8, i8) -> i8|  \
    \"llvm.return\"(%4) : (i8) -> ()
udiv exact i8 x 16 -- (%0: i8):|  %1 = \"llvm.mlir.constant\"() <{value = 16 : i8}> : () -> i8|  %2 = \
    \"llvm.udiv\"(%0, %1) <{isExact}> : (i8, i8) -> i8|  \"llvm.return\"(%2) : (i8) -> () => (%0: i8):|  %1 = \
    \"llvm.mlir.constant\"() <{value = 16 : i8}> : () -> i8|  %3 = \"llvm.mlir.constant\"() <{value = 4 : i8}> : () \
    -> i8|  %4 = \"llvm.lshr\"(%0, %3) <{isExact}> : (i8, i8) -> i8|  %2 = \"llvm.udiv\"(%0, %1) <{isExact}> : (i8, \
    i8) -> i8|  \"llvm.return\"(%4) : (i8) -> ()
urem i8 x 2 -- (%0: i8):|  %1 = \"llvm.mlir.constant\"() <{value = 2 : i8}> : () -> i8|  %2 = \"llvm.urem\"(%0, %1) : \
    (i8, i8) -> i8|  \"llvm.return\"(%2) : (i8) -> () => (%0: i8):|  %1 = \"llvm.mlir.constant\"() <{value = 2 : i8}> \
    : () -> i8|  %3 = \"llvm.mlir.constant\"() <{value = 1 : i8}> : () -> i8|  %4 = \"llvm.and\"(%0, %3) : (i8, i8) \
    -> i8|  %2 = \"llvm.urem\"(%0, %1) : (i8, i8) -> i8|  \"llvm.return\"(%4) : (i8) -> ()
urem i8 x 16 -- (%0: i8):|  %1 = \"llvm.mlir.constant\"() <{value = 16 : i8}> : () -> i8|  %2 = \"llvm.urem\"(%0, %1) \
    : (i8, i8) -> i8|  \"llvm.return\"(%2) : (i8) -> () => (%0: i8):|  %1 = \"llvm.mlir.constant\"() <{value = 16 : \
    i8}> : () -> i8|  %3 = \"llvm.mlir.constant\"() <{value = 15 : i8}> : () -> i8|  %4 = \"llvm.and\"(%0, %3) : (i8, \
    i8) -> i8|  %2 = \"llvm.urem\"(%0, %1) : (i8, i8) -> i8|  \"llvm.return\"(%4) : (i8) -> ()
icmp sle i16 x 9 -- (%0: i16):|  %1 = \"llvm.mlir.constant\"() <{value = 9 : i16}> : () -> i16|  %2 = \
    \"llvm.icmp\"(%0, %1) <{predicate = 3 : i64}> : (i16, i16) -> i1|  \"llvm.return\"(%2) : (i1) -> () => (%0: \
    i16):|  %1 = \"llvm.mlir.constant\"() <{value = 9 : i16}> : () -> i16|  %3 = \"llvm.mlir.constant\"() <{value = \
    10 : i16}> : () -> i16|  %4 = \"llvm.icmp\"(%0, %3) <{predicate = 2 : i64}> : (i16, i16) -> i1|  %2 = \
    \"llvm.icmp\"(%0, %1) <{predicate = 3 : i64}> : (i16, i16) -> i1|  \"llvm.return\"(%4) : (i1) -> ()
icmp sle i16 x -3 -- (%0: i16):|  %1 = \"llvm.mlir.constant\"() <{value = -3 : i16}> : () -> i16|  %2 = \
    \"llvm.icmp\"(%0, %1) <{predicate = 3 : i64}> : (i16, i16) -> i1|  \"llvm.return\"(%2) : (i1) -> () => (%0: \
    i16):|  %1 = \"llvm.mlir.constant\"() <{value = -3 : i16}> : () -> i16|  %3 = \"llvm.mlir.constant\"() <{value = \
    -2 : i16}> : () -> i16|  %4 = \"llvm.icmp\"(%0, %3) <{predicate = 2 : i64}> : (i16, i16) -> i1|  %2 = \
    \"llvm.icmp\"(%0, %1) <{predicate = 3 : i64}> : (i16, i16) -> i1|  \"llvm.return\"(%4) : (i1) -> ()
icmp sge i16 x 9 -- (%0: i16):|  %1 = \"llvm.mlir.constant\"() <{value = 9 : i16}> : () -> i16|  %2 = \
    \"llvm.icmp\"(%0, %1) <{predicate = 5 : i64}> : (i16, i16) -> i1|  \"llvm.return\"(%2) : (i1) -> () => (%0: \
    i16):|  %1 = \"llvm.mlir.constant\"() <{value = 9 : i16}> : () -> i16|  %3 = \"llvm.mlir.constant\"() <{value = 8 \
    : i16}> : () -> i16|  %4 = \"llvm.icmp\"(%0, %3) <{predicate = 4 : i64}> : (i16, i16) -> i1|  %2 = \
    \"llvm.icmp\"(%0, %1) <{predicate = 5 : i64}> : (i16, i16) -> i1|  \"llvm.return\"(%4) : (i1) -> ()
icmp sge i16 x -3 -- (%0: i16):|  %1 = \"llvm.mlir.constant\"() <{value = -3 : i16}> : () -> i16|  %2 = \
    \"llvm.icmp\"(%0, %1) <{predicate = 5 : i64}> : (i16, i16) -> i1|  \"llvm.return\"(%2) : (i1) -> () => (%0: \
    i16):|  %1 = \"llvm.mlir.constant\"() <{value = -3 : i16}> : () -> i16|  %3 = \"llvm.mlir.constant\"() <{value = \
    -4 : i16}> : () -> i16|  %4 = \"llvm.icmp\"(%0, %3) <{predicate = 4 : i64}> : (i16, i16) -> i1|  %2 = \
    \"llvm.icmp\"(%0, %1) <{predicate = 5 : i64}> : (i16, i16) -> i1|  \"llvm.return\"(%4) : (i1) -> ()
icmp ule i16 x 9 -- (%0: i16):|  %1 = \"llvm.mlir.constant\"() <{value = 9 : i16}> : () -> i16|  %2 = \
    \"llvm.icmp\"(%0, %1) <{predicate = 7 : i64}> : (i16, i16) -> i1|  \"llvm.return\"(%2) : (i1) -> () => (%0: \
    i16):|  %1 = \"llvm.mlir.constant\"() <{value = 9 : i16}> : () -> i16|  %3 = \"llvm.mlir.constant\"() <{value = \
    10 : i16}> : () -> i16|  %4 = \"llvm.icmp\"(%0, %3) <{predicate = 6 : i64}> : (i16, i16) -> i1|  %2 = \
    \"llvm.icmp\"(%0, %1) <{predicate = 7 : i64}> : (i16, i16) -> i1|  \"llvm.return\"(%4) : (i1) -> ()
icmp ule i16 x -3 -- (%0: i16):|  %1 = \"llvm.mlir.constant\"() <{value = -3 : i16}> : () -> i16|  %2 = \
    \"llvm.icmp\"(%0, %1) <{predicate = 7 : i64}> : (i16, i16) -> i1|  \"llvm.return\"(%2) : (i1) -> () => (%0: \
    i16):|  %1 = \"llvm.mlir.constant\"() <{value = -3 : i16}> : () -> i16|  %3 = \"llvm.mlir.constant\"() <{value = \
    -2 : i16}> : () -> i16|  %4 = \"llvm.icmp\"(%0, %3) <{predicate = 6 : i64}> : (i16, i16) -> i1|  %2 = \
    \"llvm.icmp\"(%0, %1) <{predicate = 7 : i64}> : (i16, i16) -> i1|  \"llvm.return\"(%4) : (i1) -> ()
icmp uge i16 x 9 -- (%0: i16):|  %1 = \"llvm.mlir.constant\"() <{value = 9 : i16}> : () -> i16|  %2 = \
    \"llvm.icmp\"(%0, %1) <{predicate = 9 : i64}> : (i16, i16) -> i1|  \"llvm.return\"(%2) : (i1) -> () => (%0: \
    i16):|  %1 = \"llvm.mlir.constant\"() <{value = 9 : i16}> : () -> i16|  %3 = \"llvm.mlir.constant\"() <{value = 8 \
    : i16}> : () -> i16|  %4 = \"llvm.icmp\"(%0, %3) <{predicate = 8 : i64}> : (i16, i16) -> i1|  %2 = \
    \"llvm.icmp\"(%0, %1) <{predicate = 9 : i64}> : (i16, i16) -> i1|  \"llvm.return\"(%4) : (i1) -> ()
icmp uge i16 x -3 -- (%0: i16):|  %1 = \"llvm.mlir.constant\"() <{value = -3 : i16}> : () -> i16|  %2 = \
    \"llvm.icmp\"(%0, %1) <{predicate = 9 : i64}> : (i16, i16) -> i1|  \"llvm.return\"(%2) : (i1) -> () => (%0: \
    i16):|  %1 = \"llvm.mlir.constant\"() <{value = -3 : i16}> : () -> i16|  %3 = \"llvm.mlir.constant\"() <{value = \
    -4 : i16}> : () -> i16|  %4 = \"llvm.icmp\"(%0, %3) <{predicate = 8 : i64}> : (i16, i16) -> i1|  %2 = \
    \"llvm.icmp\"(%0, %1) <{predicate = 9 : i64}> : (i16, i16) -> i1|  \"llvm.return\"(%4) : (i1) -> ()
icmp eq i16 5 x -- (%0: i16):|  %1 = \"llvm.mlir.constant\"() <{value = 5 : i16}> : () -> i16|  %2 = \
    \"llvm.icmp\"(%1, %0) <{predicate = 0 : i64}> : (i16, i16) -> i1|  \"llvm.return\"(%2) : (i1) -> () => (%0: \
    i16):|  %1 = \"llvm.mlir.constant\"() <{value = 5 : i16}> : () -> i16|  %3 = \"llvm.icmp\"(%0, %1) <{predicate = \
    0 : i64}> : (i16, i16) -> i1|  %2 = \"llvm.icmp\"(%1, %0) <{predicate = 0 : i64}> : (i16, i16) -> i1|  \
    \"llvm.return\"(%3) : (i1) -> ()
icmp ne i16 5 x -- (%0: i16):|  %1 = \"llvm.mlir.constant\"() <{value = 5 : i16}> : () -> i16|  %2 = \
    \"llvm.icmp\"(%1, %0) <{predicate = 1 : i64}> : (i16, i16) -> i1|  \"llvm.return\"(%2) : (i1) -> () => (%0: \
    i16):|  %1 = \"llvm.mlir.constant\"() <{value = 5 : i16}> : () -> i16|  %3 = \"llvm.icmp\"(%0, %1) <{predicate = \
    1 : i64}> : (i16, i16) -> i1|  %2 = \"llvm.icmp\"(%1, %0) <{predicate = 1 : i64}> : (i16, i16) -> i1|  \
    \"llvm.return\"(%3) : (i1) -> ()
icmp slt i16 5 x -- (%0: i16):|  %1 = \"llvm.mlir.constant\"() <{value = 5 : i16}> : () -> i16|  %2 = \
    \"llvm.icmp\"(%1, %0) <{predicate = 2 : i64}> : (i16, i16) -> i1|  \"llvm.return\"(%2) : (i1) -> () => (%0: \
    i16):|  %1 = \"llvm.mlir.constant\"() <{value = 5 : i16}> : () -> i16|  %3 = \"llvm.icmp\"(%0, %1) <{predicate = \
    4 : i64}> : (i16, i16) -> i1|  %2 = \"llvm.icmp\"(%1, %0) <{predicate = 2 : i64}> : (i16, i16) -> i1|  \
    \"llvm.return\"(%3) : (i1) -> ()
icmp sgt i16 5 x -- (%0: i16):|  %1 = \"llvm.mlir.constant\"() <{value = 5 : i16}> : () -> i16|  %2 = \
    \"llvm.icmp\"(%1, %0) <{predicate = 4 : i64}> : (i16, i16) -> i1|  \"llvm.return\"(%2) : (i1) -> () => (%0: \
    i16):|  %1 = \"llvm.mlir.constant\"() <{value = 5 : i16}> : () -> i16|  %3 = \"llvm.icmp\"(%0, %1) <{predicate = \
    2 : i64}> : (i16, i16) -> i1|  %2 = \"llvm.icmp\"(%1, %0) <{predicate = 4 : i64}> : (i16, i16) -> i1|  \
    \"llvm.return\"(%3) : (i1) -> ()
icmp ult i16 5 x -- (%0: i16):|  %1 = \"llvm.mlir.constant\"() <{value = 5 : i16}> : () -> i16|  %2 = \
    \"llvm.icmp\"(%1, %0) <{predicate = 6 : i64}> : (i16, i16) -> i1|  \"llvm.return\"(%2) : (i1) -> () => (%0: \
    i16):|  %1 = \"llvm.mlir.constant\"() <{value = 5 : i16}> : () -> i16|  %3 = \"llvm.icmp\"(%0, %1) <{predicate = \
    8 : i64}> : (i16, i16) -> i1|  %2 = \"llvm.icmp\"(%1, %0) <{predicate = 6 : i64}> : (i16, i16) -> i1|  \
    \"llvm.return\"(%3) : (i1) -> ()
icmp ugt i16 5 x -- (%0: i16):|  %1 = \"llvm.mlir.constant\"() <{value = 5 : i16}> : () -> i16|  %2 = \
    \"llvm.icmp\"(%1, %0) <{predicate = 8 : i64}> : (i16, i16) -> i1|  \"llvm.return\"(%2) : (i1) -> () => (%0: \
    i16):|  %1 = \"llvm.mlir.constant\"() <{value = 5 : i16}> : () -> i16|  %3 = \"llvm.icmp\"(%0, %1) <{predicate = \
    6 : i64}> : (i16, i16) -> i1|  %2 = \"llvm.icmp\"(%1, %0) <{predicate = 8 : i64}> : (i16, i16) -> i1|  \
    \"llvm.return\"(%3) : (i1) -> ()
add i16 5 x -- (%0: i16):|  %1 = \"llvm.mlir.constant\"() <{value = 5 : i16}> : () -> i16|  %2 = \"llvm.add\"(%1, %0) \
    : (i16, i16) -> i16|  \"llvm.return\"(%2) : (i16) -> () => (%0: i16):|  %1 = \"llvm.mlir.constant\"() <{value = 5 \
    : i16}> : () -> i16|  %3 = \"llvm.add\"(%0, %1) : (i16, i16) -> i16|  %2 = \"llvm.add\"(%1, %0) : (i16, i16) -> \
    i16|  \"llvm.return\"(%3) : (i16) -> ()
add nsw i16 5 x -- (%0: i16):|  %1 = \"llvm.mlir.constant\"() <{value = 5 : i16}> : () -> i16|  %2 = \"llvm.add\"(%1, \
    %0) <{overflowFlags = #llvm.overflow<nsw>}> : (i16, i16) -> i16|  \"llvm.return\"(%2) : (i16) -> () => (%0: \
    i16):|  %1 = \"llvm.mlir.constant\"() <{value = 5 : i16}> : () -> i16|  %3 = \"llvm.add\"(%0, %1) <{overflowFlags \
    = #llvm.overflow<nsw>}> : (i16, i16) -> i16|  %2 = \"llvm.add\"(%1, %0) <{overflowFlags = #llvm.overflow<nsw>}> : \
    (i16, i16) -> i16|  \"llvm.return\"(%3) : (i16) -> ()
add nuw i16 5 x -- (%0: i16):|  %1 = \"llvm.mlir.constant\"() <{value = 5 : i16}> : () -> i16|  %2 = \"llvm.add\"(%1, \
    %0) <{overflowFlags = #llvm.overflow<nuw>}> : (i16, i16) -> i16|  \"llvm.return\"(%2) : (i16) -> () => (%0: \
    i16):|  %1 = \"llvm.mlir.constant\"() <{value = 5 : i16}> : () -> i16|  %3 = \"llvm.add\"(%0, %1) <{overflowFlags \
    = #llvm.overflow<nuw>}> : (i16, i16) -> i16|  %2 = \"llvm.add\"(%1, %0) <{overflowFlags = #llvm.overflow<nuw>}> : \
    (i16, i16) -> i16|  \"llvm.return\"(%3) : (i16) -> ()
mul i16 5 x -- (%0: i16):|  %1 = \"llvm.mlir.constant\"() <{value = 5 : i16}> : () -> i16|  %2 = \"llvm.mul\"(%1, %0) \
    : (i16, i16) -> i16|  \"llvm.return\"(%2) : (i16) -> () => (%0: i16):|  %1 = \"llvm.mlir.constant\"() <{value = 5 \
    : i16}> : () -> i16|  %3 = \"llvm.mul\"(%0, %1) : (i16, i16) -> i16|  %2 = \"llvm.mul\"(%1, %0) : (i16, i16) -> \
    i16|  \"llvm.return\"(%3) : (i16) -> ()
mul nuw nsw i16 5 x -- (%0: i16):|  %1 = \"llvm.mlir.constant\"() <{value = 5 : i16}> : () -> i16|  %2 = \
    \"llvm.mul\"(%1, %0) <{overflowFlags = #llvm.overflow<nsw, nuw>}> : (i16, i16) -> i16|  \"llvm.return\"(%2) : \
    (i16) -> () => (%0: i16):|  %1 = \"llvm.mlir.constant\"() <{value = 5 : i16}> : () -> i16|  %3 = \"llvm.mul\"(%0, \
    %1) <{overflowFlags = #llvm.overflow<nsw, nuw>}> : (i16, i16) -> i16|  %2 = \"llvm.mul\"(%1, %0) <{overflowFlags \
    = #llvm.overflow<nsw, nuw>}> : (i16, i16) -> i16|  \"llvm.return\"(%3) : (i16) -> ()
and i16 5 x -- (%0: i16):|  %1 = \"llvm.mlir.constant\"() <{value = 5 : i16}> : () -> i16|  %2 = \"llvm.and\"(%1, %0) \
    : (i16, i16) -> i16|  \"llvm.return\"(%2) : (i16) -> () => (%0: i16):|  %1 = \"llvm.mlir.constant\"() <{value = 5 \
    : i16}> : () -> i16|  %3 = \"llvm.and\"(%0, %1) : (i16, i16) -> i16|  %2 = \"llvm.and\"(%1, %0) : (i16, i16) -> \
    i16|  \"llvm.return\"(%3) : (i16) -> ()
or i16 5 x -- (%0: i16):|  %1 = \"llvm.mlir.constant\"() <{value = 5 : i16}> : () -> i16|  %2 = \"llvm.or\"(%1, %0) : \
    (i16, i16) -> i16|  \"llvm.return\"(%2) : (i16) -> () => (%0: i16):|  %1 = \"llvm.mlir.constant\"() <{value = 5 : \
    i16}> : () -> i16|  %3 = \"llvm.or\"(%0, %1) : (i16, i16) -> i16|  %2 = \"llvm.or\"(%1, %0) : (i16, i16) -> i16|  \
    \"llvm.return\"(%3) : (i16) -> ()
or disjoint i16 5 x -- (%0: i16):|  %1 = \"llvm.mlir.constant\"() <{value = 5 : i16}> : () -> i16|  %2 = \
    \"llvm.or\"(%1, %0) <{isDisjoint}> : (i16, i16) -> i16|  \"llvm.return\"(%2) : (i16) -> () => (%0: i16):|  %1 = \
    \"llvm.mlir.constant\"() <{value = 5 : i16}> : () -> i16|  %3 = \"llvm.or\"(%0, %1) <{isDisjoint}> : (i16, i16) \
    -> i16|  %2 = \"llvm.or\"(%1, %0) <{isDisjoint}> : (i16, i16) -> i16|  \"llvm.return\"(%3) : (i16) -> ()
xor i16 5 x -- (%0: i16):|  %1 = \"llvm.mlir.constant\"() <{value = 5 : i16}> : () -> i16|  %2 = \"llvm.xor\"(%1, %0) \
    : (i16, i16) -> i16|  \"llvm.return\"(%2) : (i16) -> () => (%0: i16):|  %1 = \"llvm.mlir.constant\"() <{value = 5 \
    : i16}> : () -> i16|  %3 = \"llvm.xor\"(%0, %1) : (i16, i16) -> i16|  %2 = \"llvm.xor\"(%1, %0) : (i16, i16) -> \
    i16|  \"llvm.return\"(%3) : (i16) -> ()
mul i16 x 2 -- (%0: i16):|  %1 = \"llvm.mlir.constant\"() <{value = 2 : i16}> : () -> i16|  %2 = \"llvm.mul\"(%0, %1) \
    : (i16, i16) -> i16|  \"llvm.return\"(%2) : (i16) -> () => (%0: i16):|  %1 = \"llvm.mlir.constant\"() <{value = 2 \
    : i16}> : () -> i16|  %3 = \"llvm.mlir.constant\"() <{value = 1 : i16}> : () -> i16|  %4 = \"llvm.shl\"(%0, %3) : \
    (i16, i16) -> i16|  %2 = \"llvm.mul\"(%0, %1) : (i16, i16) -> i16|  \"llvm.return\"(%4) : (i16) -> ()
mul i16 x 16 -- (%0: i16):|  %1 = \"llvm.mlir.constant\"() <{value = 16 : i16}> : () -> i16|  %2 = \"llvm.mul\"(%0, \
    %1) : (i16, i16) -> i16|  \"llvm.return\"(%2) : (i16) -> () => (%0: i16):|  %1 = \"llvm.mlir.constant\"() <{value \
    = 16 : i16}> : () -> i16|  %3 = \"llvm.mlir.constant\"() <{value = 4 : i16}> : () -> i16|  %4 = \"llvm.shl\"(%0, \
    %3) : (i16, i16) -> i16|  %2 = \"llvm.mul\"(%0, %1) : (i16, i16) -> i16|  \"llvm.return\"(%4) : (i16) -> ()
mul nsw i16 x 2 -- (%0: i16):|  %1 = \"llvm.mlir.constant\"() <{value = 2 : i16}> : () -> i16|  %2 = \"llvm.mul\"(%0, \
    %1) <{overflowFlags = #llvm.overflow<nsw>}> : (i16, i16) -> i16|  \"llvm.return\"(%2) : (i16) -> () => (%0: \
    i16):|  %1 = \"llvm.mlir.constant\"() <{value = 2 : i16}> : () -> i16|  %3 = \"llvm.mlir.constant\"() <{value = 1 \
    : i16}> : () -> i16|  %4 = \"llvm.shl\"(%0, %3) <{overflowFlags = #llvm.overflow<nsw>}> : (i16, i16) -> i16|  %2 \
    = \"llvm.mul\"(%0, %1) <{overflowFlags = #llvm.overflow<nsw>}> : (i16, i16) -> i16|  \"llvm.return\"(%4) : (i16) \
    -> ()
mul nsw i16 x 16 -- (%0: i16):|  %1 = \"llvm.mlir.constant\"() <{value = 16 : i16}> : () -> i16|  %2 = \
    \"llvm.mul\"(%0, %1) <{overflowFlags = #llvm.overflow<nsw>}> : (i16, i16) -> i16|  \"llvm.return\"(%2) : (i16) -> \
    () => (%0: i16):|  %1 = \"llvm.mlir.constant\"() <{value = 16 : i16}> : () -> i16|  %3 = \"llvm.mlir.constant\"() \
    <{value = 4 : i16}> : () -> i16|  %4 = \"llvm.shl\"(%0, %3) <{overflowFlags = #llvm.overflow<nsw>}> : (i16, i16) \
    -> i16|  %2 = \"llvm.mul\"(%0, %1) <{overflowFlags = #llvm.overflow<nsw>}> : (i16, i16) -> i16|  \
    \"llvm.return\"(%4) : (i16) -> ()
mul nuw i16 x 2 -- (%0: i16):|  %1 = \"llvm.mlir.constant\"() <{value = 2 : i16}> : () -> i16|  %2 = \"llvm.mul\"(%0, \
    %1) <{overflowFlags = #llvm.overflow<nuw>}> : (i16, i16) -> i16|  \"llvm.return\"(%2) : (i16) -> () => (%0: \
    i16):|  %1 = \"llvm.mlir.constant\"() <{value = 2 : i16}> : () -> i16|  %3 = \"llvm.mlir.constant\"() <{value = 1 \
    : i16}> : () -> i16|  %4 = \"llvm.shl\"(%0, %3) <{overflowFlags = #llvm.overflow<nuw>}> : (i16, i16) -> i16|  %2 \
    = \"llvm.mul\"(%0, %1) <{overflowFlags = #llvm.overflow<nuw>}> : (i16, i16) -> i16|  \"llvm.return\"(%4) : (i16) \
    -> ()
mul nuw i16 x 16 -- (%0: i16):|  %1 = \"llvm.mlir.constant\"() <{value = 16 : i16}> : () -> i16|  %2 = \
    \"llvm.mul\"(%0, %1) <{overflowFlags = #llvm.overflow<nuw>}> : (i16, i16) -> i16|  \"llvm.return\"(%2) : (i16) -> \
    () => (%0: i16):|  %1 = \"llvm.mlir.constant\"() <{value = 16 : i16}> : () -> i16|  %3 = \"llvm.mlir.constant\"() \
    <{value = 4 : i16}> : () -> i16|  %4 = \"llvm.shl\"(%0, %3) <{overflowFlags = #llvm.overflow<nuw>}> : (i16, i16) \
    -> i16|  %2 = \"llvm.mul\"(%0, %1) <{overflowFlags = #llvm.overflow<nuw>}> : (i16, i16) -> i16|  \
    \"llvm.return\"(%4) : (i16) -> ()
mul nuw nsw i16 x 2 -- (%0: i16):|  %1 = \"llvm.mlir.constant\"() <{value = 2 : i16}> : () -> i16|  %2 = \
    \"llvm.mul\"(%0, %1) <{overflowFlags = #llvm.overflow<nsw, nuw>}> : (i16, i16) -> i16|  \"llvm.return\"(%2) : \
    (i16) -> () => (%0: i16):|  %1 = \"llvm.mlir.constant\"() <{value = 2 : i16}> : () -> i16|  %3 = \
    \"llvm.mlir.constant\"() <{value = 1 : i16}> : () -> i16|  %4 = \"llvm.shl\"(%0, %3) <{overflowFlags = \
    #llvm.overflow<nsw, nuw>}> : (i16, i16) -> i16|  %2 = \"llvm.mul\"(%0, %1) <{overflowFlags = #llvm.overflow<nsw, \
    nuw>}> : (i16, i16) -> i16|  \"llvm.return\"(%4) : (i16) -> ()
mul nuw nsw i16 x 16 -- (%0: i16):|  %1 = \"llvm.mlir.constant\"() <{value = 16 : i16}> : () -> i16|  %2 = \
    \"llvm.mul\"(%0, %1) <{overflowFlags = #llvm.overflow<nsw, nuw>}> : (i16, i16) -> i16|  \"llvm.return\"(%2) : \
    (i16) -> () => (%0: i16):|  %1 = \"llvm.mlir.constant\"() <{value = 16 : i16}> : () -> i16|  %3 = \
    \"llvm.mlir.constant\"() <{value = 4 : i16}> : () -> i16|  %4 = \"llvm.shl\"(%0, %3) <{overflowFlags = \
    #llvm.overflow<nsw, nuw>}> : (i16, i16) -> i16|  %2 = \"llvm.mul\"(%0, %1) <{overflowFlags = #llvm.overflow<nsw, \
    nuw>}> : (i16, i16) -> i16|  \"llvm.return\"(%4) : (i16) -> ()
udiv i16 x 2 -- (%0: i16):|  %1 = \"llvm.mlir.constant\"() <{value = 2 : i16}> : () -> i16|  %2 = \"llvm.udiv\"(%0, \
    %1) : (i16, i16) -> i16|  \"llvm.return\"(%2) : (i16) -> () => (%0: i16):|  %1 = \"llvm.mlir.constant\"() <{value \
    = 2 : i16}> : () -> i16|  %3 = \"llvm.mlir.constant\"() <{value = 1 : i16}> : () -> i16|  %4 = \"llvm.lshr\"(%0, \
    %3) : (i16, i16) -> i16|  %2 = \"llvm.udiv\"(%0, %1) : (i16, i16) -> i16|  \"llvm.return\"(%4) : (i16) -> ()
udiv i16 x 16 -- (%0: i16):|  %1 = \"llvm.mlir.constant\"() <{value = 16 : i16}> : () -> i16|  %2 = \"llvm.udiv\"(%0, \
    %1) : (i16, i16) -> i16|  \"llvm.return\"(%2) : (i16) -> () => (%0: i16):|  %1 = \"llvm.mlir.constant\"() <{value \
    = 16 : i16}> : () -> i16|  %3 = \"llvm.mlir.constant\"() <{value = 4 : i16}> : () -> i16|  %4 = \"llvm.lshr\"(%0, \
    %3) : (i16, i16) -> i16|  %2 = \"llvm.udiv\"(%0, %1) : (i16, i16) -> i16|  \"llvm.return\"(%4) : (i16) -> ()
udiv exact i16 x 2 -- (%0: i16):|  %1 = \"llvm.mlir.constant\"() <{value = 2 : i16}> : () -> i16|  %2 = \
    \"llvm.udiv\"(%0, %1) <{isExact}> : (i16, i16) -> i16|  \"llvm.return\"(%2) : (i16) -> () => (%0: i16):|  %1 = \
    \"llvm.mlir.constant\"() <{value = 2 : i16}> : () -> i16|  %3 = \"llvm.mlir.constant\"() <{value = 1 : i16}> : () \
    -> i16|  %4 = \"llvm.lshr\"(%0, %3) <{isExact}> : (i16, i16) -> i16|  %2 = \"llvm.udiv\"(%0, %1) <{isExact}> : \
    (i16, i16) -> i16|  \"llvm.return\"(%4) : (i16) -> ()
udiv exact i16 x 16 -- (%0: i16):|  %1 = \"llvm.mlir.constant\"() <{value = 16 : i16}> : () -> i16|  %2 = \
    \"llvm.udiv\"(%0, %1) <{isExact}> : (i16, i16) -> i16|  \"llvm.return\"(%2) : (i16) -> () => (%0: i16):|  %1 = \
    \"llvm.mlir.constant\"() <{value = 16 : i16}> : () -> i16|  %3 = \"llvm.mlir.constant\"() <{value = 4 : i16}> : \
    () -> i16|  %4 = \"llvm.lshr\"(%0, %3) <{isExact}> : (i16, i16) -> i16|  %2 = \"llvm.udiv\"(%0, %1) <{isExact}> : \
    (i16, i16) -> i16|  \"llvm.return\"(%4) : (i16) -> ()
urem i16 x 2 -- (%0: i16):|  %1 = \"llvm.mlir.constant\"() <{value = 2 : i16}> : () -> i16|  %2 = \"llvm.urem\"(%0, \
    %1) : (i16, i16) -> i16|  \"llvm.return\"(%2) : (i16) -> () => (%0: i16):|  %1 = \"llvm.mlir.constant\"() <{value \
    = 2 : i16}> : () -> i16|  %3 = \"llvm.mlir.constant\"() <{value = 1 : i16}> : () -> i16|  %4 = \"llvm.and\"(%0, \
    %3) : (i16, i16) -> i16|  %2 = \"llvm.urem\"(%0, %1) : (i16, i16) -> i16|  \"llvm.return\"(%4) : (i16) -> ()
urem i16 x 16 -- (%0: i16):|  %1 = \"llvm.mlir.constant\"() <{value = 16 : i16}> : () -> i16|  %2 = \"llvm.urem\"(%0, \
    %1) : (i16, i16) -> i16|  \"llvm.return\"(%2) : (i16) -> () => (%0: i16):|  %1 = \"llvm.mlir.constant\"() <{value \
    = 16 : i16}> : () -> i16|  %3 = \"llvm.mlir.constant\"() <{value = 15 : i16}> : () -> i16|  %4 = \"llvm.and\"(%0, \
    %3) : (i16, i16) -> i16|  %2 = \"llvm.urem\"(%0, %1) : (i16, i16) -> i16|  \"llvm.return\"(%4) : (i16) -> ()
icmp sle i32 x 9 -- (%0: i32):|  %1 = \"llvm.mlir.constant\"() <{value = 9 : i32}> : () -> i32|  %2 = \
    \"llvm.icmp\"(%0, %1) <{predicate = 3 : i64}> : (i32, i32) -> i1|  \"llvm.return\"(%2) : (i1) -> () => (%0: \
    i32):|  %1 = \"llvm.mlir.constant\"() <{value = 9 : i32}> : () -> i32|  %3 = \"llvm.mlir.constant\"() <{value = \
    10 : i32}> : () -> i32|  %4 = \"llvm.icmp\"(%0, %3) <{predicate = 2 : i64}> : (i32, i32) -> i1|  %2 = \
    \"llvm.icmp\"(%0, %1) <{predicate = 3 : i64}> : (i32, i32) -> i1|  \"llvm.return\"(%4) : (i1) -> ()
icmp sle i32 x -3 -- (%0: i32):|  %1 = \"llvm.mlir.constant\"() <{value = -3 : i32}> : () -> i32|  %2 = \
    \"llvm.icmp\"(%0, %1) <{predicate = 3 : i64}> : (i32, i32) -> i1|  \"llvm.return\"(%2) : (i1) -> () => (%0: \
    i32):|  %1 = \"llvm.mlir.constant\"() <{value = -3 : i32}> : () -> i32|  %3 = \"llvm.mlir.constant\"() <{value = \
    -2 : i32}> : () -> i32|  %4 = \"llvm.icmp\"(%0, %3) <{predicate = 2 : i64}> : (i32, i32) -> i1|  %2 = \
    \"llvm.icmp\"(%0, %1) <{predicate = 3 : i64}> : (i32, i32) -> i1|  \"llvm.return\"(%4) : (i1) -> ()
icmp sge i32 x 9 -- (%0: i32):|  %1 = \"llvm.mlir.constant\"() <{value = 9 : i32}> : () -> i32|  %2 = \
    \"llvm.icmp\"(%0, %1) <{predicate = 5 : i64}> : (i32, i32) -> i1|  \"llvm.return\"(%2) : (i1) -> () => (%0: \
    i32):|  %1 = \"llvm.mlir.constant\"() <{value = 9 : i32}> : () -> i32|  %3 = \"llvm.mlir.constant\"() <{value = 8 \
    : i32}> : () -> i32|  %4 = \"llvm.icmp\"(%0, %3) <{predicate = 4 : i64}> : (i32, i32) -> i1|  %2 = \
    \"llvm.icmp\"(%0, %1) <{predicate = 5 : i64}> : (i32, i32) -> i1|  \"llvm.return\"(%4) : (i1) -> ()
icmp sge i32 x -3 -- (%0: i32):|  %1 = \"llvm.mlir.constant\"() <{value = -3 : i32}> : () -> i32|  %2 = \
    \"llvm.icmp\"(%0, %1) <{predicate = 5 : i64}> : (i32, i32) -> i1|  \"llvm.return\"(%2) : (i1) -> () => (%0: \
    i32):|  %1 = \"llvm.mlir.constant\"() <{value = -3 : i32}> : () -> i32|  %3 = \"llvm.mlir.constant\"() <{value = \
    -4 : i32}> : () -> i32|  %4 = \"llvm.icmp\"(%0, %3) <{predicate = 4 : i64}> : (i32, i32) -> i1|  %2 = \
    \"llvm.icmp\"(%0, %1) <{predicate = 5 : i64}> : (i32, i32) -> i1|  \"llvm.return\"(%4) : (i1) -> ()
icmp ule i32 x 9 -- (%0: i32):|  %1 = \"llvm.mlir.constant\"() <{value = 9 : i32}> : () -> i32|  %2 = \
    \"llvm.icmp\"(%0, %1) <{predicate = 7 : i64}> : (i32, i32) -> i1|  \"llvm.return\"(%2) : (i1) -> () => (%0: \
    i32):|  %1 = \"llvm.mlir.constant\"() <{value = 9 : i32}> : () -> i32|  %3 = \"llvm.mlir.constant\"() <{value = \
    10 : i32}> : () -> i32|  %4 = \"llvm.icmp\"(%0, %3) <{predicate = 6 : i64}> : (i32, i32) -> i1|  %2 = \
    \"llvm.icmp\"(%0, %1) <{predicate = 7 : i64}> : (i32, i32) -> i1|  \"llvm.return\"(%4) : (i1) -> ()
icmp ule i32 x -3 -- (%0: i32):|  %1 = \"llvm.mlir.constant\"() <{value = -3 : i32}> : () -> i32|  %2 = \
    \"llvm.icmp\"(%0, %1) <{predicate = 7 : i64}> : (i32, i32) -> i1|  \"llvm.return\"(%2) : (i1) -> () => (%0: \
    i32):|  %1 = \"llvm.mlir.constant\"() <{value = -3 : i32}> : () -> i32|  %3 = \"llvm.mlir.constant\"() <{value = \
    -2 : i32}> : () -> i32|  %4 = \"llvm.icmp\"(%0, %3) <{predicate = 6 : i64}> : (i32, i32) -> i1|  %2 = \
    \"llvm.icmp\"(%0, %1) <{predicate = 7 : i64}> : (i32, i32) -> i1|  \"llvm.return\"(%4) : (i1) -> ()
icmp uge i32 x 9 -- (%0: i32):|  %1 = \"llvm.mlir.constant\"() <{value = 9 : i32}> : () -> i32|  %2 = \
    \"llvm.icmp\"(%0, %1) <{predicate = 9 : i64}> : (i32, i32) -> i1|  \"llvm.return\"(%2) : (i1) -> () => (%0: \
    i32):|  %1 = \"llvm.mlir.constant\"() <{value = 9 : i32}> : () -> i32|  %3 = \"llvm.mlir.constant\"() <{value = 8 \
    : i32}> : () -> i32|  %4 = \"llvm.icmp\"(%0, %3) <{predicate = 8 : i64}> : (i32, i32) -> i1|  %2 = \
    \"llvm.icmp\"(%0, %1) <{predicate = 9 : i64}> : (i32, i32) -> i1|  \"llvm.return\"(%4) : (i1) -> ()
icmp uge i32 x -3 -- (%0: i32):|  %1 = \"llvm.mlir.constant\"() <{value = -3 : i32}> : () -> i32|  %2 = \
    \"llvm.icmp\"(%0, %1) <{predicate = 9 : i64}> : (i32, i32) -> i1|  \"llvm.return\"(%2) : (i1) -> () => (%0: \
    i32):|  %1 = \"llvm.mlir.constant\"() <{value = -3 : i32}> : () -> i32|  %3 = \"llvm.mlir.constant\"() <{value = \
    -4 : i32}> : () -> i32|  %4 = \"llvm.icmp\"(%0, %3) <{predicate = 8 : i64}> : (i32, i32) -> i1|  %2 = \
    \"llvm.icmp\"(%0, %1) <{predicate = 9 : i64}> : (i32, i32) -> i1|  \"llvm.return\"(%4) : (i1) -> ()
icmp eq i32 5 x -- (%0: i32):|  %1 = \"llvm.mlir.constant\"() <{value = 5 : i32}> : () -> i32|  %2 = \
    \"llvm.icmp\"(%1, %0) <{predicate = 0 : i64}> : (i32, i32) -> i1|  \"llvm.return\"(%2) : (i1) -> () => (%0: \
    i32):|  %1 = \"llvm.mlir.constant\"() <{value = 5 : i32}> : () -> i32|  %3 = \"llvm.icmp\"(%0, %1) <{predicate = \
    0 : i64}> : (i32, i32) -> i1|  %2 = \"llvm.icmp\"(%1, %0) <{predicate = 0 : i64}> : (i32, i32) -> i1|  \
    \"llvm.return\"(%3) : (i1) -> ()
icmp ne i32 5 x -- (%0: i32):|  %1 = \"llvm.mlir.constant\"() <{value = 5 : i32}> : () -> i32|  %2 = \
    \"llvm.icmp\"(%1, %0) <{predicate = 1 : i64}> : (i32, i32) -> i1|  \"llvm.return\"(%2) : (i1) -> () => (%0: \
    i32):|  %1 = \"llvm.mlir.constant\"() <{value = 5 : i32}> : () -> i32|  %3 = \"llvm.icmp\"(%0, %1) <{predicate = \
    1 : i64}> : (i32, i32) -> i1|  %2 = \"llvm.icmp\"(%1, %0) <{predicate = 1 : i64}> : (i32, i32) -> i1|  \
    \"llvm.return\"(%3) : (i1) -> ()
icmp slt i32 5 x -- (%0: i32):|  %1 = \"llvm.mlir.constant\"() <{value = 5 : i32}> : () -> i32|  %2 = \
    \"llvm.icmp\"(%1, %0) <{predicate = 2 : i64}> : (i32, i32) -> i1|  \"llvm.return\"(%2) : (i1) -> () => (%0: \
    i32):|  %1 = \"llvm.mlir.constant\"() <{value = 5 : i32}> : () -> i32|  %3 = \"llvm.icmp\"(%0, %1) <{predicate = \
    4 : i64}> : (i32, i32) -> i1|  %2 = \"llvm.icmp\"(%1, %0) <{predicate = 2 : i64}> : (i32, i32) -> i1|  \
    \"llvm.return\"(%3) : (i1) -> ()
icmp sgt i32 5 x -- (%0: i32):|  %1 = \"llvm.mlir.constant\"() <{value = 5 : i32}> : () -> i32|  %2 = \
    \"llvm.icmp\"(%1, %0) <{predicate = 4 : i64}> : (i32, i32) -> i1|  \"llvm.return\"(%2) : (i1) -> () => (%0: \
    i32):|  %1 = \"llvm.mlir.constant\"() <{value = 5 : i32}> : () -> i32|  %3 = \"llvm.icmp\"(%0, %1) <{predicate = \
    2 : i64}> : (i32, i32) -> i1|  %2 = \"llvm.icmp\"(%1, %0) <{predicate = 4 : i64}> : (i32, i32) -> i1|  \
    \"llvm.return\"(%3) : (i1) -> ()
icmp ult i32 5 x -- (%0: i32):|  %1 = \"llvm.mlir.constant\"() <{value = 5 : i32}> : () -> i32|  %2 = \
    \"llvm.icmp\"(%1, %0) <{predicate = 6 : i64}> : (i32, i32) -> i1|  \"llvm.return\"(%2) : (i1) -> () => (%0: \
    i32):|  %1 = \"llvm.mlir.constant\"() <{value = 5 : i32}> : () -> i32|  %3 = \"llvm.icmp\"(%0, %1) <{predicate = \
    8 : i64}> : (i32, i32) -> i1|  %2 = \"llvm.icmp\"(%1, %0) <{predicate = 6 : i64}> : (i32, i32) -> i1|  \
    \"llvm.return\"(%3) : (i1) -> ()
icmp ugt i32 5 x -- (%0: i32):|  %1 = \"llvm.mlir.constant\"() <{value = 5 : i32}> : () -> i32|  %2 = \
    \"llvm.icmp\"(%1, %0) <{predicate = 8 : i64}> : (i32, i32) -> i1|  \"llvm.return\"(%2) : (i1) -> () => (%0: \
    i32):|  %1 = \"llvm.mlir.constant\"() <{value = 5 : i32}> : () -> i32|  %3 = \"llvm.icmp\"(%0, %1) <{predicate = \
    6 : i64}> : (i32, i32) -> i1|  %2 = \"llvm.icmp\"(%1, %0) <{predicate = 8 : i64}> : (i32, i32) -> i1|  \
    \"llvm.return\"(%3) : (i1) -> ()
add i32 5 x -- (%0: i32):|  %1 = \"llvm.mlir.constant\"() <{value = 5 : i32}> : () -> i32|  %2 = \"llvm.add\"(%1, %0) \
    : (i32, i32) -> i32|  \"llvm.return\"(%2) : (i32) -> () => (%0: i32):|  %1 = \"llvm.mlir.constant\"() <{value = 5 \
    : i32}> : () -> i32|  %3 = \"llvm.add\"(%0, %1) : (i32, i32) -> i32|  %2 = \"llvm.add\"(%1, %0) : (i32, i32) -> \
    i32|  \"llvm.return\"(%3) : (i32) -> ()
add nsw i32 5 x -- (%0: i32):|  %1 = \"llvm.mlir.constant\"() <{value = 5 : i32}> : () -> i32|  %2 = \"llvm.add\"(%1, \
    %0) <{overflowFlags = #llvm.overflow<nsw>}> : (i32, i32) -> i32|  \"llvm.return\"(%2) : (i32) -> () => (%0: \
    i32):|  %1 = \"llvm.mlir.constant\"() <{value = 5 : i32}> : () -> i32|  %3 = \"llvm.add\"(%0, %1) <{overflowFlags \
    = #llvm.overflow<nsw>}> : (i32, i32) -> i32|  %2 = \"llvm.add\"(%1, %0) <{overflowFlags = #llvm.overflow<nsw>}> : \
    (i32, i32) -> i32|  \"llvm.return\"(%3) : (i32) -> ()
add nuw i32 5 x -- (%0: i32):|  %1 = \"llvm.mlir.constant\"() <{value = 5 : i32}> : () -> i32|  %2 = \"llvm.add\"(%1, \
    %0) <{overflowFlags = #llvm.overflow<nuw>}> : (i32, i32) -> i32|  \"llvm.return\"(%2) : (i32) -> () => (%0: \
    i32):|  %1 = \"llvm.mlir.constant\"() <{value = 5 : i32}> : () -> i32|  %3 = \"llvm.add\"(%0, %1) <{overflowFlags \
    = #llvm.overflow<nuw>}> : (i32, i32) -> i32|  %2 = \"llvm.add\"(%1, %0) <{overflowFlags = #llvm.overflow<nuw>}> : \
    (i32, i32) -> i32|  \"llvm.return\"(%3) : (i32) -> ()
mul i32 5 x -- (%0: i32):|  %1 = \"llvm.mlir.constant\"() <{value = 5 : i32}> : () -> i32|  %2 = \"llvm.mul\"(%1, %0) \
    : (i32, i32) -> i32|  \"llvm.return\"(%2) : (i32) -> () => (%0: i32):|  %1 = \"llvm.mlir.constant\"() <{value = 5 \
    : i32}> : () -> i32|  %3 = \"llvm.mul\"(%0, %1) : (i32, i32) -> i32|  %2 = \"llvm.mul\"(%1, %0) : (i32, i32) -> \
    i32|  \"llvm.return\"(%3) : (i32) -> ()
mul nuw nsw i32 5 x -- (%0: i32):|  %1 = \"llvm.mlir.constant\"() <{value = 5 : i32}> : () -> i32|  %2 = \
    \"llvm.mul\"(%1, %0) <{overflowFlags = #llvm.overflow<nsw, nuw>}> : (i32, i32) -> i32|  \"llvm.return\"(%2) : \
    (i32) -> () => (%0: i32):|  %1 = \"llvm.mlir.constant\"() <{value = 5 : i32}> : () -> i32|  %3 = \"llvm.mul\"(%0, \
    %1) <{overflowFlags = #llvm.overflow<nsw, nuw>}> : (i32, i32) -> i32|  %2 = \"llvm.mul\"(%1, %0) <{overflowFlags \
    = #llvm.overflow<nsw, nuw>}> : (i32, i32) -> i32|  \"llvm.return\"(%3) : (i32) -> ()
and i32 5 x -- (%0: i32):|  %1 = \"llvm.mlir.constant\"() <{value = 5 : i32}> : () -> i32|  %2 = \"llvm.and\"(%1, %0) \
    : (i32, i32) -> i32|  \"llvm.return\"(%2) : (i32) -> () => (%0: i32):|  %1 = \"llvm.mlir.constant\"() <{value = 5 \
    : i32}> : () -> i32|  %3 = \"llvm.and\"(%0, %1) : (i32, i32) -> i32|  %2 = \"llvm.and\"(%1, %0) : (i32, i32) -> \
    i32|  \"llvm.return\"(%3) : (i32) -> ()
or i32 5 x -- (%0: i32):|  %1 = \"llvm.mlir.constant\"() <{value = 5 : i32}> : () -> i32|  %2 = \"llvm.or\"(%1, %0) : \
    (i32, i32) -> i32|  \"llvm.return\"(%2) : (i32) -> () => (%0: i32):|  %1 = \"llvm.mlir.constant\"() <{value = 5 : \
    i32}> : () -> i32|  %3 = \"llvm.or\"(%0, %1) : (i32, i32) -> i32|  %2 = \"llvm.or\"(%1, %0) : (i32, i32) -> i32|  \
    \"llvm.return\"(%3) : (i32) -> ()
or disjoint i32 5 x -- (%0: i32):|  %1 = \"llvm.mlir.constant\"() <{value = 5 : i32}> : () -> i32|  %2 = \
    \"llvm.or\"(%1, %0) <{isDisjoint}> : (i32, i32) -> i32|  \"llvm.return\"(%2) : (i32) -> () => (%0: i32):|  %1 = \
    \"llvm.mlir.constant\"() <{value = 5 : i32}> : () -> i32|  %3 = \"llvm.or\"(%0, %1) <{isDisjoint}> : (i32, i32) \
    -> i32|  %2 = \"llvm.or\"(%1, %0) <{isDisjoint}> : (i32, i32) -> i32|  \"llvm.return\"(%3) : (i32) -> ()
xor i32 5 x -- (%0: i32):|  %1 = \"llvm.mlir.constant\"() <{value = 5 : i32}> : () -> i32|  %2 = \"llvm.xor\"(%1, %0) \
    : (i32, i32) -> i32|  \"llvm.return\"(%2) : (i32) -> () => (%0: i32):|  %1 = \"llvm.mlir.constant\"() <{value = 5 \
    : i32}> : () -> i32|  %3 = \"llvm.xor\"(%0, %1) : (i32, i32) -> i32|  %2 = \"llvm.xor\"(%1, %0) : (i32, i32) -> \
    i32|  \"llvm.return\"(%3) : (i32) -> ()
mul i32 x 2 -- (%0: i32):|  %1 = \"llvm.mlir.constant\"() <{value = 2 : i32}> : () -> i32|  %2 = \"llvm.mul\"(%0, %1) \
    : (i32, i32) -> i32|  \"llvm.return\"(%2) : (i32) -> () => (%0: i32):|  %1 = \"llvm.mlir.constant\"() <{value = 2 \
    : i32}> : () -> i32|  %3 = \"llvm.mlir.constant\"() <{value = 1 : i32}> : () -> i32|  %4 = \"llvm.shl\"(%0, %3) : \
    (i32, i32) -> i32|  %2 = \"llvm.mul\"(%0, %1) : (i32, i32) -> i32|  \"llvm.return\"(%4) : (i32) -> ()
mul i32 x 16 -- (%0: i32):|  %1 = \"llvm.mlir.constant\"() <{value = 16 : i32}> : () -> i32|  %2 = \"llvm.mul\"(%0, \
    %1) : (i32, i32) -> i32|  \"llvm.return\"(%2) : (i32) -> () => (%0: i32):|  %1 = \"llvm.mlir.constant\"() <{value \
    = 16 : i32}> : () -> i32|  %3 = \"llvm.mlir.constant\"() <{value = 4 : i32}> : () -> i32|  %4 = \"llvm.shl\"(%0, \
    %3) : (i32, i32) -> i32|  %2 = \"llvm.mul\"(%0, %1) : (i32, i32) -> i32|  \"llvm.return\"(%4) : (i32) -> ()
mul nsw i32 x 2 -- (%0: i32):|  %1 = \"llvm.mlir.constant\"() <{value = 2 : i32}> : () -> i32|  %2 = \"llvm.mul\"(%0, \
    %1) <{overflowFlags = #llvm.overflow<nsw>}> : (i32, i32) -> i32|  \"llvm.return\"(%2) : (i32) -> () => (%0: \
    i32):|  %1 = \"llvm.mlir.constant\"() <{value = 2 : i32}> : () -> i32|  %3 = \"llvm.mlir.constant\"() <{value = 1 \
    : i32}> : () -> i32|  %4 = \"llvm.shl\"(%0, %3) <{overflowFlags = #llvm.overflow<nsw>}> : (i32, i32) -> i32|  %2 \
    = \"llvm.mul\"(%0, %1) <{overflowFlags = #llvm.overflow<nsw>}> : (i32, i32) -> i32|  \"llvm.return\"(%4) : (i32) \
    -> ()
mul nsw i32 x 16 -- (%0: i32):|  %1 = \"llvm.mlir.constant\"() <{value = 16 : i32}> : () -> i32|  %2 = \
    \"llvm.mul\"(%0, %1) <{overflowFlags = #llvm.overflow<nsw>}> : (i32, i32) -> i32|  \"llvm.return\"(%2) : (i32) -> \
    () => (%0: i32):|  %1 = \"llvm.mlir.constant\"() <{value = 16 : i32}> : () -> i32|  %3 = \"llvm.mlir.constant\"() \
    <{value = 4 : i32}> : () -> i32|  %4 = \"llvm.shl\"(%0, %3) <{overflowFlags = #llvm.overflow<nsw>}> : (i32, i32) \
    -> i32|  %2 = \"llvm.mul\"(%0, %1) <{overflowFlags = #llvm.overflow<nsw>}> : (i32, i32) -> i32|  \
    \"llvm.return\"(%4) : (i32) -> ()
mul nuw i32 x 2 -- (%0: i32):|  %1 = \"llvm.mlir.constant\"() <{value = 2 : i32}> : () -> i32|  %2 = \"llvm.mul\"(%0, \
    %1) <{overflowFlags = #llvm.overflow<nuw>}> : (i32, i32) -> i32|  \"llvm.return\"(%2) : (i32) -> () => (%0: \
    i32):|  %1 = \"llvm.mlir.constant\"() <{value = 2 : i32}> : () -> i32|  %3 = \"llvm.mlir.constant\"() <{value = 1 \
    : i32}> : () -> i32|  %4 = \"llvm.shl\"(%0, %3) <{overflowFlags = #llvm.overflow<nuw>}> : (i32, i32) -> i32|  %2 \
    = \"llvm.mul\"(%0, %1) <{overflowFlags = #llvm.overflow<nuw>}> : (i32, i32) -> i32|  \"llvm.return\"(%4) : (i32) \
    -> ()
mul nuw i32 x 16 -- (%0: i32):|  %1 = \"llvm.mlir.constant\"() <{value = 16 : i32}> : () -> i32|  %2 = \
    \"llvm.mul\"(%0, %1) <{overflowFlags = #llvm.overflow<nuw>}> : (i32, i32) -> i32|  \"llvm.return\"(%2) : (i32) -> \
    () => (%0: i32):|  %1 = \"llvm.mlir.constant\"() <{value = 16 : i32}> : () -> i32|  %3 = \"llvm.mlir.constant\"() \
    <{value = 4 : i32}> : () -> i32|  %4 = \"llvm.shl\"(%0, %3) <{overflowFlags = #llvm.overflow<nuw>}> : (i32, i32) \
    -> i32|  %2 = \"llvm.mul\"(%0, %1) <{overflowFlags = #llvm.overflow<nuw>}> : (i32, i32) -> i32|  \
    \"llvm.return\"(%4) : (i32) -> ()
mul nuw nsw i32 x 2 -- (%0: i32):|  %1 = \"llvm.mlir.constant\"() <{value = 2 : i32}> : () -> i32|  %2 = \
    \"llvm.mul\"(%0, %1) <{overflowFlags = #llvm.overflow<nsw, nuw>}> : (i32, i32) -> i32|  \"llvm.return\"(%2) : \
    (i32) -> () => (%0: i32):|  %1 = \"llvm.mlir.constant\"() <{value = 2 : i32}> : () -> i32|  %3 = \
    \"llvm.mlir.constant\"() <{value = 1 : i32}> : () -> i32|  %4 = \"llvm.shl\"(%0, %3) <{overflowFlags = \
    #llvm.overflow<nsw, nuw>}> : (i32, i32) -> i32|  %2 = \"llvm.mul\"(%0, %1) <{overflowFlags = #llvm.overflow<nsw, \
    nuw>}> : (i32, i32) -> i32|  \"llvm.return\"(%4) : (i32) -> ()
mul nuw nsw i32 x 16 -- (%0: i32):|  %1 = \"llvm.mlir.constant\"() <{value = 16 : i32}> : () -> i32|  %2 = \
    \"llvm.mul\"(%0, %1) <{overflowFlags = #llvm.overflow<nsw, nuw>}> : (i32, i32) -> i32|  \"llvm.return\"(%2) : \
    (i32) -> () => (%0: i32):|  %1 = \"llvm.mlir.constant\"() <{value = 16 : i32}> : () -> i32|  %3 = \
    \"llvm.mlir.constant\"() <{value = 4 : i32}> : () -> i32|  %4 = \"llvm.shl\"(%0, %3) <{overflowFlags = \
    #llvm.overflow<nsw, nuw>}> : (i32, i32) -> i32|  %2 = \"llvm.mul\"(%0, %1) <{overflowFlags = #llvm.overflow<nsw, \
    nuw>}> : (i32, i32) -> i32|  \"llvm.return\"(%4) : (i32) -> ()
udiv i32 x 2 -- (%0: i32):|  %1 = \"llvm.mlir.constant\"() <{value = 2 : i32}> : () -> i32|  %2 = \"llvm.udiv\"(%0, \
    %1) : (i32, i32) -> i32|  \"llvm.return\"(%2) : (i32) -> () => (%0: i32):|  %1 = \"llvm.mlir.constant\"() <{value \
    = 2 : i32}> : () -> i32|  %3 = \"llvm.mlir.constant\"() <{value = 1 : i32}> : () -> i32|  %4 = \"llvm.lshr\"(%0, \
    %3) : (i32, i32) -> i32|  %2 = \"llvm.udiv\"(%0, %1) : (i32, i32) -> i32|  \"llvm.return\"(%4) : (i32) -> ()
udiv i32 x 16 -- (%0: i32):|  %1 = \"llvm.mlir.constant\"() <{value = 16 : i32}> : () -> i32|  %2 = \"llvm.udiv\"(%0, \
    %1) : (i32, i32) -> i32|  \"llvm.return\"(%2) : (i32) -> () => (%0: i32):|  %1 = \"llvm.mlir.constant\"() <{value \
    = 16 : i32}> : () -> i32|  %3 = \"llvm.mlir.constant\"() <{value = 4 : i32}> : () -> i32|  %4 = \"llvm.lshr\"(%0, \
    %3) : (i32, i32) -> i32|  %2 = \"llvm.udiv\"(%0, %1) : (i32, i32) -> i32|  \"llvm.return\"(%4) : (i32) -> ()
udiv exact i32 x 2 -- (%0: i32):|  %1 = \"llvm.mlir.constant\"() <{value = 2 : i32}> : () -> i32|  %2 = \
    \"llvm.udiv\"(%0, %1) <{isExact}> : (i32, i32) -> i32|  \"llvm.return\"(%2) : (i32) -> () => (%0: i32):|  %1 = \
    \"llvm.mlir.constant\"() <{value = 2 : i32}> : () -> i32|  %3 = \"llvm.mlir.constant\"() <{value = 1 : i32}> : () \
    -> i32|  %4 = \"llvm.lshr\"(%0, %3) <{isExact}> : (i32, i32) -> i32|  %2 = \"llvm.udiv\"(%0, %1) <{isExact}> : \
    (i32, i32) -> i32|  \"llvm.return\"(%4) : (i32) -> ()
udiv exact i32 x 16 -- (%0: i32):|  %1 = \"llvm.mlir.constant\"() <{value = 16 : i32}> : () -> i32|  %2 = \
    \"llvm.udiv\"(%0, %1) <{isExact}> : (i32, i32) -> i32|  \"llvm.return\"(%2) : (i32) -> () => (%0: i32):|  %1 = \
    \"llvm.mlir.constant\"() <{value = 16 : i32}> : () -> i32|  %3 = \"llvm.mlir.constant\"() <{value = 4 : i32}> : \
    () -> i32|  %4 = \"llvm.lshr\"(%0, %3) <{isExact}> : (i32, i32) -> i32|  %2 = \"llvm.udiv\"(%0, %1) <{isExact}> : \
    (i32, i32) -> i32|  \"llvm.return\"(%4) : (i32) -> ()
urem i32 x 2 -- (%0: i32):|  %1 = \"llvm.mlir.constant\"() <{value = 2 : i32}> : () -> i32|  %2 = \"llvm.urem\"(%0, \
    %1) : (i32, i32) -> i32|  \"llvm.return\"(%2) : (i32) -> () => (%0: i32):|  %1 = \"llvm.mlir.constant\"() <{value \
    = 2 : i32}> : () -> i32|  %3 = \"llvm.mlir.constant\"() <{value = 1 : i32}> : () -> i32|  %4 = \"llvm.and\"(%0, \
    %3) : (i32, i32) -> i32|  %2 = \"llvm.urem\"(%0, %1) : (i32, i32) -> i32|  \"llvm.return\"(%4) : (i32) -> ()
urem i32 x 16 -- (%0: i32):|  %1 = \"llvm.mlir.constant\"() <{value = 16 : i32}> : () -> i32|  %2 = \"llvm.urem\"(%0, \
    %1) : (i32, i32) -> i32|  \"llvm.return\"(%2) : (i32) -> () => (%0: i32):|  %1 = \"llvm.mlir.constant\"() <{value \
    = 16 : i32}> : () -> i32|  %3 = \"llvm.mlir.constant\"() <{value = 15 : i32}> : () -> i32|  %4 = \"llvm.and\"(%0, \
    %3) : (i32, i32) -> i32|  %2 = \"llvm.urem\"(%0, %1) : (i32, i32) -> i32|  \"llvm.return\"(%4) : (i32) -> ()
icmp sle i64 x 9 -- (%0: i64):|  %1 = \"llvm.mlir.constant\"() <{value = 9 : i64}> : () -> i64|  %2 = \
    \"llvm.icmp\"(%0, %1) <{predicate = 3 : i64}> : (i64, i64) -> i1|  \"llvm.return\"(%2) : (i1) -> () => (%0: \
    i64):|  %1 = \"llvm.mlir.constant\"() <{value = 9 : i64}> : () -> i64|  %3 = \"llvm.mlir.constant\"() <{value = \
    10 : i64}> : () -> i64|  %4 = \"llvm.icmp\"(%0, %3) <{predicate = 2 : i64}> : (i64, i64) -> i1|  %2 = \
    \"llvm.icmp\"(%0, %1) <{predicate = 3 : i64}> : (i64, i64) -> i1|  \"llvm.return\"(%4) : (i1) -> ()
icmp sle i64 x -3 -- (%0: i64):|  %1 = \"llvm.mlir.constant\"() <{value = -3 : i64}> : () -> i64|  %2 = \
    \"llvm.icmp\"(%0, %1) <{predicate = 3 : i64}> : (i64, i64) -> i1|  \"llvm.return\"(%2) : (i1) -> () => (%0: \
    i64):|  %1 = \"llvm.mlir.constant\"() <{value = -3 : i64}> : () -> i64|  %3 = \"llvm.mlir.constant\"() <{value = \
    -2 : i64}> : () -> i64|  %4 = \"llvm.icmp\"(%0, %3) <{predicate = 2 : i64}> : (i64, i64) -> i1|  %2 = \
    \"llvm.icmp\"(%0, %1) <{predicate = 3 : i64}> : (i64, i64) -> i1|  \"llvm.return\"(%4) : (i1) -> ()
icmp sge i64 x 9 -- (%0: i64):|  %1 = \"llvm.mlir.constant\"() <{value = 9 : i64}> : () -> i64|  %2 = \
    \"llvm.icmp\"(%0, %1) <{predicate = 5 : i64}> : (i64, i64) -> i1|  \"llvm.return\"(%2) : (i1) -> () => (%0: \
    i64):|  %1 = \"llvm.mlir.constant\"() <{value = 9 : i64}> : () -> i64|  %3 = \"llvm.mlir.constant\"() <{value = 8 \
    : i64}> : () -> i64|  %4 = \"llvm.icmp\"(%0, %3) <{predicate = 4 : i64}> : (i64, i64) -> i1|  %2 = \
    \"llvm.icmp\"(%0, %1) <{predicate = 5 : i64}> : (i64, i64) -> i1|  \"llvm.return\"(%4) : (i1) -> ()
icmp sge i64 x -3 -- (%0: i64):|  %1 = \"llvm.mlir.constant\"() <{value = -3 : i64}> : () -> i64|  %2 = \
    \"llvm.icmp\"(%0, %1) <{predicate = 5 : i64}> : (i64, i64) -> i1|  \"llvm.return\"(%2) : (i1) -> () => (%0: \
    i64):|  %1 = \"llvm.mlir.constant\"() <{value = -3 : i64}> : () -> i64|  %3 = \"llvm.mlir.constant\"() <{value = \
    -4 : i64}> : () -> i64|  %4 = \"llvm.icmp\"(%0, %3) <{predicate = 4 : i64}> : (i64, i64) -> i1|  %2 = \
    \"llvm.icmp\"(%0, %1) <{predicate = 5 : i64}> : (i64, i64) -> i1|  \"llvm.return\"(%4) : (i1) -> ()
icmp ule i64 x 9 -- (%0: i64):|  %1 = \"llvm.mlir.constant\"() <{value = 9 : i64}> : () -> i64|  %2 = \
    \"llvm.icmp\"(%0, %1) <{predicate = 7 : i64}> : (i64, i64) -> i1|  \"llvm.return\"(%2) : (i1) -> () => (%0: \
    i64):|  %1 = \"llvm.mlir.constant\"() <{value = 9 : i64}> : () -> i64|  %3 = \"llvm.mlir.constant\"() <{value = \
    10 : i64}> : () -> i64|  %4 = \"llvm.icmp\"(%0, %3) <{predicate = 6 : i64}> : (i64, i64) -> i1|  %2 = \
    \"llvm.icmp\"(%0, %1) <{predicate = 7 : i64}> : (i64, i64) -> i1|  \"llvm.return\"(%4) : (i1) -> ()
icmp ule i64 x -3 -- (%0: i64):|  %1 = \"llvm.mlir.constant\"() <{value = -3 : i64}> : () -> i64|  %2 = \
    \"llvm.icmp\"(%0, %1) <{predicate = 7 : i64}> : (i64, i64) -> i1|  \"llvm.return\"(%2) : (i1) -> () => (%0: \
    i64):|  %1 = \"llvm.mlir.constant\"() <{value = -3 : i64}> : () -> i64|  %3 = \"llvm.mlir.constant\"() <{value = \
    -2 : i64}> : () -> i64|  %4 = \"llvm.icmp\"(%0, %3) <{predicate = 6 : i64}> : (i64, i64) -> i1|  %2 = \
    \"llvm.icmp\"(%0, %1) <{predicate = 7 : i64}> : (i64, i64) -> i1|  \"llvm.return\"(%4) : (i1) -> ()
icmp uge i64 x 9 -- (%0: i64):|  %1 = \"llvm.mlir.constant\"() <{value = 9 : i64}> : () -> i64|  %2 = \
    \"llvm.icmp\"(%0, %1) <{predicate = 9 : i64}> : (i64, i64) -> i1|  \"llvm.return\"(%2) : (i1) -> () => (%0: \
    i64):|  %1 = \"llvm.mlir.constant\"() <{value = 9 : i64}> : () -> i64|  %3 = \"llvm.mlir.constant\"() <{value = 8 \
    : i64}> : () -> i64|  %4 = \"llvm.icmp\"(%0, %3) <{predicate = 8 : i64}> : (i64, i64) -> i1|  %2 = \
    \"llvm.icmp\"(%0, %1) <{predicate = 9 : i64}> : (i64, i64) -> i1|  \"llvm.return\"(%4) : (i1) -> ()
icmp uge i64 x -3 -- (%0: i64):|  %1 = \"llvm.mlir.constant\"() <{value = -3 : i64}> : () -> i64|  %2 = \
    \"llvm.icmp\"(%0, %1) <{predicate = 9 : i64}> : (i64, i64) -> i1|  \"llvm.return\"(%2) : (i1) -> () => (%0: \
    i64):|  %1 = \"llvm.mlir.constant\"() <{value = -3 : i64}> : () -> i64|  %3 = \"llvm.mlir.constant\"() <{value = \
    -4 : i64}> : () -> i64|  %4 = \"llvm.icmp\"(%0, %3) <{predicate = 8 : i64}> : (i64, i64) -> i1|  %2 = \
    \"llvm.icmp\"(%0, %1) <{predicate = 9 : i64}> : (i64, i64) -> i1|  \"llvm.return\"(%4) : (i1) -> ()
icmp eq i64 5 x -- (%0: i64):|  %1 = \"llvm.mlir.constant\"() <{value = 5 : i64}> : () -> i64|  %2 = \
    \"llvm.icmp\"(%1, %0) <{predicate = 0 : i64}> : (i64, i64) -> i1|  \"llvm.return\"(%2) : (i1) -> () => (%0: \
    i64):|  %1 = \"llvm.mlir.constant\"() <{value = 5 : i64}> : () -> i64|  %3 = \"llvm.icmp\"(%0, %1) <{predicate = \
    0 : i64}> : (i64, i64) -> i1|  %2 = \"llvm.icmp\"(%1, %0) <{predicate = 0 : i64}> : (i64, i64) -> i1|  \
    \"llvm.return\"(%3) : (i1) -> ()
icmp ne i64 5 x -- (%0: i64):|  %1 = \"llvm.mlir.constant\"() <{value = 5 : i64}> : () -> i64|  %2 = \
    \"llvm.icmp\"(%1, %0) <{predicate = 1 : i64}> : (i64, i64) -> i1|  \"llvm.return\"(%2) : (i1) -> () => (%0: \
    i64):|  %1 = \"llvm.mlir.constant\"() <{value = 5 : i64}> : () -> i64|  %3 = \"llvm.icmp\"(%0, %1) <{predicate = \
    1 : i64}> : (i64, i64) -> i1|  %2 = \"llvm.icmp\"(%1, %0) <{predicate = 1 : i64}> : (i64, i64) -> i1|  \
    \"llvm.return\"(%3) : (i1) -> ()
icmp slt i64 5 x -- (%0: i64):|  %1 = \"llvm.mlir.constant\"() <{value = 5 : i64}> : () -> i64|  %2 = \
    \"llvm.icmp\"(%1, %0) <{predicate = 2 : i64}> : (i64, i64) -> i1|  \"llvm.return\"(%2) : (i1) -> () => (%0: \
    i64):|  %1 = \"llvm.mlir.constant\"() <{value = 5 : i64}> : () -> i64|  %3 = \"llvm.icmp\"(%0, %1) <{predicate = \
    4 : i64}> : (i64, i64) -> i1|  %2 = \"llvm.icmp\"(%1, %0) <{predicate = 2 : i64}> : (i64, i64) -> i1|  \
    \"llvm.return\"(%3) : (i1) -> ()
icmp sgt i64 5 x -- (%0: i64):|  %1 = \"llvm.mlir.constant\"() <{value = 5 : i64}> : () -> i64|  %2 = \
    \"llvm.icmp\"(%1, %0) <{predicate = 4 : i64}> : (i64, i64) -> i1|  \"llvm.return\"(%2) : (i1) -> () => (%0: \
    i64):|  %1 = \"llvm.mlir.constant\"() <{value = 5 : i64}> : () -> i64|  %3 = \"llvm.icmp\"(%0, %1) <{predicate = \
    2 : i64}> : (i64, i64) -> i1|  %2 = \"llvm.icmp\"(%1, %0) <{predicate = 4 : i64}> : (i64, i64) -> i1|  \
    \"llvm.return\"(%3) : (i1) -> ()
icmp ult i64 5 x -- (%0: i64):|  %1 = \"llvm.mlir.constant\"() <{value = 5 : i64}> : () -> i64|  %2 = \
    \"llvm.icmp\"(%1, %0) <{predicate = 6 : i64}> : (i64, i64) -> i1|  \"llvm.return\"(%2) : (i1) -> () => (%0: \
    i64):|  %1 = \"llvm.mlir.constant\"() <{value = 5 : i64}> : () -> i64|  %3 = \"llvm.icmp\"(%0, %1) <{predicate = \
    8 : i64}> : (i64, i64) -> i1|  %2 = \"llvm.icmp\"(%1, %0) <{predicate = 6 : i64}> : (i64, i64) -> i1|  \
    \"llvm.return\"(%3) : (i1) -> ()
icmp ugt i64 5 x -- (%0: i64):|  %1 = \"llvm.mlir.constant\"() <{value = 5 : i64}> : () -> i64|  %2 = \
    \"llvm.icmp\"(%1, %0) <{predicate = 8 : i64}> : (i64, i64) -> i1|  \"llvm.return\"(%2) : (i1) -> () => (%0: \
    i64):|  %1 = \"llvm.mlir.constant\"() <{value = 5 : i64}> : () -> i64|  %3 = \"llvm.icmp\"(%0, %1) <{predicate = \
    6 : i64}> : (i64, i64) -> i1|  %2 = \"llvm.icmp\"(%1, %0) <{predicate = 8 : i64}> : (i64, i64) -> i1|  \
    \"llvm.return\"(%3) : (i1) -> ()
add i64 5 x -- (%0: i64):|  %1 = \"llvm.mlir.constant\"() <{value = 5 : i64}> : () -> i64|  %2 = \"llvm.add\"(%1, %0) \
    : (i64, i64) -> i64|  \"llvm.return\"(%2) : (i64) -> () => (%0: i64):|  %1 = \"llvm.mlir.constant\"() <{value = 5 \
    : i64}> : () -> i64|  %3 = \"llvm.add\"(%0, %1) : (i64, i64) -> i64|  %2 = \"llvm.add\"(%1, %0) : (i64, i64) -> \
    i64|  \"llvm.return\"(%3) : (i64) -> ()
add nsw i64 5 x -- (%0: i64):|  %1 = \"llvm.mlir.constant\"() <{value = 5 : i64}> : () -> i64|  %2 = \"llvm.add\"(%1, \
    %0) <{overflowFlags = #llvm.overflow<nsw>}> : (i64, i64) -> i64|  \"llvm.return\"(%2) : (i64) -> () => (%0: \
    i64):|  %1 = \"llvm.mlir.constant\"() <{value = 5 : i64}> : () -> i64|  %3 = \"llvm.add\"(%0, %1) <{overflowFlags \
    = #llvm.overflow<nsw>}> : (i64, i64) -> i64|  %2 = \"llvm.add\"(%1, %0) <{overflowFlags = #llvm.overflow<nsw>}> : \
    (i64, i64) -> i64|  \"llvm.return\"(%3) : (i64) -> ()
add nuw i64 5 x -- (%0: i64):|  %1 = \"llvm.mlir.constant\"() <{value = 5 : i64}> : () -> i64|  %2 = \"llvm.add\"(%1, \
    %0) <{overflowFlags = #llvm.overflow<nuw>}> : (i64, i64) -> i64|  \"llvm.return\"(%2) : (i64) -> () => (%0: \
    i64):|  %1 = \"llvm.mlir.constant\"() <{value = 5 : i64}> : () -> i64|  %3 = \"llvm.add\"(%0, %1) <{overflowFlags \
    = #llvm.overflow<nuw>}> : (i64, i64) -> i64|  %2 = \"llvm.add\"(%1, %0) <{overflowFlags = #llvm.overflow<nuw>}> : \
    (i64, i64) -> i64|  \"llvm.return\"(%3) : (i64) -> ()
mul i64 5 x -- (%0: i64):|  %1 = \"llvm.mlir.constant\"() <{value = 5 : i64}> : () -> i64|  %2 = \"llvm.mul\"(%1, %0) \
    : (i64, i64) -> i64|  \"llvm.return\"(%2) : (i64) -> () => (%0: i64):|  %1 = \"llvm.mlir.constant\"() <{value = 5 \
    : i64}> : () -> i64|  %3 = \"llvm.mul\"(%0, %1) : (i64, i64) -> i64|  %2 = \"llvm.mul\"(%1, %0) : (i64, i64) -> \
    i64|  \"llvm.return\"(%3) : (i64) -> ()
mul nuw nsw i64 5 x -- (%0: i64):|  %1 = \"llvm.mlir.constant\"() <{value = 5 : i64}> : () -> i64|  %2 = \
    \"llvm.mul\"(%1, %0) <{overflowFlags = #llvm.overflow<nsw, nuw>}> : (i64, i64) -> i64|  \"llvm.return\"(%2) : \
    (i64) -> () => (%0: i64):|  %1 = \"llvm.mlir.constant\"() <{value = 5 : i64}> : () -> i64|  %3 = \"llvm.mul\"(%0, \
    %1) <{overflowFlags = #llvm.overflow<nsw, nuw>}> : (i64, i64) -> i64|  %2 = \"llvm.mul\"(%1, %0) <{overflowFlags \
    = #llvm.overflow<nsw, nuw>}> : (i64, i64) -> i64|  \"llvm.return\"(%3) : (i64) -> ()
and i64 5 x -- (%0: i64):|  %1 = \"llvm.mlir.constant\"() <{value = 5 : i64}> : () -> i64|  %2 = \"llvm.and\"(%1, %0) \
    : (i64, i64) -> i64|  \"llvm.return\"(%2) : (i64) -> () => (%0: i64):|  %1 = \"llvm.mlir.constant\"() <{value = 5 \
    : i64}> : () -> i64|  %3 = \"llvm.and\"(%0, %1) : (i64, i64) -> i64|  %2 = \"llvm.and\"(%1, %0) : (i64, i64) -> \
    i64|  \"llvm.return\"(%3) : (i64) -> ()
or i64 5 x -- (%0: i64):|  %1 = \"llvm.mlir.constant\"() <{value = 5 : i64}> : () -> i64|  %2 = \"llvm.or\"(%1, %0) : \
    (i64, i64) -> i64|  \"llvm.return\"(%2) : (i64) -> () => (%0: i64):|  %1 = \"llvm.mlir.constant\"() <{value = 5 : \
    i64}> : () -> i64|  %3 = \"llvm.or\"(%0, %1) : (i64, i64) -> i64|  %2 = \"llvm.or\"(%1, %0) : (i64, i64) -> i64|  \
    \"llvm.return\"(%3) : (i64) -> ()
or disjoint i64 5 x -- (%0: i64):|  %1 = \"llvm.mlir.constant\"() <{value = 5 : i64}> : () -> i64|  %2 = \
    \"llvm.or\"(%1, %0) <{isDisjoint}> : (i64, i64) -> i64|  \"llvm.return\"(%2) : (i64) -> () => (%0: i64):|  %1 = \
    \"llvm.mlir.constant\"() <{value = 5 : i64}> : () -> i64|  %3 = \"llvm.or\"(%0, %1) <{isDisjoint}> : (i64, i64) \
    -> i64|  %2 = \"llvm.or\"(%1, %0) <{isDisjoint}> : (i64, i64) -> i64|  \"llvm.return\"(%3) : (i64) -> ()
xor i64 5 x -- (%0: i64):|  %1 = \"llvm.mlir.constant\"() <{value = 5 : i64}> : () -> i64|  %2 = \"llvm.xor\"(%1, %0) \
    : (i64, i64) -> i64|  \"llvm.return\"(%2) : (i64) -> () => (%0: i64):|  %1 = \"llvm.mlir.constant\"() <{value = 5 \
    : i64}> : () -> i64|  %3 = \"llvm.xor\"(%0, %1) : (i64, i64) -> i64|  %2 = \"llvm.xor\"(%1, %0) : (i64, i64) -> \
    i64|  \"llvm.return\"(%3) : (i64) -> ()
mul i64 x 2 -- (%0: i64):|  %1 = \"llvm.mlir.constant\"() <{value = 2 : i64}> : () -> i64|  %2 = \"llvm.mul\"(%0, %1) \
    : (i64, i64) -> i64|  \"llvm.return\"(%2) : (i64) -> () => (%0: i64):|  %1 = \"llvm.mlir.constant\"() <{value = 2 \
    : i64}> : () -> i64|  %3 = \"llvm.mlir.constant\"() <{value = 1 : i64}> : () -> i64|  %4 = \"llvm.shl\"(%0, %3) : \
    (i64, i64) -> i64|  %2 = \"llvm.mul\"(%0, %1) : (i64, i64) -> i64|  \"llvm.return\"(%4) : (i64) -> ()
mul i64 x 16 -- (%0: i64):|  %1 = \"llvm.mlir.constant\"() <{value = 16 : i64}> : () -> i64|  %2 = \"llvm.mul\"(%0, \
    %1) : (i64, i64) -> i64|  \"llvm.return\"(%2) : (i64) -> () => (%0: i64):|  %1 = \"llvm.mlir.constant\"() <{value \
    = 16 : i64}> : () -> i64|  %3 = \"llvm.mlir.constant\"() <{value = 4 : i64}> : () -> i64|  %4 = \"llvm.shl\"(%0, \
    %3) : (i64, i64) -> i64|  %2 = \"llvm.mul\"(%0, %1) : (i64, i64) -> i64|  \"llvm.return\"(%4) : (i64) -> ()
mul nsw i64 x 2 -- (%0: i64):|  %1 = \"llvm.mlir.constant\"() <{value = 2 : i64}> : () -> i64|  %2 = \"llvm.mul\"(%0, \
    %1) <{overflowFlags = #llvm.overflow<nsw>}> : (i64, i64) -> i64|  \"llvm.return\"(%2) : (i64) -> () => (%0: \
    i64):|  %1 = \"llvm.mlir.constant\"() <{value = 2 : i64}> : () -> i64|  %3 = \"llvm.mlir.constant\"() <{value = 1 \
    : i64}> : () -> i64|  %4 = \"llvm.shl\"(%0, %3) <{overflowFlags = #llvm.overflow<nsw>}> : (i64, i64) -> i64|  %2 \
    = \"llvm.mul\"(%0, %1) <{overflowFlags = #llvm.overflow<nsw>}> : (i64, i64) -> i64|  \"llvm.return\"(%4) : (i64) \
    -> ()
mul nsw i64 x 16 -- (%0: i64):|  %1 = \"llvm.mlir.constant\"() <{value = 16 : i64}> : () -> i64|  %2 = \
    \"llvm.mul\"(%0, %1) <{overflowFlags = #llvm.overflow<nsw>}> : (i64, i64) -> i64|  \"llvm.return\"(%2) : (i64) -> \
    () => (%0: i64):|  %1 = \"llvm.mlir.constant\"() <{value = 16 : i64}> : () -> i64|  %3 = \"llvm.mlir.constant\"() \
    <{value = 4 : i64}> : () -> i64|  %4 = \"llvm.shl\"(%0, %3) <{overflowFlags = #llvm.overflow<nsw>}> : (i64, i64) \
    -> i64|  %2 = \"llvm.mul\"(%0, %1) <{overflowFlags = #llvm.overflow<nsw>}> : (i64, i64) -> i64|  \
    \"llvm.return\"(%4) : (i64) -> ()
mul nuw i64 x 2 -- (%0: i64):|  %1 = \"llvm.mlir.constant\"() <{value = 2 : i64}> : () -> i64|  %2 = \"llvm.mul\"(%0, \
    %1) <{overflowFlags = #llvm.overflow<nuw>}> : (i64, i64) -> i64|  \"llvm.return\"(%2) : (i64) -> () => (%0: \
    i64):|  %1 = \"llvm.mlir.constant\"() <{value = 2 : i64}> : () -> i64|  %3 = \"llvm.mlir.constant\"() <{value = 1 \
    : i64}> : () -> i64|  %4 = \"llvm.shl\"(%0, %3) <{overflowFlags = #llvm.overflow<nuw>}> : (i64, i64) -> i64|  %2 \
    = \"llvm.mul\"(%0, %1) <{overflowFlags = #llvm.overflow<nuw>}> : (i64, i64) -> i64|  \"llvm.return\"(%4) : (i64) \
    -> ()
mul nuw i64 x 16 -- (%0: i64):|  %1 = \"llvm.mlir.constant\"() <{value = 16 : i64}> : () -> i64|  %2 = \
    \"llvm.mul\"(%0, %1) <{overflowFlags = #llvm.overflow<nuw>}> : (i64, i64) -> i64|  \"llvm.return\"(%2) : (i64) -> \
    () => (%0: i64):|  %1 = \"llvm.mlir.constant\"() <{value = 16 : i64}> : () -> i64|  %3 = \"llvm.mlir.constant\"() \
    <{value = 4 : i64}> : () -> i64|  %4 = \"llvm.shl\"(%0, %3) <{overflowFlags = #llvm.overflow<nuw>}> : (i64, i64) \
    -> i64|  %2 = \"llvm.mul\"(%0, %1) <{overflowFlags = #llvm.overflow<nuw>}> : (i64, i64) -> i64|  \
    \"llvm.return\"(%4) : (i64) -> ()
mul nuw nsw i64 x 2 -- (%0: i64):|  %1 = \"llvm.mlir.constant\"() <{value = 2 : i64}> : () -> i64|  %2 = \
    \"llvm.mul\"(%0, %1) <{overflowFlags = #llvm.overflow<nsw, nuw>}> : (i64, i64) -> i64|  \"llvm.return\"(%2) : \
    (i64) -> () => (%0: i64):|  %1 = \"llvm.mlir.constant\"() <{value = 2 : i64}> : () -> i64|  %3 = \
    \"llvm.mlir.constant\"() <{value = 1 : i64}> : () -> i64|  %4 = \"llvm.shl\"(%0, %3) <{overflowFlags = \
    #llvm.overflow<nsw, nuw>}> : (i64, i64) -> i64|  %2 = \"llvm.mul\"(%0, %1) <{overflowFlags = #llvm.overflow<nsw, \
    nuw>}> : (i64, i64) -> i64|  \"llvm.return\"(%4) : (i64) -> ()
mul nuw nsw i64 x 16 -- (%0: i64):|  %1 = \"llvm.mlir.constant\"() <{value = 16 : i64}> : () -> i64|  %2 = \
    \"llvm.mul\"(%0, %1) <{overflowFlags = #llvm.overflow<nsw, nuw>}> : (i64, i64) -> i64|  \"llvm.return\"(%2) : \
    (i64) -> () => (%0: i64):|  %1 = \"llvm.mlir.constant\"() <{value = 16 : i64}> : () -> i64|  %3 = \
    \"llvm.mlir.constant\"() <{value = 4 : i64}> : () -> i64|  %4 = \"llvm.shl\"(%0, %3) <{overflowFlags = \
    #llvm.overflow<nsw, nuw>}> : (i64, i64) -> i64|  %2 = \"llvm.mul\"(%0, %1) <{overflowFlags = #llvm.overflow<nsw, \
    nuw>}> : (i64, i64) -> i64|  \"llvm.return\"(%4) : (i64) -> ()
udiv i64 x 2 -- (%0: i64):|  %1 = \"llvm.mlir.constant\"() <{value = 2 : i64}> : () -> i64|  %2 = \"llvm.udiv\"(%0, \
    %1) : (i64, i64) -> i64|  \"llvm.return\"(%2) : (i64) -> () => (%0: i64):|  %1 = \"llvm.mlir.constant\"() <{value \
    = 2 : i64}> : () -> i64|  %3 = \"llvm.mlir.constant\"() <{value = 1 : i64}> : () -> i64|  %4 = \"llvm.lshr\"(%0, \
    %3) : (i64, i64) -> i64|  %2 = \"llvm.udiv\"(%0, %1) : (i64, i64) -> i64|  \"llvm.return\"(%4) : (i64) -> ()
udiv i64 x 16 -- (%0: i64):|  %1 = \"llvm.mlir.constant\"() <{value = 16 : i64}> : () -> i64|  %2 = \"llvm.udiv\"(%0, \
    %1) : (i64, i64) -> i64|  \"llvm.return\"(%2) : (i64) -> () => (%0: i64):|  %1 = \"llvm.mlir.constant\"() <{value \
    = 16 : i64}> : () -> i64|  %3 = \"llvm.mlir.constant\"() <{value = 4 : i64}> : () -> i64|  %4 = \"llvm.lshr\"(%0, \
    %3) : (i64, i64) -> i64|  %2 = \"llvm.udiv\"(%0, %1) : (i64, i64) -> i64|  \"llvm.return\"(%4) : (i64) -> ()
udiv exact i64 x 2 -- (%0: i64):|  %1 = \"llvm.mlir.constant\"() <{value = 2 : i64}> : () -> i64|  %2 = \
    \"llvm.udiv\"(%0, %1) <{isExact}> : (i64, i64) -> i64|  \"llvm.return\"(%2) : (i64) -> () => (%0: i64):|  %1 = \
    \"llvm.mlir.constant\"() <{value = 2 : i64}> : () -> i64|  %3 = \"llvm.mlir.constant\"() <{value = 1 : i64}> : () \
    -> i64|  %4 = \"llvm.lshr\"(%0, %3) <{isExact}> : (i64, i64) -> i64|  %2 = \"llvm.udiv\"(%0, %1) <{isExact}> : \
    (i64, i64) -> i64|  \"llvm.return\"(%4) : (i64) -> ()
udiv exact i64 x 16 -- (%0: i64):|  %1 = \"llvm.mlir.constant\"() <{value = 16 : i64}> : () -> i64|  %2 = \
    \"llvm.udiv\"(%0, %1) <{isExact}> : (i64, i64) -> i64|  \"llvm.return\"(%2) : (i64) -> () => (%0: i64):|  %1 = \
    \"llvm.mlir.constant\"() <{value = 16 : i64}> : () -> i64|  %3 = \"llvm.mlir.constant\"() <{value = 4 : i64}> : \
    () -> i64|  %4 = \"llvm.lshr\"(%0, %3) <{isExact}> : (i64, i64) -> i64|  %2 = \"llvm.udiv\"(%0, %1) <{isExact}> : \
    (i64, i64) -> i64|  \"llvm.return\"(%4) : (i64) -> ()
urem i64 x 2 -- (%0: i64):|  %1 = \"llvm.mlir.constant\"() <{value = 2 : i64}> : () -> i64|  %2 = \"llvm.urem\"(%0, \
    %1) : (i64, i64) -> i64|  \"llvm.return\"(%2) : (i64) -> () => (%0: i64):|  %1 = \"llvm.mlir.constant\"() <{value \
    = 2 : i64}> : () -> i64|  %3 = \"llvm.mlir.constant\"() <{value = 1 : i64}> : () -> i64|  %4 = \"llvm.and\"(%0, \
    %3) : (i64, i64) -> i64|  %2 = \"llvm.urem\"(%0, %1) : (i64, i64) -> i64|  \"llvm.return\"(%4) : (i64) -> ()
urem i64 x 16 -- (%0: i64):|  %1 = \"llvm.mlir.constant\"() <{value = 16 : i64}> : () -> i64|  %2 = \"llvm.urem\"(%0, \
    %1) : (i64, i64) -> i64|  \"llvm.return\"(%2) : (i64) -> () => (%0: i64):|  %1 = \"llvm.mlir.constant\"() <{value \
    = 16 : i64}> : () -> i64|  %3 = \"llvm.mlir.constant\"() <{value = 15 : i64}> : () -> i64|  %4 = \"llvm.and\"(%0, \
    %3) : (i64, i64) -> i64|  %2 = \"llvm.urem\"(%0, %1) : (i64, i64) -> i64|  \"llvm.return\"(%4) : (i64) -> ()";
