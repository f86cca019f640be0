//! What instcombine makes of pairs of operations that rules rewrite, by `tools/llvm_rows`.

pub static ROWS: &str = "\
add add i8 x 3 4 -- (%0: i8):|  %1 = \"llvm.mlir.constant\"() <{value = 3 : i8}> : () -> i8|  %2 = \"llvm.add\"(%0, \
    %1) : (i8, i8) -> i8|  %3 = \"llvm.mlir.constant\"() <{value = 4 : i8}> : () -> i8|  %4 = \"llvm.add\"(%2, %3) : \
    (i8, i8) -> i8|  \"llvm.return\"(%4) : (i8) -> () => (%0: i8):|  %1 = \"llvm.mlir.constant\"() <{value = 3 : i8}> \
    : () -> i8|  %2 = \"llvm.add\"(%0, %1) : (i8, i8) -> i8|  %3 = \"llvm.mlir.constant\"() <{value = 4 : i8}> : () \
    -> i8|  %5 = \"llvm.mlir.constant\"() <{value = 7 : i8}> : () -> i8|  %6 = \"llvm.add\"(%0, %5) : (i8, i8) -> i8|  \
    %4 = \"llvm.add\"(%2, %3) : (i8, i8) -> i8|  \"llvm.return\"(%6) : (i8) -> ()
and and i8 x 12 6 -- (%0: i8):|  %1 = \"llvm.mlir.constant\"() <{value = 12 : i8}> : () -> i8|  %2 = \"llvm.and\"(%0, \
    %1) : (i8, i8) -> i8|  %3 = \"llvm.mlir.constant\"() <{value = 6 : i8}> : () -> i8|  %4 = \"llvm.and\"(%2, %3) : \
    (i8, i8) -> i8|  \"llvm.return\"(%4) : (i8) -> () => (%0: i8):|  %1 = \"llvm.mlir.constant\"() <{value = 12 : \
    i8}> : () -> i8|  %2 = \"llvm.and\"(%0, %1) : (i8, i8) -> i8|  %3 = \"llvm.mlir.constant\"() <{value = 6 : i8}> : \
    () -> i8|  %5 = \"llvm.mlir.constant\"() <{value = 4 : i8}> : () -> i8|  %6 = \"llvm.and\"(%0, %5) : (i8, i8) -> \
    i8|  %4 = \"llvm.and\"(%2, %3) : (i8, i8) -> i8|  \"llvm.return\"(%6) : (i8) -> ()
or or i8 x 1 6 -- (%0: i8):|  %1 = \"llvm.mlir.constant\"() <{value = 1 : i8}> : () -> i8|  %2 = \"llvm.or\"(%0, %1) \
    : (i8, i8) -> i8|  %3 = \"llvm.mlir.constant\"() <{value = 6 : i8}> : () -> i8|  %4 = \"llvm.or\"(%2, %3) : (i8, \
    i8) -> i8|  \"llvm.return\"(%4) : (i8) -> () => (%0: i8):|  %1 = \"llvm.mlir.constant\"() <{value = 1 : i8}> : () \
    -> i8|  %2 = \"llvm.or\"(%0, %1) : (i8, i8) -> i8|  %3 = \"llvm.mlir.constant\"() <{value = 6 : i8}> : () -> i8|  \
    %5 = \"llvm.mlir.constant\"() <{value = 7 : i8}> : () -> i8|  %6 = \"llvm.or\"(%0, %5) : (i8, i8) -> i8|  %4 = \
    \"llvm.or\"(%2, %3) : (i8, i8) -> i8|  \"llvm.return\"(%6) : (i8) -> ()
xor xor i8 x 5 3 -- (%0: i8):|  %1 = \"llvm.mlir.constant\"() <{value = 5 : i8}> : () -> i8|  %2 = \"llvm.xor\"(%0, \
    %1) : (i8, i8) -> i8|  %3 = \"llvm.mlir.constant\"() <{value = 3 : i8}> : () -> i8|  %4 = \"llvm.xor\"(%2, %3) : \
    (i8, i8) -> i8|  \"llvm.return\"(%4) : (i8) -> () => (%0: i8):|  %1 = \"llvm.mlir.constant\"() <{value = 5 : i8}> \
    : () -> i8|  %2 = \"llvm.xor\"(%0, %1) : (i8, i8) -> i8|  %3 = \"llvm.mlir.constant\"() <{value = 3 : i8}> : () \
    -> i8|  %5 = \"llvm.mlir.constant\"() <{value = 6 : i8}> : () -> i8|  %6 = \"llvm.xor\"(%0, %5) : (i8, i8) -> i8|  \
    %4 = \"llvm.xor\"(%2, %3) : (i8, i8) -> i8|  \"llvm.return\"(%6) : (i8) -> ()
add add nsw i8 x 3 4 -- (%0: i8):|  %1 = \"llvm.mlir.constant\"() <{value = 3 : i8}> : () -> i8|  %2 = \
    \"llvm.add\"(%0, %1) <{overflowFlags = #llvm.overflow<nsw>}> : (i8, i8) -> i8|  %3 = \"llvm.mlir.constant\"() \
    <{value = 4 : i8}> : () -> i8|  %4 = \"llvm.add\"(%2, %3) <{overflowFlags = #llvm.overflow<nsw>}> : (i8, i8) -> \
    i8|  \"llvm.return\"(%4) : (i8) -> () => (%0: i8):|  %1 = \"llvm.mlir.constant\"() <{value = 3 : i8}> : () -> i8|  \
    %2 = \"llvm.add\"(%0, %1) <{overflowFlags = #llvm.overflow<nsw>}> : (i8, i8) -> i8|  %3 = \
    \"llvm.mlir.constant\"() <{value = 4 : i8}> : () -> i8|  %5 = \"llvm.mlir.constant\"() <{value = 7 : i8}> : () -> \
    i8|  %6 = \"llvm.add\"(%0, %5) <{overflowFlags = #llvm.overflow<nsw>}> : (i8, i8) -> i8|  %4 = \"llvm.add\"(%2, \
    %3) <{overflowFlags = #llvm.overflow<nsw>}> : (i8, i8) -> i8|  \"llvm.return\"(%6) : (i8) -> ()
add add nsw i8 x -3 -4 -- (%0: i8):|  %1 = \"llvm.mlir.constant\"() <{value = -3 : i8}> : () -> i8|  %2 = \
    \"llvm.add\"(%0, %1) <{overflowFlags = #llvm.overflow<nsw>}> : (i8, i8) -> i8|  %3 = \"llvm.mlir.constant\"() \
    <{value = -4 : i8}> : () -> i8|  %4 = \"llvm.add\"(%2, %3) <{overflowFlags = #llvm.overflow<nsw>}> : (i8, i8) -> \
    i8|  \"llvm.return\"(%4) : (i8) -> () => (%0: i8):|  %1 = \"llvm.mlir.constant\"() <{value = -3 : i8}> : () -> \
    i8|  %2 = \"llvm.add\"(%0, %1) <{overflowFlags = #llvm.overflow<nsw>}> : (i8, i8) -> i8|  %3 = \
    \"llvm.mlir.constant\"() <{value = -4 : i8}> : () -> i8|  %5 = \"llvm.mlir.constant\"() <{value = -7 : i8}> : () \
    -> i8|  %6 = \"llvm.add\"(%0, %5) <{overflowFlags = #llvm.overflow<nsw>}> : (i8, i8) -> i8|  %4 = \
    \"llvm.add\"(%2, %3) <{overflowFlags = #llvm.overflow<nsw>}> : (i8, i8) -> i8|  \"llvm.return\"(%6) : (i8) -> ()
add add nsw i8 x 100 27 -- (%0: i8):|  %1 = \"llvm.mlir.constant\"() <{value = 100 : i8}> : () -> i8|  %2 = \
    \"llvm.add\"(%0, %1) <{overflowFlags = #llvm.overflow<nsw>}> : (i8, i8) -> i8|  %3 = \"llvm.mlir.constant\"() \
    <{value = 27 : i8}> : () -> i8|  %4 = \"llvm.add\"(%2, %3) <{overflowFlags = #llvm.overflow<nsw>}> : (i8, i8) -> \
    i8|  \"llvm.return\"(%4) : (i8) -> () => (%0: i8):|  %1 = \"llvm.mlir.constant\"() <{value = 100 : i8}> : () -> \
    i8|  %2 = \"llvm.add\"(%0, %1) <{overflowFlags = #llvm.overflow<nsw>}> : (i8, i8) -> i8|  %3 = \
    \"llvm.mlir.constant\"() <{value = 27 : i8}> : () -> i8|  %5 = \"llvm.mlir.constant\"() <{value = 127 : i8}> : () \
    -> i8|  %6 = \"llvm.add\"(%0, %5) <{overflowFlags = #llvm.overflow<nsw>}> : (i8, i8) -> i8|  %4 = \
    \"llvm.add\"(%2, %3) <{overflowFlags = #llvm.overflow<nsw>}> : (i8, i8) -> i8|  \"llvm.return\"(%6) : (i8) -> ()
add add nuw i8 x 3 4 -- (%0: i8):|  %1 = \"llvm.mlir.constant\"() <{value = 3 : i8}> : () -> i8|  %2 = \
    \"llvm.add\"(%0, %1) <{overflowFlags = #llvm.overflow<nuw>}> : (i8, i8) -> i8|  %3 = \"llvm.mlir.constant\"() \
    <{value = 4 : i8}> : () -> i8|  %4 = \"llvm.add\"(%2, %3) <{overflowFlags = #llvm.overflow<nuw>}> : (i8, i8) -> \
    i8|  \"llvm.return\"(%4) : (i8) -> () => (%0: i8):|  %1 = \"llvm.mlir.constant\"() <{value = 3 : i8}> : () -> i8|  \
    %2 = \"llvm.add\"(%0, %1) <{overflowFlags = #llvm.overflow<nuw>}> : (i8, i8) -> i8|  %3 = \
    \"llvm.mlir.constant\"() <{value = 4 : i8}> : () -> i8|  %5 = \"llvm.mlir.constant\"() <{value = 7 : i8}> : () -> \
    i8|  %6 = \"llvm.add\"(%0, %5) <{overflowFlags = #llvm.overflow<nuw>}> : (i8, i8) -> i8|  %4 = \"llvm.add\"(%2, \
    %3) <{overflowFlags = #llvm.overflow<nuw>}> : (i8, i8) -> i8|  \"llvm.return\"(%6) : (i8) -> ()
add add nuw i8 x 100 100 -- (%0: i8):|  %1 = \"llvm.mlir.constant\"() <{value = 100 : i8}> : () -> i8|  %2 = \
    \"llvm.add\"(%0, %1) <{overflowFlags = #llvm.overflow<nuw>}> : (i8, i8) -> i8|  %3 = \"llvm.mlir.constant\"() \
    <{value = 100 : i8}> : () -> i8|  %4 = \"llvm.add\"(%2, %3) <{overflowFlags = #llvm.overflow<nuw>}> : (i8, i8) -> \
    i8|  \"llvm.return\"(%4) : (i8) -> () => (%0: i8):|  %1 = \"llvm.mlir.constant\"() <{value = 100 : i8}> : () -> \
    i8|  %2 = \"llvm.add\"(%0, %1) <{overflowFlags = #llvm.overflow<nuw>}> : (i8, i8) -> i8|  %3 = \
    \"llvm.mlir.constant\"() <{value = 100 : i8}> : () -> i8|  %5 = \"llvm.mlir.constant\"() <{value = -56 : i8}> : \
    () -> i8|  %6 = \"llvm.add\"(%0, %5) <{overflowFlags = #llvm.overflow<nuw>}> : (i8, i8) -> i8|  %4 = \
    \"llvm.add\"(%2, %3) <{overflowFlags = #llvm.overflow<nuw>}> : (i8, i8) -> i8|  \"llvm.return\"(%6) : (i8) -> ()
add add nuw i8 x 2 -5 -- (%0: i8):|  %1 = \"llvm.mlir.constant\"() <{value = 2 : i8}> : () -> i8|  %2 = \
    \"llvm.add\"(%0, %1) <{overflowFlags = #llvm.overflow<nuw>}> : (i8, i8) -> i8|  %3 = \"llvm.mlir.constant\"() \
    <{value = -5 : i8}> : () -> i8|  %4 = \"llvm.add\"(%2, %3) <{overflowFlags = #llvm.overflow<nuw>}> : (i8, i8) -> \
    i8|  \"llvm.return\"(%4) : (i8) -> () => (%0: i8):|  %1 = \"llvm.mlir.constant\"() <{value = 2 : i8}> : () -> i8|  \
    %2 = \"llvm.add\"(%0, %1) <{overflowFlags = #llvm.overflow<nuw>}> : (i8, i8) -> i8|  %3 = \
    \"llvm.mlir.constant\"() <{value = -5 : i8}> : () -> i8|  %5 = \"llvm.mlir.constant\"() <{value = -3 : i8}> : () \
    -> i8|  %6 = \"llvm.add\"(%0, %5) <{overflowFlags = #llvm.overflow<nuw>}> : (i8, i8) -> i8|  %4 = \
    \"llvm.add\"(%2, %3) <{overflowFlags = #llvm.overflow<nuw>}> : (i8, i8) -> i8|  \"llvm.return\"(%6) : (i8) -> ()
add add nuw nsw i8 x 3 4 -- (%0: i8):|  %1 = \"llvm.mlir.constant\"() <{value = 3 : i8}> : () -> i8|  %2 = \
    \"llvm.add\"(%0, %1) <{overflowFlags = #llvm.overflow<nsw, nuw>}> : (i8, i8) -> i8|  %3 = \
    \"llvm.mlir.constant\"() <{value = 4 : i8}> : () -> i8|  %4 = \"llvm.add\"(%2, %3) <{overflowFlags = \
    #llvm.overflow<nsw, nuw>}> : (i8, i8) -> i8|  \"llvm.return\"(%4) : (i8) -> () => (%0: i8):|  %1 = \
    \"llvm.mlir.constant\"() <{value = 3 : i8}> : () -> i8|  %2 = \"llvm.add\"(%0, %1) <{overflowFlags = \
    #llvm.overflow<nsw, nuw>}> : (i8, i8) -> i8|  %3 = \"llvm.mlir.constant\"() <{value = 4 : i8}> : () -> i8|  %5 = \
    \"llvm.mlir.constant\"() <{value = 7 : i8}> : () -> i8|  %6 = \"llvm.add\"(%0, %5) <{overflowFlags = \
    #llvm.overflow<nsw, nuw>}> : (i8, i8) -> i8|  %4 = \"llvm.add\"(%2, %3) <{overflowFlags = #llvm.overflow<nsw, \
    nuw>}> : (i8, i8) -> i8|  \"llvm.return\"(%6) : (i8) -> ()
sub icmp eq i8 x y 0 -- (%0: i8, %1: i8):|  %2 = \"llvm.mlir.constant\"() <{value = 0 : i8}> : () -> i8|  %3 = \
    \"llvm.sub\"(%0, %1) : (i8, i8) -> i8|  %4 = \"llvm.icmp\"(%3, %2) <{predicate = 0 : i64}> : (i8, i8) -> i1|  \
    \"llvm.return\"(%4) : (i1) -> () => (%0: i8, %1: i8):|  %2 = \"llvm.mlir.constant\"() <{value = 0 : i8}> : () -> \
    i8|  %3 = \"llvm.sub\"(%0, %1) : (i8, i8) -> i8|  %5 = \"llvm.icmp\"(%0, %1) <{predicate = 0 : i64}> : (i8, i8) \
    -> i1|  %4 = \"llvm.icmp\"(%3, %2) <{predicate = 0 : i64}> : (i8, i8) -> i1|  \"llvm.return\"(%5) : (i1) -> ()
sub icmp ne i8 x y 0 -- (%0: i8, %1: i8):|  %2 = \"llvm.mlir.constant\"() <{value = 0 : i8}> : () -> i8|  %3 = \
    \"llvm.sub\"(%0, %1) : (i8, i8) -> i8|  %4 = \"llvm.icmp\"(%3, %2) <{predicate = 1 : i64}> : (i8, i8) -> i1|  \
    \"llvm.return\"(%4) : (i1) -> () => (%0: i8, %1: i8):|  %2 = \"llvm.mlir.constant\"() <{value = 0 : i8}> : () -> \
    i8|  %3 = \"llvm.sub\"(%0, %1) : (i8, i8) -> i8|  %5 = \"llvm.icmp\"(%0, %1) <{predicate = 1 : i64}> : (i8, i8) \
    -> i1|  %4 = \"llvm.icmp\"(%3, %2) <{predicate = 1 : i64}> : (i8, i8) -> i1|  \"llvm.return\"(%5) : (i1) -> ()
xor icmp eq i8 x y 0 -- (%0: i8, %1: i8):|  %2 = \"llvm.mlir.constant\"() <{value = 0 : i8}> : () -> i8|  %3 = \
    \"llvm.xor\"(%0, %1) : (i8, i8) -> i8|  %4 = \"llvm.icmp\"(%3, %2) <{predicate = 0 : i64}> : (i8, i8) -> i1|  \
    \"llvm.return\"(%4) : (i1) -> () => (%0: i8, %1: i8):|  %2 = \"llvm.mlir.constant\"() <{value = 0 : i8}> : () -> \
    i8|  %3 = \"llvm.xor\"(%0, %1) : (i8, i8) -> i8|  %5 = \"llvm.icmp\"(%0, %1) <{predicate = 0 : i64}> : (i8, i8) \
    -> i1|  %4 = \"llvm.icmp\"(%3, %2) <{predicate = 0 : i64}> : (i8, i8) -> i1|  \"llvm.return\"(%5) : (i1) -> ()
xor icmp ne i8 x y 0 -- (%0: i8, %1: i8):|  %2 = \"llvm.mlir.constant\"() <{value = 0 : i8}> : () -> i8|  %3 = \
    \"llvm.xor\"(%0, %1) : (i8, i8) -> i8|  %4 = \"llvm.icmp\"(%3, %2) <{predicate = 1 : i64}> : (i8, i8) -> i1|  \
    \"llvm.return\"(%4) : (i1) -> () => (%0: i8, %1: i8):|  %2 = \"llvm.mlir.constant\"() <{value = 0 : i8}> : () -> \
    i8|  %3 = \"llvm.xor\"(%0, %1) : (i8, i8) -> i8|  %5 = \"llvm.icmp\"(%0, %1) <{predicate = 1 : i64}> : (i8, i8) \
    -> i1|  %4 = \"llvm.icmp\"(%3, %2) <{predicate = 1 : i64}> : (i8, i8) -> i1|  \"llvm.return\"(%5) : (i1) -> ()
add add i32 x 3 4 -- (%0: i32):|  %1 = \"llvm.mlir.constant\"() <{value = 3 : i32}> : () -> i32|  %2 = \
    \"llvm.add\"(%0, %1) : (i32, i32) -> i32|  %3 = \"llvm.mlir.constant\"() <{value = 4 : i32}> : () -> i32|  %4 = \
    \"llvm.add\"(%2, %3) : (i32, i32) -> i32|  \"llvm.return\"(%4) : (i32) -> () => (%0: i32):|  %1 = \
    \"llvm.mlir.constant\"() <{value = 3 : i32}> : () -> i32|  %2 = \"llvm.add\"(%0, %1) : (i32, i32) -> i32|  %3 = \
    \"llvm.mlir.constant\"() <{value = 4 : i32}> : () -> i32|  %5 = \"llvm.mlir.constant\"() <{value = 7 : i32}> : () \
    -> i32|  %6 = \"llvm.add\"(%0, %5) : (i32, i32) -> i32|  %4 = \"llvm.add\"(%2, %3) : (i32, i32) -> i32|  \
    \"llvm.return\"(%6) : (i32) -> ()
and and i32 x 12 6 -- (%0: i32):|  %1 = \"llvm.mlir.constant\"() <{value = 12 : i32}> : () -> i32|  %2 = \
    \"llvm.and\"(%0, %1) : (i32, i32) -> i32|  %3 = \"llvm.mlir.constant\"() <{value = 6 : i32}> : () -> i32|  %4 = \
    \"llvm.and\"(%2, %3) : (i32, i32) -> i32|  \"llvm.return\"(%4) : (i32) -> () => (%0: i32):|  %1 = \
    \"llvm.mlir.constant\"() <{value = 12 : i32}> : () -> i32|  %2 = \"llvm.and\"(%0, %1) : (i32, i32) -> i32|  %3 = \
    \"llvm.mlir.constant\"() <{value = 6 : i32}> : () -> i32|  %5 = \"llvm.mlir.constant\"() <{value = 4 : i32}> : () \
    -> i32|  %6 = \"llvm.and\"(%0, %5) : (i32, i32) -> i32|  %4 = \"llvm.and\"(%2, %3) : (i32, i32) -> i32|  \
    \"llvm.return\"(%6) : (i32) -> ()
or or i32 x 1 6 -- (%0: i32):|  %1 = \"llvm.mlir.constant\"() <{value = 1 : i32}> : () -> i32|  %2 = \"llvm.or\"(%0, \
    %1) : (i32, i32) -> i32|  %3 = \"llvm.mlir.constant\"() <{value = 6 : i32}> : () -> i32|  %4 = \"llvm.or\"(%2, \
    %3) : (i32, i32) -> i32|  \"llvm.return\"(%4) : (i32) -> () => (%0: i32):|  %1 = \"llvm.mlir.constant\"() <{value \
    = 1 : i32}> : () -> i32|  %2 = \"llvm.or\"(%0, %1) : (i32, i32) -> i32|  %3 = \"llvm.mlir.constant\"() <{value = \
    6 : i32}> : () -> i32|  %5 = \"llvm.mlir.constant\"() <{value = 7 : i32}> : () -> i32|  %6 = \"llvm.or\"(%0, %5) \
    : (i32, i32) -> i32|  %4 = \"llvm.or\"(%2, %3) : (i32, i32) -> i32|  \"llvm.return\"(%6) : (i32) -> ()
xor xor i32 x 5 3 -- (%0: i32):|  %1 = \"llvm.mlir.constant\"() <{value = 5 : i32}> : () -> i32|  %2 = \
    \"llvm.xor\"(%0, %1) : (i32, i32) -> i32|  %3 = \"llvm.mlir.constant\"() <{value = 3 : i32}> : () -> i32|  %4 = \
    \"llvm.xor\"(%2, %3) : (i32, i32) -> i32|  \"llvm.return\"(%4) : (i32) -> () => (%0: i32):|  %1 = \
    \"llvm.mlir.constant\"() <{value = 5 : i32}> : () -> i32|  %2 = \"llvm.xor\"(%0, %1) : (i32, i32) -> i32|  %3 = \
    \"llvm.mlir.constant\"() <{value = 3 : i32}> : () -> i32|  %5 = \"llvm.mlir.constant\"() <{value = 6 : i32}> : () \
    -> i32|  %6 = \"llvm.xor\"(%0, %5) : (i32, i32) -> i32|  %4 = \"llvm.xor\"(%2, %3) : (i32, i32) -> i32|  \
    \"llvm.return\"(%6) : (i32) -> ()
add add nsw i32 x 3 4 -- (%0: i32):|  %1 = \"llvm.mlir.constant\"() <{value = 3 : i32}> : () -> i32|  %2 = \
    \"llvm.add\"(%0, %1) <{overflowFlags = #llvm.overflow<nsw>}> : (i32, i32) -> i32|  %3 = \"llvm.mlir.constant\"() \
    <{value = 4 : i32}> : () -> i32|  %4 = \"llvm.add\"(%2, %3) <{overflowFlags = #llvm.overflow<nsw>}> : (i32, i32) \
    -> i32|  \"llvm.return\"(%4) : (i32) -> () => (%0: i32):|  %1 = \"llvm.mlir.constant\"() <{value = 3 : i32}> : () \
    -> i32|  %2 = \"llvm.add\"(%0, %1) <{overflowFlags = #llvm.overflow<nsw>}> : (i32, i32) -> i32|  %3 = \
    \"llvm.mlir.constant\"() <{value = 4 : i32}> : () -> i32|  %5 = \"llvm.mlir.constant\"() <{value = 7 : i32}> : () \
    -> i32|  %6 = \"llvm.add\"(%0, %5) <{overflowFlags = #llvm.overflow<nsw>}> : (i32, i32) -> i32|  %4 = \
    \"llvm.add\"(%2, %3) <{overflowFlags = #llvm.overflow<nsw>}> : (i32, i32) -> i32|  \"llvm.return\"(%6) : (i32) -> \
    ()
add add nsw i32 x -3 -4 -- (%0: i32):|  %1 = \"llvm.mlir.constant\"() <{value = -3 : i32}> : () -> i32|  %2 = \
    \"llvm.add\"(%0, %1) <{overflowFlags = #llvm.overflow<nsw>}> : (i32, i32) -> i32|  %3 = \"llvm.mlir.constant\"() \
    <{value = -4 : i32}> : () -> i32|  %4 = \"llvm.add\"(%2, %3) <{overflowFlags = #llvm.overflow<nsw>}> : (i32, i32) \
    -> i32|  \"llvm.return\"(%4) : (i32) -> () => (%0: i32):|  %1 = \"llvm.mlir.constant\"() <{value = -3 : i32}> : \
    () -> i32|  %2 = \"llvm.add\"(%0, %1) <{overflowFlags = #llvm.overflow<nsw>}> : (i32, i32) -> i32|  %3 = \
    \"llvm.mlir.constant\"() <{value = -4 : i32}> : () -> i32|  %5 = \"llvm.mlir.constant\"() <{value = -7 : i32}> : \
    () -> i32|  %6 = \"llvm.add\"(%0, %5) <{overflowFlags = #llvm.overflow<nsw>}> : (i32, i32) -> i32|  %4 = \
    \"llvm.add\"(%2, %3) <{overflowFlags = #llvm.overflow<nsw>}> : (i32, i32) -> i32|  \"llvm.return\"(%6) : (i32) -> \
    ()
add add nsw i32 x 100 27 -- (%0: i32):|  %1 = \"llvm.mlir.constant\"() <{value = 100 : i32}> : () -> i32|  %2 = \
    \"llvm.add\"(%0, %1) <{overflowFlags = #llvm.overflow<nsw>}> : (i32, i32) -> i32|  %3 = \"llvm.mlir.constant\"() \
    <{value = 27 : i32}> : () -> i32|  %4 = \"llvm.add\"(%2, %3) <{overflowFlags = #llvm.overflow<nsw>}> : (i32, i32) \
    -> i32|  \"llvm.return\"(%4) : (i32) -> () => (%0: i32):|  %1 = \"llvm.mlir.constant\"() <{value = 100 : i32}> : \
    () -> i32|  %2 = \"llvm.add\"(%0, %1) <{overflowFlags = #llvm.overflow<nsw>}> : (i32, i32) -> i32|  %3 = \
    \"llvm.mlir.constant\"() <{value = 27 : i32}> : () -> i32|  %5 = \"llvm.mlir.constant\"() <{value = 127 : i32}> : \
    () -> i32|  %6 = \"llvm.add\"(%0, %5) <{overflowFlags = #llvm.overflow<nsw>}> : (i32, i32) -> i32|  %4 = \
    \"llvm.add\"(%2, %3) <{overflowFlags = #llvm.overflow<nsw>}> : (i32, i32) -> i32|  \"llvm.return\"(%6) : (i32) -> \
    ()
add add nuw i32 x 3 4 -- (%0: i32):|  %1 = \"llvm.mlir.constant\"() <{value = 3 : i32}> : () -> i32|  %2 = \
    \"llvm.add\"(%0, %1) <{overflowFlags = #llvm.overflow<nuw>}> : (i32, i32) -> i32|  %3 = \"llvm.mlir.constant\"() \
    <{value = 4 : i32}> : () -> i32|  %4 = \"llvm.add\"(%2, %3) <{overflowFlags = #llvm.overflow<nuw>}> : (i32, i32) \
    -> i32|  \"llvm.return\"(%4) : (i32) -> () => (%0: i32):|  %1 = \"llvm.mlir.constant\"() <{value = 3 : i32}> : () \
    -> i32|  %2 = \"llvm.add\"(%0, %1) <{overflowFlags = #llvm.overflow<nuw>}> : (i32, i32) -> i32|  %3 = \
    \"llvm.mlir.constant\"() <{value = 4 : i32}> : () -> i32|  %5 = \"llvm.mlir.constant\"() <{value = 7 : i32}> : () \
    -> i32|  %6 = \"llvm.add\"(%0, %5) <{overflowFlags = #llvm.overflow<nuw>}> : (i32, i32) -> i32|  %4 = \
    \"llvm.add\"(%2, %3) <{overflowFlags = #llvm.overflow<nuw>}> : (i32, i32) -> i32|  \"llvm.return\"(%6) : (i32) -> \
    ()
add add nuw i32 x 100 100 -- (%0: i32):|  %1 = \"llvm.mlir.constant\"() <{value = 100 : i32}> : () -> i32|  %2 = \
    \"llvm.add\"(%0, %1) <{overflowFlags = #llvm.overflow<nuw>}> : (i32, i32) -> i32|  %3 = \"llvm.mlir.constant\"() \
    <{value = 100 : i32}> : () -> i32|  %4 = \"llvm.add\"(%2, %3) <{overflowFlags = #llvm.overflow<nuw>}> : (i32, \
    i32) -> i32|  \"llvm.return\"(%4) : (i32) -> () => (%0: i32):|  %1 = \"llvm.mlir.constant\"() <{value = 100 : \
    i32}> : () -> i32|  %2 = \"llvm.add\"(%0, %1) <{overflowFlags = #llvm.overflow<nuw>}> : (i32, i32) -> i32|  %3 = \
    \"llvm.mlir.constant\"() <{value = 100 : i32}> : () -> i32|  %5 = \"llvm.mlir.constant\"() <{value = 200 : i32}> \
    : () -> i32|  %6 = \"llvm.add\"(%0, %5) <{overflowFlags = #llvm.overflow<nuw>}> : (i32, i32) -> i32|  %4 = \
    \"llvm.add\"(%2, %3) <{overflowFlags = #llvm.overflow<nuw>}> : (i32, i32) -> i32|  \"llvm.return\"(%6) : (i32) -> \
    ()
add add nuw i32 x 2 -5 -- (%0: i32):|  %1 = \"llvm.mlir.constant\"() <{value = 2 : i32}> : () -> i32|  %2 = \
    \"llvm.add\"(%0, %1) <{overflowFlags = #llvm.overflow<nuw>}> : (i32, i32) -> i32|  %3 = \"llvm.mlir.constant\"() \
    <{value = -5 : i32}> : () -> i32|  %4 = \"llvm.add\"(%2, %3) <{overflowFlags = #llvm.overflow<nuw>}> : (i32, i32) \
    -> i32|  \"llvm.return\"(%4) : (i32) -> () => (%0: i32):|  %1 = \"llvm.mlir.constant\"() <{value = 2 : i32}> : () \
    -> i32|  %2 = \"llvm.add\"(%0, %1) <{overflowFlags = #llvm.overflow<nuw>}> : (i32, i32) -> i32|  %3 = \
    \"llvm.mlir.constant\"() <{value = -5 : i32}> : () -> i32|  %5 = \"llvm.mlir.constant\"() <{value = -3 : i32}> : \
    () -> i32|  %6 = \"llvm.add\"(%0, %5) <{overflowFlags = #llvm.overflow<nuw>}> : (i32, i32) -> i32|  %4 = \
    \"llvm.add\"(%2, %3) <{overflowFlags = #llvm.overflow<nuw>}> : (i32, i32) -> i32|  \"llvm.return\"(%6) : (i32) -> \
    ()
add add nuw nsw i32 x 3 4 -- (%0: i32):|  %1 = \"llvm.mlir.constant\"() <{value = 3 : i32}> : () -> i32|  %2 = \
    \"llvm.add\"(%0, %1) <{overflowFlags = #llvm.overflow<nsw, nuw>}> : (i32, i32) -> i32|  %3 = \
    \"llvm.mlir.constant\"() <{value = 4 : i32}> : () -> i32|  %4 = \"llvm.add\"(%2, %3) <{overflowFlags = \
    #llvm.overflow<nsw, nuw>}> : (i32, i32) -> i32|  \"llvm.return\"(%4) : (i32) -> () => (%0: i32):|  %1 = \
    \"llvm.mlir.constant\"() <{value = 3 : i32}> : () -> i32|  %2 = \"llvm.add\"(%0, %1) <{overflowFlags = \
    #llvm.overflow<nsw, nuw>}> : (i32, i32) -> i32|  %3 = \"llvm.mlir.constant\"() <{value = 4 : i32}> : () -> i32|  \
    %5 = \"llvm.mlir.constant\"() <{value = 7 : i32}> : () -> i32|  %6 = \"llvm.add\"(%0, %5) <{overflowFlags = \
    #llvm.overflow<nsw, nuw>}> : (i32, i32) -> i32|  %4 = \"llvm.add\"(%2, %3) <{overflowFlags = #llvm.overflow<nsw, \
    nuw>}> : (i32, i32) -> i32|  \"llvm.return\"(%6) : (i32) -> ()
sub icmp eq i32 x y 0 -- (%0: i32, %1: i32):|  %2 = \"llvm.mlir.constant\"() <{value = 0 : i32}> : () -> i32|  %3 = \
    \"llvm.sub\"(%0, %1) : (i32, i32) -> i32|  %4 = \"llvm.icmp\"(%3, %2) <{predicate = 0 : i64}> : (i32, i32) -> i1|  \
    \"llvm.return\"(%4) : (i1) -> () => (%0: i32, %1: i32):|  %2 = \"llvm.mlir.constant\"() <{value = 0 : i32}> : () \
    -> i32|  %3 = \"llvm.sub\"(%0, %1) : (i32, i32) -> i32|  %5 = \"llvm.icmp\"(%0, %1) <{predicate = 0 : i64}> : \
    (i32, i32) -> i1|  %4 = \"llvm.icmp\"(%3, %2) <{predicate = 0 : i64}> : (i32, i32) -> i1|  \"llvm.return\"(%5) : \
    (i1) -> ()
sub icmp ne i32 x y 0 -- (%0: i32, %1: i32):|  %2 = \"llvm.mlir.constant\"() <{value = 0 : i32}> : () -> i32|  %3 = \
    \"llvm.sub\"(%0, %1) : (i32, i32) -> i32|  %4 = \"llvm.icmp\"(%3, %2) <{predicate = 1 : i64}> : (i32, i32) -> i1|  \
    \"llvm.return\"(%4) : (i1) -> () => (%0: i32, %1: i32):|  %2 = \"llvm.mlir.constant\"() <{value = 0 : i32}> : () \
    -> i32|  %3 = \"llvm.sub\"(%0, %1) : (i32, i32) -> i32|  %5 = \"llvm.icmp\"(%0, %1) <{predicate = 1 : i64}> : \
    (i32, i32) -> i1|  %4 = \"llvm.icmp\"(%3, %2) <{predicate = 1 : i64}> : (i32, i32) -> i1|  \"llvm.return\"(%5) : \
    (i1) -> ()
xor icmp eq i32 x y 0 -- (%0: i32, %1: i32):|  %2 = \"llvm.mlir.constant\"() <{value = 0 : i32}> : () -> i32|  %3 = \
    \"llvm.xor\"(%0, %1) : (i32, i32) -> i32|  %4 = \"llvm.icmp\"(%3, %2) <{predicate = 0 : i64}> : (i32, i32) -> i1|  \
    \"llvm.return\"(%4) : (i1) -> () => (%0: i32, %1: i32):|  %2 = \"llvm.mlir.constant\"() <{value = 0 : i32}> : () \
    -> i32|  %3 = \"llvm.xor\"(%0, %1) : (i32, i32) -> i32|  %5 = \"llvm.icmp\"(%0, %1) <{predicate = 0 : i64}> : \
    (i32, i32) -> i1|  %4 = \"llvm.icmp\"(%3, %2) <{predicate = 0 : i64}> : (i32, i32) -> i1|  \"llvm.return\"(%5) : \
    (i1) -> ()
xor icmp ne i32 x y 0 -- (%0: i32, %1: i32):|  %2 = \"llvm.mlir.constant\"() <{value = 0 : i32}> : () -> i32|  %3 = \
    \"llvm.xor\"(%0, %1) : (i32, i32) -> i32|  %4 = \"llvm.icmp\"(%3, %2) <{predicate = 1 : i64}> : (i32, i32) -> i1|  \
    \"llvm.return\"(%4) : (i1) -> () => (%0: i32, %1: i32):|  %2 = \"llvm.mlir.constant\"() <{value = 0 : i32}> : () \
    -> i32|  %3 = \"llvm.xor\"(%0, %1) : (i32, i32) -> i32|  %5 = \"llvm.icmp\"(%0, %1) <{predicate = 1 : i64}> : \
    (i32, i32) -> i1|  %4 = \"llvm.icmp\"(%3, %2) <{predicate = 1 : i64}> : (i32, i32) -> i1|  \"llvm.return\"(%5) : \
    (i1) -> ()
add add i64 x 3 4 -- (%0: i64):|  %1 = \"llvm.mlir.constant\"() <{value = 3 : i64}> : () -> i64|  %2 = \
    \"llvm.add\"(%0, %1) : (i64, i64) -> i64|  %3 = \"llvm.mlir.constant\"() <{value = 4 : i64}> : () -> i64|  %4 = \
    \"llvm.add\"(%2, %3) : (i64, i64) -> i64|  \"llvm.return\"(%4) : (i64) -> () => (%0: i64):|  %1 = \
    \"llvm.mlir.constant\"() <{value = 3 : i64}> : () -> i64|  %2 = \"llvm.add\"(%0, %1) : (i64, i64) -> i64|  %3 = \
    \"llvm.mlir.constant\"() <{value = 4 : i64}> : () -> i64|  %5 = \"llvm.mlir.constant\"() <{value = 7 : i64}> : () \
    -> i64|  %6 = \"llvm.add\"(%0, %5) : (i64, i64) -> i64|  %4 = \"llvm.add\"(%2, %3) : (i64, i64) -> i64|  \
    \"llvm.return\"(%6) : (i64) -> ()
and and i64 x 12 6 -- (%0: i64):|  %1 = \"llvm.mlir.constant\"() <{value = 12 : i64}> : () -> i64|  %2 = \
    \"llvm.and\"(%0, %1) : (i64, i64) -> i64|  %3 = \"llvm.mlir.constant\"() <{value = 6 : i64}> : () -> i64|  %4 = \
    \"llvm.and\"(%2, %3) : (i64, i64) -> i64|  \"llvm.return\"(%4) : (i64) -> () => (%0: i64):|  %1 = \
    \"llvm.mlir.constant\"() <{value = 12 : i64}> : () -> i64|  %2 = \"llvm.and\"(%0, %1) : (i64, i64) -> i64|  %3 = \
    \"llvm.mlir.constant\"() <{value = 6 : i64}> : () -> i64|  %5 = \"llvm.mlir.constant\"() <{value = 4 : i64}> : () \
    -> i64|  %6 = \"llvm.and\"(%0, %5) : (i64, i64) -> i64|  %4 = \"llvm.and\"(%2, %3) : (i64, i64) -> i64|  \
    \"llvm.return\"(%6) : (i64) -> ()
or or i64 x 1 6 -- (%0: i64):|  %1 = \"llvm.mlir.constant\"() <{value = 1 : i64}> : () -> i64|  %2 = \"llvm.or\"(%0, \
    %1) : (i64, i64) -> i64|  %3 = \"llvm.mlir.constant\"() <{value = 6 : i64}> : () -> i64|  %4 = \"llvm.or\"(%2, \
    %3) : (i64, i64) -> i64|  \"llvm.return\"(%4) : (i64) -> () => (%0: i64):|  %1 = \"llvm.mlir.constant\"() <{value \
    = 1 : i64}> : () -> i64|  %2 = \"llvm.or\"(%0, %1) : (i64, i64) -> i64|  %3 = \"llvm.mlir.constant\"() <{value = \
    6 : i64}> : () -> i64|  %5 = \"llvm.mlir.constant\"() <{value = 7 : i64}> : () -> i64|  %6 = \"llvm.or\"(%0, %5) \
    : (i64, i64) -> i64|  %4 = \"llvm.or\"(%2, %3) : (i64, i64) -> i64|  \"llvm.return\"(%6) : (i64) -> ()
xor xor i64 x 5 3 -- (%0: i64):|  %1 = \"llvm.mlir.constant\"() <{value = 5 : i64}> : () -> i64|  %2 = \
    \"llvm.xor\"(%0, %1) : (i64, i64) -> i64|  %3 = \"llvm.mlir.constant\"() <{value = 3 : i64}> : () -> i64|  %4 = \
    \"llvm.xor\"(%2, %3) : (i64, i64) -> i64|  \"llvm.return\"(%4) : (i64) -> () => (%0: i64):|  %1 = \
    \"llvm.mlir.constant\"() <{value = 5 : i64}> : () -> i64|  %2 = \"llvm.xor\"(%0, %1) : (i64, i64) -> i64|  %3 = \
    \"llvm.mlir.constant\"() <{value = 3 : i64}> : () -> i64|  %5 = \"llvm.mlir.constant\"() <{value = 6 : i64}> : () \
    -> i64|  %6 = \"llvm.xor\"(%0, %5) : (i64, i64) -> i64|  %4 = \"llvm.xor\"(%2, %3) : (i64, i64) -> i64|  \
    \"llvm.return\"(%6) : (i64) -> ()
add add nsw i64 x 3 4 -- (%0: i64):|  %1 = \"llvm.mlir.constant\"() <{value = 3 : i64}> : () -> i64|  %2 = \
    \"llvm.add\"(%0, %1) <{overflowFlags = #llvm.overflow<nsw>}> : (i64, i64) -> i64|  %3 = \"llvm.mlir.constant\"() \
    <{value = 4 : i64}> : () -> i64|  %4 = \"llvm.add\"(%2, %3) <{overflowFlags = #llvm.overflow<nsw>}> : (i64, i64) \
    -> i64|  \"llvm.return\"(%4) : (i64) -> () => (%0: i64):|  %1 = \"llvm.mlir.constant\"() <{value = 3 : i64}> : () \
    -> i64|  %2 = \"llvm.add\"(%0, %1) <{overflowFlags = #llvm.overflow<nsw>}> : (i64, i64) -> i64|  %3 = \
    \"llvm.mlir.constant\"() <{value = 4 : i64}> : () -> i64|  %5 = \"llvm.mlir.constant\"() <{value = 7 : i64}> : () \
    -> i64|  %6 = \"llvm.add\"(%0, %5) <{overflowFlags = #llvm.overflow<nsw>}> : (i64, i64) -> i64|  %4 = \
    \"llvm.add\"(%2, %3) <{overflowFlags = #llvm.overflow<nsw>}> : (i64, i64) -> i64|  \"llvm.return\"(%6) : (i64) -> \
    ()
add add nsw i64 x -3 -4 -- (%0: i64):|  %1 = \"llvm.mlir.constant\"() <{value = -3 : i64}> : () -> i64|  %2 = \
    \"llvm.add\"(%0, %1) <{overflowFlags = #llvm.overflow<nsw>}> : (i64, i64) -> i64|  %3 = \"llvm.mlir.constant\"() \
    <{value = -4 : i64}> : () -> i64|  %4 = \"llvm.add\"(%2, %3) <{overflowFlags = #llvm.overflow<nsw>}> : (i64, i64) \
    -> i64|  \"llvm.return\"(%4) : (i64) -> () => (%0: i64):|  %1 = \"llvm.mlir.constant\"() <{value = -3 : i64}> : \
    () -> i64|  %2 = \"llvm.add\"(%0, %1) <{overflowFlags = #llvm.overflow<nsw>}> : (i64, i64) -> i64|  %3 = \
    \"llvm.mlir.constant\"() <{value = -4 : i64}> : () -> i64|  %5 = \"llvm.mlir.constant\"() <{value = -7 : i64}> : \
    () -> i64|  %6 = \"llvm.add\"(%0, %5) <{overflowFlags = #llvm.overflow<nsw>}> : (i64, i64) -> i64|  %4 = \
    \"llvm.add\"(%2, %3) <{overflowFlags = #llvm.overflow<nsw>}> : (i64, i64) -> i64|  \"llvm.return\"(%6) : (i64) -> \
    ()
add add nsw i64 x 100 27 -- (%0: i64):|  %1 = \"llvm.mlir.constant\"() <{value = 100 : i64}> : () -> i64|  %2 = \
    \"llvm.add\"(%0, %1) <{overflowFlags = #llvm.overflow<nsw>}> : (i64, i64) -> i64|  %3 = \"llvm.mlir.constant\"() \
    <{value = 27 : i64}> : () -> i64|  %4 = \"llvm.add\"(%2, %3) <{overflowFlags = #llvm.overflow<nsw>}> : (i64, i64) \
    -> i64|  \"llvm.return\"(%4) : (i64) -> () => (%0: i64):|  %1 = \"llvm.mlir.constant\"() <{value = 100 : i64}> : \
    () -> i64|  %2 = \"llvm.add\"(%0, %1) <{overflowFlags = #llvm.overflow<nsw>}> : (i64, i64) -> i64|  %3 = \
    \"llvm.mlir.constant\"() <{value = 27 : i64}> : () -> i64|  %5 = \"llvm.mlir.constant\"() <{value = 127 : i64}> : \
    () -> i64|  %6 = \"llvm.add\"(%0, %5) <{overflowFlags = #llvm.overflow<nsw>}> : (i64, i64) -> i64|  %4 = \
    \"llvm.add\"(%2, %3) <{overflowFlags = #llvm.overflow<nsw>}> : (i64, i64) -> i64|  \"llvm.return\"(%6) : (i64) -> \
    ()
add add nuw i64 x 3 4 -- (%0: i64):|  %1 = \"llvm.mlir.constant\"() <{value = 3 : i64}> : () -> i64|  %2 = \
    \"llvm.add\"(%0, %1) <{overflowFlags = #llvm.overflow<nuw>}> : (i64, i64) -> i64|  %3 = \"llvm.mlir.constant\"() \
    <{value = 4 : i64}> : () -> i64|  %4 = \"llvm.add\"(%2, %3) <{overflowFlags = #llvm.overflow<nuw>}> : (i64, i64) \
    -> i64|  \"llvm.return\"(%4) : (i64) -> () => (%0: i64):|  %1 = \"llvm.mlir.constant\"() <{value = 3 : i64}> : () \
    -> i64|  %2 = \"llvm.add\"(%0, %1) <{overflowFlags = #llvm.overflow<nuw>}> : (i64, i64) -> i64|  %3 = \
    \"llvm.mlir.constant\"() <{value = 4 : i64}> : () -> i64|  %5 = \"llvm.mlir.constant\"() <{value = 7 : i64}> : () \
    -> i64|  %6 = \"llvm.add\"(%0, %5) <{overflowFlags = #llvm.overflow<nuw>}> : (i64, i64) -> i64|  %4 = \
    \"llvm.add\"(%2, %3) <{overflowFlags = #llvm.overflow<nuw>}> : (i64, i64) -> i64|  \"llvm.return\"(%6) : (i64) -> \
    ()
add add nuw i64 x 100 100 -- (%0: i64):|  %1 = \"llvm.mlir.constant\"() <{value = 100 : i64}> : () -> i64|  %2 = \
    \"llvm.add\"(%0, %1) <{overflowFlags = #llvm.overflow<nuw>}> : (i64, i64) -> i64|  %3 = \"llvm.mlir.constant\"() \
    <{value = 100 : i64}> : () -> i64|  %4 = \"llvm.add\"(%2, %3) <{overflowFlags = #llvm.overflow<nuw>}> : (i64, \
    i64) -> i64|  \"llvm.return\"(%4) : (i64) -> () => (%0: i64):|  %1 = \"llvm.mlir.constant\"() <{value = 100 : \
    i64}> : () -> i64|  %2 = \"llvm.add\"(%0, %1) <{overflowFlags = #llvm.overflow<nuw>}> : (i64, i64) -> i64|  %3 = \
    \"llvm.mlir.constant\"() <{value = 100 : i64}> : () -> i64|  %5 = \"llvm.mlir.constant\"() <{value = 200 : i64}> \
    : () -> i64|  %6 = \"llvm.add\"(%0, %5) <{overflowFlags = #llvm.overflow<nuw>}> : (i64, i64) -> i64|  %4 = \
    \"llvm.add\"(%2, %3) <{overflowFlags = #llvm.overflow<nuw>}> : (i64, i64) -> i64|  \"llvm.return\"(%6) : (i64) -> \
    ()
add add nuw i64 x 2 -5 -- (%0: i64):|  %1 = \"llvm.mlir.constant\"() <{value = 2 : i64}> : () -> i64|  %2 = \
    \"llvm.add\"(%0, %1) <{overflowFlags = #llvm.overflow<nuw>}> : (i64, i64) -> i64|  %3 = \"llvm.mlir.constant\"() \
    <{value = -5 : i64}> : () -> i64|  %4 = \"llvm.add\"(%2, %3) <{overflowFlags = #llvm.overflow<nuw>}> : (i64, i64) \
    -> i64|  \"llvm.return\"(%4) : (i64) -> () => (%0: i64):|  %1 = \"llvm.mlir.constant\"() <{value = 2 : i64}> : () \
    -> i64|  %2 = \"llvm.add\"(%0, %1) <{overflowFlags = #llvm.overflow<nuw>}> : (i64, i64) -> i64|  %3 = \
    \"llvm.mlir.constant\"() <{value = -5 : i64}> : () -> i64|  %5 = \"llvm.mlir.constant\"() <{value = -3 : i64}> : \
    () -> i64|  %6 = \"llvm.add\"(%0, %5) <{overflowFlags = #llvm.overflow<nuw>}> : (i64, i64) -> i64|  %4 = \
    \"llvm.add\"(%2, %3) <{overflowFlags = #llvm.overflow<nuw>}> : (i64, i64) -> i64|  \"llvm.return\"(%6) : (i64) -> \
    ()
add add nuw nsw i64 x 3 4 -- (%0: i64):|  %1 = \"llvm.mlir.constant\"() <{value = 3 : i64}> : () -> i64|  %2 = \
    \"llvm.add\"(%0, %1) <{overflowFlags = #llvm.overflow<nsw, nuw>}> : (i64, i64) -> i64|  %3 = \
    \"llvm.mlir.constant\"() <{value = 4 : i64}> : () -> i64|  %4 = \"llvm.add\"(%2, %3) <{overflowFlags = \
    #llvm.overflow<nsw, nuw>}> : (i64, i64) -> i64|  \"llvm.return\"(%4) : (i64) -> () => (%0: i64):|  %1 = \
    \"llvm.mlir.constant\"() <{value = 3 : i64}> : () -> i64|  %2 = \"llvm.add\"(%0, %1) <{overflowFlags = \
    #llvm.overflow<nsw, nuw>}> : (i64, i64) -> i64|  %3 = \"llvm.mlir.constant\"() <{value = 4 : i64}> : () -> i64|  \
    %5 = \"llvm.mlir.constant\"() <{value = 7 : i64}> : () -> i64|  %6 = \"llvm.add\"(%0, %5) <{overflowFlags = \
    #llvm.overflow<nsw, nuw>}> : (i64, i64) -> i64|  %4 = \"llvm.add\"(%2, %3) <{overflowFlags = #llvm.overflow<nsw, \
    nuw>}> : (i64, i64) -> i64|  \"llvm.return\"(%6) : (i64) -> ()
sub icmp eq i64 x y 0 -- (%0: i64, %1: i64):|  %2 = \"llvm.mlir.constant\"() <{value = 0 : i64}> : () -> i64|  %3 = \
    \"llvm.sub\"(%0, %1) : (i64, i64) -> i64|  %4 = \"llvm.icmp\"(%3, %2) <{predicate = 0 : i64}> : (i64, i64) -> i1|  \
    \"llvm.return\"(%4) : (i1) -> () => (%0: i64, %1: i64):|  %2 = \"llvm.mlir.constant\"() <{value = 0 : i64}> : () \
    -> i64|  %3 = \"llvm.sub\"(%0, %1) : (i64, i64) -> i64|  %5 = \"llvm.icmp\"(%0, %1) <{predicate = 0 : i64}> : \
    (i64, i64) -> i1|  %4 = \"llvm.icmp\"(%3, %2) <{predicate = 0 : i64}> : (i64, i64) -> i1|  \"llvm.return\"(%5) : \
    (i1) -> ()
sub icmp ne i64 x y 0 -- (%0: i64, %1: i64):|  %2 = \"llvm.mlir.constant\"() <{value = 0 : i64}> : () -> i64|  %3 = \
    \"llvm.sub\"(%0, %1) : (i64, i64) -> i64|  %4 = \"llvm.icmp\"(%3, %2) <{predicate = 1 : i64}> : (i64, i64) -> i1|  \
    \"llvm.return\"(%4) : (i1) -> () => (%0: i64, %1: i64):|  %2 = \"llvm.mlir.constant\"() <{value = 0 : i64}> : () \
    -> i64|  %3 = \"llvm.sub\"(%0, %1) : (i64, i64) -> i64|  %5 = \"llvm.icmp\"(%0, %1) <{predicate = 1 : i64}> : \
    (i64, i64) -> i1|  %4 = \"llvm.icmp\"(%3, %2) <{predicate = 1 : i64}> : (i64, i64) -> i1|  \"llvm.return\"(%5) : \
    (i1) -> ()
xor icmp eq i64 x y 0 -- (%0: i64, %1: i64):|  %2 = \"llvm.mlir.constant\"() <{value = 0 : i64}> : () -> i64|  %3 = \
    \"llvm.xor\"(%0, %1) : (i64, i64) -> i64|  %4 = \"llvm.icmp\"(%3, %2) <{predicate = 0 : i64}> : (i64, i64) -> i1|  \
    \"llvm.return\"(%4) : (i1) -> () => (%0: i64, %1: i64):|  %2 = \"llvm.mlir.constant\"() <{value = 0 : i64}> : () \
    -> i64|  %3 = \"llvm.xor\"(%0, %1) : (i64, i64) -> i64|  %5 = \"llvm.icmp\"(%0, %1) <{predicate = 0 : i64}> : \
    (i64, i64) -> i1|  %4 = \"llvm.icmp\"(%3, %2) <{predicate = 0 : i64}> : (i64, i64) -> i1|  \"llvm.return\"(%5) : \
    (i1) -> ()
xor icmp ne i64 x y 0 -- (%0: i64, %1: i64):|  %2 = \"llvm.mlir.constant\"() <{value = 0 : i64}> : () -> i64|  %3 = \
    \"llvm.xor\"(%0, %1) : (i64, i64) -> i64|  %4 = \"llvm.icmp\"(%3, %2) <{predicate = 1 : i64}> : (i64, i64) -> i1|  \
    \"llvm.return\"(%4) : (i1) -> () => (%0: i64, %1: i64):|  %2 = \"llvm.mlir.constant\"() <{value = 0 : i64}> : () \
    -> i64|  %3 = \"llvm.xor\"(%0, %1) : (i64, i64) -> i64|  %5 = \"llvm.icmp\"(%0, %1) <{predicate = 1 : i64}> : \
    (i64, i64) -> i1|  %4 = \"llvm.icmp\"(%3, %2) <{predicate = 1 : i64}> : (i64, i64) -> i1|  \"llvm.return\"(%5) : \
    (i1) -> ()";
