//! How large operations are.
use crate::words::{CALLING, FREE};

/// What a call costs, as others do. Source: LLVM's inliner, where a call costs 25 and an instruction 5.
const CALL_SIZE: u32 = 5;

/// The size of an operation of this name, which has its quotes: 1 for most, 0 where no code is made for it. Cost: constant.
pub(crate) fn size_of_name(name: &[u8]) -> u32 {
    if FREE.iter().any(|it| it.as_bytes() == name) {
        0
    } else if CALLING.iter().any(|it| it.as_bytes() == name) {
        CALL_SIZE
    } else {
        1
    }
}
