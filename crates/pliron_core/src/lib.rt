//! The IR: a tree of operations, regions and blocks, named by handles, with the use lists of values and blocks.
//!
//! It knows handles, attributes, heads, a rewriter that reports what it does, and iterators over what is inside an
//! operation. It knows nothing of what an operation means, of dialects or of optimisations.
//!
//! A pass that rewrites what it walks over takes the items into a `Vec` first, since an iterator lends the context.
#![tactic(auto)]

mod arguments;
mod attrs;
mod children;
mod clearance;
mod compaction;
mod contents;
mod context;
mod counted_slots;
mod inline_list;
mod keys;
mod laws;
mod links;
mod rewriter;
mod slot_counts;
mod use_slots;
mod uses;

pub use attrs::{AttrObj, Attrs, Head, IRStatus, Text};
pub use children::Children;
pub use contents::Contents;
pub use context::{Context, Def, NoMemory, OperationEntry, RegionSlot};
pub use inline_list::InlineList;
pub use keys::{BasicBlock, Operation, Ptr, Region, Value};
pub use laws::change_laws;
pub use rewriter::{IRRewriter, OpInsertionPoint, Rewriter};
pub use uses::Use;
