//! The operations that passes run on.
ghost use Rattle.pliron_core.specs.Tree.{IsLive};

use pliron_core::{Children, Context, Operation, Ptr};
use std::alloc::{AllocError, Global};

/// An operation that passes run on.
#[derive(Clone, Copy)]
pub struct Subject {
    pub op: Ptr<Operation>,
    /// Its number among the operations directly inside the text's operation, where it stands there.
    pub number: Option<usize>,
}

/// The operation itself, or those directly inside it. Asks that it is live (`is_live` tests it). Errors: allocation
/// failure. Cost: linear in them.
pub fn subjects_of(
    alloc: Global,
    is_nested: bool,
    root: Ptr<Operation>,
    ctx: &Context,
) -> Result<Vec<Subject>, AllocError>
    requires { IsLive ctx.now.tree root }
{
    let mut subjects = Vec::new(alloc);
    if !is_nested {
        subjects.push(Subject {
            op: root,
            number: None,
        })?;
        return Ok(subjects);
    }
    for op in Children::new(root, ctx) {
        let number = Some(subjects.len());
        subjects.push(Subject { op, number })?;
    }
    Ok(subjects)
}
