//! How many operations of each class are in a module.
ghost use Rattle.pliron_core.specs.Tree.{IsLive};

use pliron_core::{Contents, Context, Operation, Ptr};
use pliron_dialect_mlir::{Class, class_of_head};
use std::alloc::AllocError;

/// How many operations of a module are of each class.
#[derive(Clone, Copy, Debug, Default, Drop)]
pub struct ClassTally {
    pub constants: usize,
    /// Those that fold to numbers or to one of their operands.
    pub folding: usize,
    /// The other ones that are pure.
    pub opaque: usize,
    pub effects: usize,
    /// Jumps, branches, switches, and those that leave.
    pub terminators: usize,
    pub functions: usize,
    /// The other ones with regions, and the module.
    pub regions: usize,
}

impl ClassTally {
    // One more of the class.
    fn add(&mut self, class: Option<Class>) {
        let count = match class {
            Some(Class::Constant) => &mut self.constants,
            Some(Class::Binary(_))
            | Some(Class::Compare)
            | Some(Class::Cast(_))
            | Some(Class::Select) => &mut self.folding,
            Some(Class::Opaque) => &mut self.opaque,
            Some(Class::Jump)
            | Some(Class::Branch)
            | Some(Class::Switch)
            | Some(Class::Leave)
            | Some(Class::Unreachable)
            | Some(Class::Fork) => &mut self.terminators,
            Some(Class::Root) | Some(Class::Function) => &mut self.functions,
            Some(Class::Regions) | Some(Class::Module) => &mut self.regions,
            Some(Class::Effect) | Some(Class::Local) | Some(Class::Call) | None => {
                &mut self.effects
            }
        };
        *count = count.saturating_add(1);
    }

    /// Counts the operation and all operations inside it. Asks that it is live (`is_live` tests it). Cost: one step for
    /// each operation.
    pub fn of(root: Ptr<Operation>, ctx: &Context) -> Self
        requires { IsLive ctx.now.tree root }
    {
        let mut tally = ClassTally::default();
        tally.add(class_of_head(root.head(ctx)));
        for op in Contents::new(root, ctx) {
            if op.is_live(ctx) {
                tally.add(class_of_head(op.head(ctx)));
            }
        }
        tally
    }
}

// Writes a line of the table.
fn write_line(
    report: &mut String,
    name: &str,
    before: usize,
    after: usize,
) -> Result<(), AllocError> {
    write!(report, "{name:<12} {before:>10} {after:>10}\n")
}

/// Writes how many operations of each class were live before and after. Errors: allocation failure. Cost: constant.
pub fn write_tallies(
    report: &mut String,
    before: &ClassTally,
    after: &ClassTally,
) -> Result<(), AllocError> {
    report.push_str("class            before      after\n")?;
    write_line(report, "constants", before.constants, after.constants)?;
    write_line(report, "folding", before.folding, after.folding)?;
    write_line(report, "opaque", before.opaque, after.opaque)?;
    write_line(report, "effects", before.effects, after.effects)?;
    write_line(report, "terminators", before.terminators, after.terminators)?;
    write_line(report, "functions", before.functions, after.functions)?;
    write_line(report, "regions", before.regions, after.regions)
}
