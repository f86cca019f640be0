//! What is seen of a module around passes.
ghost use Rattle.std.specs.Prelude.{◌≡◌};
ghost use Rattle.pliron_core.specs.Writes.{no_tree};

use crate::notation::{DocumentView, ModuleNotation};
use crate::source::ModuleSource;
use crate::stages::StageCounts;
use crate::tally::ClassTally;
use pliron_core::Context;
use pliron_driver::{Document, Notation, Observer, TextFailure};
use pliron_laws::OptError;
use std::alloc::Global;

/// Counts of live operations by class, before and after, and lines on what passes do with functions.
#[derive(Drop)]
pub struct ModuleCounts {
    pub before: ClassTally,
    pub after: ClassTally,
    pub notes: String,
}

/// The options of passes on a module.
#[derive(Clone, Copy, Debug)]
pub struct ModuleOptions {
    /// Whether to report how much is live before and after each pass, and what the pass made and erased.
    pub counts: bool,
    /// Whether the operation is verified after each pass.
    pub verifies: bool,
    /// Whether to report the time of each pass.
    pub times: bool,
    /// Whether what is printed is read again and compared.
    pub checks: bool,
}

/// What is seen of a module around the passes, as far as the options ask for it.
#[derive(Drop)]
pub struct ModuleObserver<'s> {
    options: ModuleOptions,
    source: ModuleSource<'s>,
    /// What was live before and after.
    pub counts: Option<ModuleCounts>,
    /// What stages did before the passes ran.
    pub stages: StageCounts,
    /// Whether what was printed says the same tree when it is read again.
    pub agrees: Option<bool>,
}

impl<'s> ModuleObserver<'s> {
    /// The observer of the module that this text says, by whom nothing was seen. Cost: constant.
    pub fn new(options: ModuleOptions, source: ModuleSource<'s>) -> Self {
        ModuleObserver {
            options,
            source,
            counts: None,
            stages: StageCounts::default(),
            agrees: None,
        }
    }
}

impl<N: ModuleNotation> Observer<N> for ModuleObserver<'_> {
    fn before(
        &mut self,
        alloc: Global,
        document: &Document<N::Sheet>,
        ctx: &Context,
    ) -> Result<(), OptError> {
        self.stages = N::stages_of(&document.sheet);
        if self.options.counts {
            let notes = N::notes_of(alloc, document, &self.source, ctx)?;
            let before = ClassTally::of(document.root, ctx);
            self.counts = Some(ModuleCounts {
                before,
                after: before,
                notes,
            });
        }
        Ok(())
    }

    fn after(
        &mut self,
        alloc: Global,
        document: &Document<N::Sheet>,
        printed: &[u8],
        ctx: &Context,
    ) -> Result<(), OptError> {
        if self.options.checks {
            self.agrees = Some(reads_as::<N>(alloc, printed, document, ctx)?);
        }
        if let Some(counts) = &mut self.counts {
            counts.after = ClassTally::of(document.root, ctx);
        }
        Ok(())
    }
}

// Whether this text says the module as it is now.
fn reads_as<N: ModuleNotation>(
    alloc: Global,
    text: &[u8],
    document: &Document<N::Sheet>,
    ctx: &Context,
) -> Result<bool, OptError> {
    let mut again = Context::new(alloc);
    reads_as_in::<N>(alloc, text, document, ctx, &mut again)
}

// The same, by reading it into another context.
fn reads_as_in<N: ModuleNotation>(
    alloc: Global,
    text: &[u8],
    document: &Document<N::Sheet>,
    ctx: &Context,
    again: &mut Context,
) -> Result<bool, OptError>
    requires { again.old.tree ≡ no_tree }
{
    match N::Plain::read_document(alloc, text, again) {
        Ok(second) => {
            let first = DocumentView { document, ctx };
            let second = DocumentView {
                document: &second,
                ctx: again,
            };
            N::is_same(alloc, &first, &second)
        }
        Err(TextFailure::Refused(error)) => Err(error),
        Err(TextFailure::Text(_)) => Ok(false),
    }
}
