//! The tables of the dialect.
ghost use Rattle.std.specs.Prelude.{◌≡◌};
ghost use Rattle.pliron_core.specs.Tree.{IsLive};
ghost use Rattle.pliron_laws.specs.Answers.{ReadsHead};
ghost use Rattle.pliron_dialect_bench.specs.Bench.{kind_of, takes_operands as operands_taken, takes_attributes as attributes_taken, has_number as is_one_number, has_count as is_one_count, is_count};
ghost use Rattle.pliron_dialect_bench.specs.BenchMoves.{bench_tables};
ghost use Rattle.pliron_dialect_bench.specs.BenchFits.{keeps_bench};

use crate::kind::BenchKind;
use crate::numbers::{
    edge_of, is_number, known_number, known_product, known_quotient, known_sum, wrap,
};
use pliron_core::{AttrObj, Attrs, Context, Head, Operation, Ptr};
use pliron_dialect::{Annihilator, Counting, Form, Identity, Otherwise, Roles};

/// The kind of the operation, if it is one of this dialect. Asks that the operation is live (`is_live` tests
/// it). Cost: constant.
pub fn kind_at(op: Ptr<Operation>, ctx: &Context) -> Option<BenchKind>
    requires { IsLive ctx.now.tree op }
    ensures { ReadsHead (λ h. kind_of h.kind) ctx.now.tree op result }
{
    BenchKind::from_number(op.head(ctx).kind)
}

// Whether the one attribute is a number within 64 signed bits.
fn has_number(attrs: &Attrs) -> bool
    ensures { result ≡ is_one_number attrs.now }
{
    attrs.len() == 1 && is_number(attrs.get(0))
}

// Whether the one attribute counts some of the operands behind the first one.
fn has_count(attrs: &Attrs, operands: usize) -> bool
    ensures { result ≡ is_one_count attrs.now operands }
{
    attrs.len() == 1 && counts_below(attrs.get(0), operands)
}

fn counts_below(attr: &AttrObj, operands: usize) -> bool
    ensures { result ≡ is_count attr.now operands }
{
    match attr {
        AttrObj::Int(number) => 0 <= *number && *number < operands as i128,
        AttrObj::Text(_) => false,
    }
}

impl BenchKind {
    // Whether an operation of the kind may have so many operands.
    fn takes_operands(self, operands: usize) -> bool
        ensures { result ≡ operands_taken self operands }
    {
        match self {
            BenchKind::Add | BenchKind::Mul | BenchKind::Div => operands == 2,
            BenchKind::Print | BenchKind::Fork => operands == 1,
            BenchKind::Sink | BenchKind::Scope | BenchKind::Br | BenchKind::Cbr | BenchKind::Ret =>
                true,
            _ => operands == 0,
        }
    }

    // Whether an operation of the kind may have these attributes, with so many operands.
    fn takes_attributes(self, attrs: &Attrs, operands: usize) -> bool
        ensures { result ≡ attributes_taken self attrs.now operands }
    {
        match self {
            BenchKind::Const => has_number(attrs),
            BenchKind::Cbr => has_count(attrs, operands),
            _ => attrs.is_empty(),
        }
    }
}

// The number in more bits, where there is one.
#[inline(always)]
fn widen(number: Option<i64>) -> Option<i128>
    ensures { result ≡ number }
{
    match number {
        Some(number) => Some(number as i128),
        None => None,
    }
}

impl Roles for BenchKind {
    ghost tables = { bench_tables };

    #[inline(always)]
    fn number(self) -> u32 {
        BenchKind::number(self)
    }

    #[inline(always)]
    fn from_number(number: u32) -> Option<Self> {
        BenchKind::from_number(number)
    }

    fn constant() -> Self {
        Self::Const
    }

    fn jump() -> Self {
        Self::Br
    }

    /// | Kinds | Form |
    /// |---|---|
    /// | `mod`, `box` | hold a region that is never visited; a `mod` says nothing of side effects |
    /// | `func` | acts by a table of its own; it says nothing of side effects, and that arguments of blocks may go |
    /// | `read`, `print` | act by tables of their own, with side effects |
    /// | `add`, `mul`, `div` | fold two numbers; a `div` traps where there is no quotient |
    /// | `pair`, `sink` | give what the interpretation says: 1 and 2, nothing |
    /// | `scope` | names the operand of each argument's index |
    /// | `cbr` | chooses, with the operands of the first edge counted |
    /// | `fork` | forks by a table of its own, and says nothing of side effects |
    #[inline(always)]
    fn form(self) -> Form {
        match self {
            BenchKind::Mod => Form::Holds(false),
            BenchKind::Func => Form::Acts(false, true),
            BenchKind::Const => Form::Constant,
            BenchKind::Add | BenchKind::Mul => Form::Folds(2, Otherwise::Never),
            BenchKind::Div => Form::Folds(2, Otherwise::Traps),
            BenchKind::Read | BenchKind::Print => Form::Acts(true, false),
            BenchKind::Pair | BenchKind::Sink => Form::Opaque,
            BenchKind::Scope => Form::Names,
            BenchKind::Box => Form::Holds(true),
            BenchKind::Br => Form::Jumps,
            BenchKind::Cbr => Form::Chooses(Counting::OfFirst),
            BenchKind::Ret => Form::Leaves,
            BenchKind::Fork => Form::Forks(false),
        }
    }

    /// The wrapped sum of two known numbers; the wrapped product, also where one of them is known to be 0; the
    /// quotient, unless the division traps.
    #[inline(always)]
    fn fold_numbers(self, _head: &Head, numbers: &[Option<i128>]) -> Option<i128> {
        let first = known_number(numbers, 0);
        let second = known_number(numbers, 1);
        match self {
            BenchKind::Add => widen(known_sum(first, second)),
            BenchKind::Mul => widen(known_product(first, second)),
            BenchKind::Div => widen(known_quotient(first, second)),
            _ => None,
        }
    }

    /// Of a `mul` a factor that is 0; of a `div` a dividend that is 0, and 1 where both operands are the same value:
    /// the `div` itself traps where that is 0, and gives nothing.
    #[inline(always)]
    fn identity(self, _head: &Head) -> Identity {
        match self {
            BenchKind::Mul => Identity {
                annihilator: Some(Annihilator {
                    operand: 0,
                    either_side: true,
                }),
                ..Identity::none()
            },
            BenchKind::Div => Identity {
                equal: Some(1),
                annihilator: Some(Annihilator {
                    operand: 0,
                    either_side: false,
                }),
                ..Identity::none()
            },
            _ => Identity::none(),
        }
    }

    fn picks(self, _number: i128) -> Option<bool> {
        None
    }

    /// Of a `cbr` the second edge if the condition counts as 0, else the first one.
    #[inline(always)]
    fn choose_edge(self, _head: &Head, _edges: usize, number: i128) -> Option<usize> {
        match self {
            BenchKind::Cbr => Some(edge_of(wrap(number))),
            _ => None,
        }
    }

    fn allows(
        self,
        head: &Head,
        operands: usize,
        results: usize,
        successors: usize,
        regions: usize,
    ) -> bool {
        head.ssa == BenchKind::is_ssa(self)
            && self.takes_attributes(&head.attrs, operands)
            && self.takes_operands(operands)
            && results == self.result_count()
            && successors == self.successor_count()
            && regions == self.region_count()
    }

    #[inline(always)]
    fn is_ssa(self) -> bool {
        BenchKind::is_ssa(self)
    }

    #[inline(always)]
    fn accepts(attr: &AttrObj) -> bool {
        is_number(attr)
    }

    /// Of a `scope` the operand with the index of the argument, where there is one.
    #[inline(always)]
    fn entry_operand(self, operands: usize, _region: usize, argument: usize) -> Option<usize> {
        match self {
            BenchKind::Scope if argument < operands => Some(argument),
            _ => None,
        }
    }

    #[inline(always)]
    fn checks_edges(self) -> bool {
        matches!(self, BenchKind::Cbr)
    }

    ghost keeps_tables = { keeps_bench };
}
