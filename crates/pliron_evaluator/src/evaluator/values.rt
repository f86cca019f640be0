//! The data that operations pass, the moves that they make, and what is seen of a run.
ghost use Rattle.std.specs.Prelude.{◌≡◌, [], ◌∷◌, map, IfOk};
ghost use Rattle.pliron_core.specs.Tree.{IsLive};
ghost use Rattle.pliron_laws.specs.Datum.{Join, datum_of as content_of};
ghost use Rattle.pliron_laws.specs.Answers.{ReadsShape};
ghost use Rattle.pliron_evaluator.specs.Evaluator.{datum_of_value, move_of};

use pliron_core::{AttrObj, Context, Operation, Ptr, Text};
use pliron_laws::HasMeaning;
use std::alloc::{AllocError, Global};

/// What a value may be. A list of data is a chain of `Join`s that ends in `Empty`.
#[derive(Debug, Drop, PartialEq, Eq)]
pub enum Datum {
    Empty,
    Number(i128),
    Text(Text),
    Join(Box<Datum>, Box<Datum>),
}

fn copy_of(alloc: Global, text: &Text) -> Result<Text, AllocError>
    ensures { IfOk result (λ copy. copy ≡ text.now) }
{
    Ok(Text::new(String::from_str(alloc, text.as_str())?))
}

impl Datum {
    /// The content of an attribute.
    ///
    /// Errors: allocation failure. Cost: the length of a text.
    pub fn of(alloc: Global, attr: &AttrObj) -> Result<Datum, AllocError>
        ensures { IfOk result (λ datum. datum_of_value datum ≡ content_of attr.now) }
    {
        match attr {
            AttrObj::Int(number) => Ok(Datum::Number(*number)),
            AttrObj::Text(text) => Ok(Datum::Text(copy_of(alloc, text)?)),
        }
    }

    /// The two data as one.
    ///
    /// Errors: allocation failure. Cost: constant.
    pub fn join(alloc: Global, first: Datum, others: Datum) -> Result<Datum, AllocError>
        ensures { IfOk result (λ datum. datum_of_value datum ≡ Join (datum_of_value first) (datum_of_value others)) }
    {
        let first = Box::new(alloc, first)?;
        let others = Box::new(alloc, others)?;
        Ok(Datum::Join(first, others))
    }

    /// An equal datum.
    ///
    /// Errors: allocation failure. Cost: the numbers and the lengths of the texts in it.
    pub fn copy(&self, alloc: Global) -> Result<Datum, AllocError>
        ensures { IfOk result (λ datum. datum_of_value datum ≡ datum_of_value self.now) }
    {
        match self {
            Datum::Empty => Ok(Datum::Empty),
            Datum::Number(number) => Ok(Datum::Number(*number)),
            Datum::Text(text) => Ok(Datum::Text(copy_of(alloc, text)?)),
            Datum::Join(first, others) => {
                let first = first.copy(alloc)?;
                let others = others.copy(alloc)?;
                Datum::join(alloc, first, others)
            }
        }
    }
}

/// One move of an operation.
#[derive(Debug, Drop, PartialEq, Eq)]
pub enum Move {
    /// Gives the results.
    Give(Vec<Datum>),
    /// Visits the region with this index with these values, and leaves itself a memo.
    Visit(usize, Vec<Datum>, Datum),
    /// Jumps to the successor with this index with these values.
    Goto(usize, Vec<Datum>),
    /// Ends the visit that its block is in, with these values.
    Leave(Vec<Datum>),
    /// Emits an effect, and leaves itself a memo.
    Emit(Datum, Datum),
    /// Makes no further move, nor does the run.
    Trap,
}

/// What a run is given: the inputs of its root, what the world answers, in order, and how many steps it may make.
#[derive(Drop)]
pub struct RunInputs {
    pub inputs: Vec<Datum>,
    pub world: Vec<Datum>,
    pub fuel: usize,
}

/// What can be seen of a run. Effects come latest first.
#[derive(Debug, Drop, PartialEq, Eq)]
pub enum Sight {
    /// The run ended with these values, after these effects.
    Ended(Vec<Datum>, Vec<Datum>),
    /// The run trapped, after these effects.
    Trapped(Vec<Datum>),
    /// The run made no further move, since its steps or the world's answers were used up.
    Reached(Vec<Datum>),
}

/// A dialect whose operations can be run.
pub trait Evaluate: HasMeaning {
    /// The move that the operation makes with this memo on this input.
    ///
    /// Asks that the operation is live (`is_live` tests it). Errors: allocation failure.
    fn next_move(
        alloc: Global,
        ctx: &Context,
        op: Ptr<Operation>,
        memo: &Datum,
        input: &[Datum],
    ) -> Result<Move, AllocError>
        requires { IsLive ctx.now.tree op }
        ensures { IfOk result (λ next. ReadsShape Self.meaning (λ s. Self.meaning.act s (datum_of_value memo.now)
            (map datum_of_value input.now)) ctx.now.tree op (move_of next)) };
}

/// Copies of the data, in order.
pub(crate) fn all_copies(alloc: Global, items: &[Datum]) -> Result<Vec<Datum>, AllocError>
    ensures { IfOk result (λ copies. map datum_of_value copies.items ≡ map datum_of_value items.now) }
{
    let mut copies = Vec::new(alloc);
    for datum in items {
        copies.push(datum.copy(alloc)?)?;
    }
    Ok(copies)
}

/// The datum alone.
pub(crate) fn one(alloc: Global, datum: Datum) -> Result<Vec<Datum>, AllocError>
    ensures { IfOk result (λ whole. whole.items ≡ datum ∷ []) }
{
    let mut data = Vec::new(alloc);
    data.push(datum)?;
    Ok(data)
}
