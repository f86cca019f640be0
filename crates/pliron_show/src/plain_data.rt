//! Data of dialects of 64-bit numbers.
ghost use Rattle.std.specs.Prelude.{MatchOption};
ghost use Rattle.pliron_laws.specs.Datum.{Datum as DatumSeen};
ghost use Rattle.pliron_evaluator.specs.Evaluator.{datum_of_value};
ghost use Rattle.pliron_show.specs.Words.{says_long_number};

use pliron_evaluator::evaluator::Datum;
use std::alloc::AllocError;

/// The number of 64 signed bits that the word is, in decimals. Cost: linear in it.
pub fn datum_of_number(word: &str) -> Option<Datum>
    ensures { MatchOption result ((datum : DatumSeen) → ¬ says_long_number word.now datum)
        (λ datum. says_long_number word.now (datum_of_value datum)) }
{
    match word.parse::<i64>() {
        Ok(number) => Some(Datum::Number(i128::from(number))),
        Err(_) => None,
    }
}

/// Writes a datum: a number, a word, or data in brackets. Errors: allocation failure. Cost: linear in it.
pub fn write_plain_datum(text: &mut String, datum: &Datum) -> Result<(), AllocError> {
    match datum {
        Datum::Empty => text.push_str("()"),
        Datum::Number(number) => {
            let number = *number;
            write!(text, "{number}")
        }
        Datum::Text(word) => text.push_str(word.as_str()),
        Datum::Join(first, others) => {
            text.push_str("(")?;
            write_plain_datum(text, first)?;
            text.push_str(" ")?;
            write_plain_datum(text, others)?;
            text.push_str(")")
        }
    }
}
