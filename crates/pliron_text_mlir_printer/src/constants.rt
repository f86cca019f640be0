//! How constants and jumps are printed that folding made.
ghost use Rattle.std.specs.Prelude.{◌≡◌};
ghost use Rattle.pliron_text_mlir_printer.specs.Names.{jump_name, constant_name};

use itoa::Buffer;
use pliron_core::{AttrObj, Context, Head, Operation, Ptr};
use pliron_dialect_mlir::{Class, class_of_head, form_of, form_of_constant, integer_of};
use pliron_text_mlir_syntax::{MAX_DEPTH, OperationForm, Sheet};
use std::alloc::AllocError;

/// The dialect that an operation made by folding is written in.
#[derive(Clone, Copy, Debug, PartialEq, Eq)]
pub enum TargetDialect {
    Llvm,
    /// `arith` and `cf`.
    Standard,
}

impl TargetDialect {
    /// The name of a jump. Cost: constant.
    pub fn jump(self) -> &'static [u8]
        ensures { result.now ≡ jump_name self }
    {
        match self {
            TargetDialect::Llvm => b"\"llvm.br\"",
            TargetDialect::Standard => b"\"cf.br\"",
        }
    }

    /// The name of a constant. Cost: constant.
    pub fn constant(self) -> &'static [u8]
        ensures { result.now ≡ constant_name self }
    {
        match self {
            TargetDialect::Llvm => b"\"llvm.mlir.constant\"",
            TargetDialect::Standard => b"\"arith.constant\"",
        }
    }
}

// The form of this number, if there is one.
fn form_by_number(number: Option<u128>, sheet: &Sheet) -> Option<OperationForm> {
    sheet.form(usize::try_from(number?).ok()?)
}

/// The form of an operation with this head, if it has one. Cost: constant.
pub fn form_of_head(head: &Head, sheet: &Sheet) -> Option<OperationForm> {
    form_by_number(form_of(head), sheet)
}

/// The form of the constants with this datum, if it is one. Cost: constant.
pub fn form_of_datum(datum: i128, sheet: &Sheet) -> Option<OperationForm> {
    form_by_number(form_of_constant(datum), sheet)
}

/// The datum of a constant with this head; none of any other operation. Cost: constant.
pub fn datum_of(head: &Head) -> Option<i128> {
    if class_of_head(head) != Some(Class::Constant) || head.attrs.is_empty() {
        return None;
    }
    match head.attrs.get(0) {
        AttrObj::Int(datum) => Some(*datum),
        AttrObj::Text(_) => None,
    }
}

// The name of the operation with quotes, empty where it has none.
fn name_of<'s>(op: Ptr<Operation>, sheet: &'s Sheet, ctx: &Context) -> &'s [u8] {
    if !op.is_live(ctx) {
        return &[];
    }
    match form_of_head(op.head(ctx), sheet) {
        Some(form) => sheet.text(form.name),
        None => &[],
    }
}

/// The dialect of the function around the operation, or of the next operation around it that is of the dialect `llvm`.
/// Cost: the depth of the operation.
pub fn dialect_of(op: Ptr<Operation>, sheet: &Sheet, ctx: &Context) -> TargetDialect {
    let mut here = op;
    // An operation is inside at most so many.
    for _ in 0..MAX_DEPTH {
        if !here.is_live(ctx) {
            break;
        }
        let Some(around) = here.get_parent_op(ctx) else {
            break;
        };
        let name = name_of(around, sheet, ctx);
        if name.starts_with(b"\"llvm.") {
            return TargetDialect::Llvm;
        }
        if name == b"\"func.func\"".as_slice() {
            return TargetDialect::Standard;
        }
        here = around;
    }
    TargetDialect::Standard
}

/// Writes a number in digits. Errors: allocation failure. Cost: constant.
pub fn write_number(number: u64, out: &mut Vec<u8>) -> Result<(), AllocError> {
    let mut buffer = Buffer::new();
    out.extend_from_slice(buffer.format(number).as_bytes())
}

/// Writes the number of these bits, read as signed, and a truth as a word. Errors: allocation failure. Cost: constant.
pub fn write_signed(width: u32, bits: u64, out: &mut Vec<u8>) -> Result<(), AllocError> {
    if width == 1 {
        return out.extend_from_slice(if bits == 1 {
            b"true".as_slice()
        } else {
            b"false".as_slice()
        });
    }
    let unused = if width > 0 && width < 64 {
        64 - width
    } else {
        0
    };
    let signed = (bits << unused).cast_signed() >> unused;
    if signed < 0 {
        out.extend_from_slice(b"-")?;
    }
    write_number(signed.unsigned_abs(), out)
}

/// Writes the type of numbers of this width. Errors: allocation failure. Cost: constant.
pub fn write_type(width: u32, out: &mut Vec<u8>) -> Result<(), AllocError> {
    if width == 65 {
        return out.extend_from_slice(b"index");
    }
    out.extend_from_slice(b"i")?;
    write_number(width as u64, out)
}

// The type of a single result, which may be written in brackets.
fn without_brackets(text: &[u8]) -> &[u8] {
    match text.strip_prefix(b"(".as_slice()) {
        Some(rest) => rest.strip_suffix(b")".as_slice()).unwrap_or(rest),
        None => text,
    }
}

/// Writes the type of a constant that folding made. Errors: allocation failure. Cost: its length.
pub fn type_of_datum(
    datum: Option<i128>,
    sheet: &Sheet,
    out: &mut Vec<u8>,
) -> Result<(), AllocError> {
    let Some(datum) = datum else {
        return Ok(());
    };
    if let Some((width, _)) = integer_of(datum) {
        return write_type(width, out);
    }
    match form_of_datum(datum, sheet) {
        Some(form) => out.extend_from_slice(without_brackets(sheet.text(form.results))),
        None => Ok(()),
    }
}

/// Writes a constant that folding made, behind the name of its result. Errors: allocation failure. Cost: constant.
pub fn write_constant(
    datum: i128,
    dialect: TargetDialect,
    out: &mut Vec<u8>,
) -> Result<(), AllocError> {
    let Some((width, bits)) = integer_of(datum) else {
        return Ok(());
    };
    let dialect = if width == 65 {
        TargetDialect::Standard
    } else {
        dialect
    };
    out.extend_from_slice(dialect.constant())?;
    out.extend_from_slice(b"() <{value = ")?;
    write_signed(width, bits, out)?;
    if width != 1 {
        out.extend_from_slice(b" : ")?;
        write_type(width, out)?;
    }
    out.extend_from_slice(b"}> : () -> ")?;
    write_type(width, out)?;
    out.extend_from_slice(b"\n")
}
