//! The tables, as code.
ghost use Rattle.std.specs.Prelude.{◌≡◌, ◌∷◌, [], ◌<◌, ◌≤◌, ◌^◌, ℕ, Some, drop, IfSome};
ghost use Rattle.std.specs.Option.{option_map};
ghost use Rattle.pliron_bits.specs.Operators.{binary, predicate_of_number};
ghost use Rattle.pliron_dialect_mlir.specs.Data.{bits_of_width, truth as truth_of};
ghost use Rattle.pliron_dialect_mlir.specs.Classes.{of_one, of_two, truth_of_two, computed_by, compared_by, cast_of, cast_by, branch_edge as branch_edge_of, switch_edge as switch_edge_of, edge_of_case as edge_of_case_in, mlir, keeps_mlir};

use crate::attributes::{attribute_at, attribute_count, flags_at, width_at};
use crate::data::{bits_at, counted_bits, is_width, number};
use crate::identities::{identity_at, identity_of_cast, identity_of_compare};
use crate::kind::{Class, Interpretation, MlirKind, class_number, form, numbered_class};
use pliron_bits::{BinaryOperator, Cast, Flags, Predicate, compare, compute, convert};
use pliron_core::{AttrObj, Attrs, Head};
use pliron_dialect::{Form, Identity, Roles};
use std::marker::PhantomData;

// What is computed of the bits, where both are known and it has a meaning.
fn computed_of(
    operator: BinaryOperator,
    flags: Flags,
    width: u32,
    a: Option<u64>,
    b: Option<u64>,
) -> Option<u64>
    requires first { IfSome a (λ bits. bits < 2 ^ bits_of_width width) }
    requires width { IfSome a (λ bits. (1 ≤ width) × (width ≤ 65)) }
    requires second { IfSome b (λ bits. bits < 2 ^ bits_of_width width) }
    ensures { result ≡ of_two (binary operator flags (bits_of_width width)) a b }
{
    match a {
        Some(a) => match b {
            Some(b) => compute(operator, flags, counted_bits(width), a, b),
            None => None,
        },
        None => None,
    }
}

// The integer that an operation with this head computes of two.
fn compute_numbers(operator: BinaryOperator, head: &Head, numbers: &[Option<i128>]) -> Option<i128>
    ensures { result ≡ computed_by operator head.now numbers.now }
{
    let [a, b] = numbers else {
        return None;
    };
    let Some(a) = a else {
        return None;
    };
    let Some(b) = b else {
        return None;
    };
    let width = width_at(&head.attrs, 0);
    let flags = flags_at(&head.attrs, 1);
    let bits = computed_of(
        operator,
        flags,
        width,
        bits_at(width, *a),
        bits_at(width, *b),
    );
    match bits {
        Some(bits) => Some(number(width, bits)),
        None => None,
    }
}

// The predicate with this number, if there is one.
pub(crate) fn numbered_predicate(number: u128) -> Option<Predicate>
    ensures { result ≡ predicate_of_number number }
{
    if number < 10 {
        Predicate::from_number(number as u32)
    } else {
        None
    }
}

// Whether the predicate holds of the bits, as a number.
fn truth_of_bits(predicate: Option<Predicate>, width: u32, a: u64, b: u64) -> Option<u64>
    requires at_least { 1 ≤ width }
    requires at_most { width ≤ 64 }
    requires first { a < 2 ^ width }
    requires second { b < 2 ^ width }
    ensures { result ≡ truth_of_two predicate width a b }
{
    match predicate {
        Some(predicate) => Some(u64::from(compare(predicate, width, a, b))),
        None => None,
    }
}

// Whether the predicate holds of the bits, where both are known, as a number.
fn compared_of(
    predicate: Option<Predicate>,
    width: u32,
    a: Option<u64>,
    b: Option<u64>,
) -> Option<u64>
    requires first { IfSome a (λ bits. bits < 2 ^ bits_of_width width) }
    requires width { IfSome a (λ bits. (1 ≤ width) × (width ≤ 65)) }
    requires second { IfSome b (λ bits. bits < 2 ^ bits_of_width width) }
    ensures { result ≡ of_two (truth_of_two predicate (bits_of_width width)) a b }
{
    match a {
        Some(a) => match b {
            Some(b) => truth_of_bits(predicate, counted_bits(width), a, b),
            None => None,
        },
        None => None,
    }
}

// The truth that an operation with this head gives of two integers.
fn compare_numbers(head: &Head, numbers: &[Option<i128>]) -> Option<i128>
    ensures { result ≡ compared_by head.now numbers.now }
{
    let [a, b] = numbers else {
        return None;
    };
    let Some(a) = a else {
        return None;
    };
    let Some(b) = b else {
        return None;
    };
    let width = width_at(&head.attrs, 0);
    let predicate = numbered_predicate(attribute_at(&head.attrs, 1));
    let bits = compared_of(predicate, width, bits_at(width, *a), bits_at(width, *b));
    match bits {
        Some(bits) => Some(number(1, bits)),
        None => None,
    }
}

// The bits at another width.
fn convert_number(cast: Cast, flags: Flags, width: u32, to: u32, bits: u64) -> Option<u64>
    requires at_least { 1 ≤ width }
    requires at_most { width ≤ 65 }
    requires number { bits < 2 ^ bits_of_width width }
    ensures { result ≡ cast_of cast flags width to bits }
{
    if is_width(to) {
        convert(cast, flags, counted_bits(width), counted_bits(to), bits)
    } else {
        None
    }
}

// The bits at another width, where they are known.
fn converted_of(cast: Cast, flags: Flags, width: u32, to: u32, a: Option<u64>) -> Option<u64>
    requires number { IfSome a (λ bits. bits < 2 ^ bits_of_width width) }
    requires width { IfSome a (λ bits. (1 ≤ width) × (width ≤ 65)) }
    ensures { result ≡ of_one (cast_of cast flags width to) a }
{
    match a {
        Some(bits) => convert_number(cast, flags, width, to, bits),
        None => None,
    }
}

// The integer that an operation with this head makes of one.
fn cast_integer(cast: Cast, head: &Head, numbers: &[Option<i128>]) -> Option<i128>
    ensures { result ≡ cast_by cast head.now numbers.now }
{
    let [a] = numbers else {
        return None;
    };
    let Some(a) = a else {
        return None;
    };
    let width = width_at(&head.attrs, 0);
    let to = width_at(&head.attrs, 1);
    let flags = flags_at(&head.attrs, 2);
    let bits = converted_of(cast, flags, width, to, bits_at(width, *a));
    match bits {
        Some(bits) => Some(number(to, bits)),
        None => None,
    }
}

// The truth of an integer of one bit.
fn truth(datum: i128) -> Option<bool>
    ensures { result ≡ truth_of datum }
{
    match bits_at(1, datum) {
        Some(bits) => Some(bits == 1),
        None => None,
    }
}

// The edge of a branch: its first one where the integer is 1.
fn branch_edge(datum: i128) -> Option<usize>
    ensures { result ≡ branch_edge_of 0 [] datum }
{
    match truth(datum) {
        Some(true) => Some(0),
        Some(false) => Some(1),
        None => None,
    }
}

// The edge of a switch with so many edges.
fn switch_edge(attrs: &Attrs, edges: usize, datum: i128) -> Option<usize>
    ensures { result ≡ switch_edge_of 0 (drop edges attrs.now) datum }
{
    if edges >= attrs.len() {
        return None;
    }
    let width = attribute_count(attrs.get(edges));
    if width > 65 {
        return None;
    }
    match bits_at(width as u32, datum) {
        Some(bits) => Some(edge_of_case(attrs, edges + 1, bits)),
        None => None,
    }
}

// The edge of the case with these bits, of the attributes from this index on but the last; 0 where there is none.
fn edge_of_case(attrs: &Attrs, first: usize, bits: u64) -> usize
    ensures { result ≡ edge_of_case_in 1 (drop first attrs.now) bits }
{
    let last = attrs.len().saturating_sub(1);
    for i in first..last {
        if attribute_count(attrs.get(i)) == bits as u128 {
            return i - first + 1;
        }
    }
    0
}

impl<I: Interpretation> Roles for MlirKind<I> {
    ghost use Rattle.std.specs.Prelude.{refl};

    ghost tables = { mlir (λ k. k.class) (λ c. record { class = c; meaning = record {} }) I.value };

    fn number(self) -> u32 {
        class_number(self.class)
    }

    fn from_number(number: u32) -> Option<Self> {
        match numbered_class(number) {
            Some(class) => Some(MlirKind {
                class,
                meaning: PhantomData,
            }),
            None => None,
        }
    }

    fn constant() -> Self {
        MlirKind {
            class: Class::Constant,
            meaning: PhantomData,
        }
    }

    fn jump() -> Self {
        MlirKind {
            class: Class::Jump,
            meaning: PhantomData,
        }
    }

    fn form(self) -> Form {
        form(self.class)
    }

    fn fold_numbers(self, head: &Head, numbers: &[Option<i128>]) -> Option<i128> {
        match self.class {
            Class::Binary(operator) => compute_numbers(operator, head, numbers),
            Class::Compare => compare_numbers(head, numbers),
            Class::Cast(cast) => cast_integer(cast, head, numbers),
            _ => None,
        }
    }

    fn identity(self, head: &Head) -> Identity {
        match self.class {
            Class::Binary(operator) => identity_at(
                operator,
                flags_at(&head.attrs, 1),
                width_at(&head.attrs, 0),
            ),
            Class::Cast(_) => identity_of_cast(width_at(&head.attrs, 0), width_at(&head.attrs, 1)),
            Class::Compare => identity_of_compare(
                numbered_predicate(attribute_at(&head.attrs, 1)),
                width_at(&head.attrs, 0),
            ),
            _ => Identity::none(),
        }
    }

    fn picks(self, number: i128) -> Option<bool> {
        match self.class {
            Class::Select => truth(number),
            _ => None,
        }
    }

    fn choose_edge(self, head: &Head, edges: usize, number: i128) -> Option<usize> {
        match self.class {
            Class::Branch => branch_edge(number),
            Class::Switch => switch_edge(&head.attrs, edges, number),
            _ => None,
        }
    }

    fn allows(
        self,
        _head: &Head,
        operands: usize,
        results: usize,
        _successors: usize,
        regions: usize,
    ) -> bool {
        match self.class {
            Class::Effect | Class::Local | Class::Call | Class::Fork => regions == 0,
            Class::Root | Class::Function | Class::Module => {
                operands == 0 && results == 0 && regions == 1
            }
            _ => true,
        }
    }

    fn is_ssa(self) -> bool {
        true
    }

    fn accepts(_attr: &AttrObj) -> bool {
        true
    }

    fn entry_operand(self, _operands: usize, _region: usize, _argument: usize) -> Option<usize> {
        None
    }

    fn checks_edges(self) -> bool {
        false
    }

    ghost keeps_tables = { keeps_mlir (λ k. k.class) (λ c. record { class = c; meaning = record {} }) I.value
        (λ k. refl) (λ c. refl) };
}
