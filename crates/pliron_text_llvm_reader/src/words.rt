//! Words that are types, and words that are values.
ghost use Rattle.std.specs.Prelude.{◌≡◌};
ghost use Rattle.std.specs.List.{list_all};
ghost use Rattle.std.specs.Char.{is_ascii_digit};
ghost use Rattle.pliron_text_llvm_syntax.specs.Lexing.{begins_with_digit};
ghost use Rattle.pliron_text_llvm_reader.specs.Words.{is_integer_type, is_one_of, type_words, is_type_word, constant_words};
ghost use Rattle.pliron_text_llvm_reader.specs.Words.{is_number_word, is_constant_word, address_words, operation_words, is_expression};
ghost use Rattle.pliron_text_llvm_reader.specs.Words.{reference_words, assembly_words, is_value_word, is_sign, is_prefix};

// Whether all of the text are digits.
fn are_digits(text: &[u8]) -> bool
    ensures { result ≡ list_all is_ascii_digit text.now }
{
    text.iter().all(|byte| byte.is_ascii_digit())
}

// Whether the word is `i` or `b` and a number.
fn is_integer_type(word: &[u8]) -> bool
    ensures { result ≡ is_integer_type word.now }
{
    match word {
        [first, width @ ..] => (*first == b'i' || *first == b'b')
            && !width.is_empty()
            && are_digits(width),
        [] => false,
    }
}

// Whether the word is a type that isn't an integer.
fn is_other_type(word: &[u8]) -> bool
    ensures { result ≡ is_one_of type_words word.now }
{
    word == b"void".as_slice()
        || word == b"half".as_slice()
        || word == b"bfloat".as_slice()
        || word == b"float".as_slice()
        || word == b"double".as_slice()
        || word == b"fp128".as_slice()
        || word == b"x86_fp80".as_slice()
        || word == b"ppc_fp128".as_slice()
        || word == b"x86_amx".as_slice()
        || word == b"ptr".as_slice()
        || word == b"label".as_slice()
        || word == b"token".as_slice()
        || word == b"metadata".as_slice()
        || word == b"target".as_slice()
}

/// Whether the word is a type by itself, or begins one. Cost: linear in it.
#[doc(hidden)]
pub fn is_type_word(word: &[u8]) -> bool
    ensures { result ≡ is_type_word word.now }
{
    is_integer_type(word) || is_other_type(word)
}

// Whether the text begins with a digit.
fn begins_with_digit(text: &[u8]) -> bool
    ensures { result ≡ begins_with_digit text.now }
{
    match text {
        [first, ..] => first.is_ascii_digit(),
        [] => false,
    }
}

// Whether the byte is a sign of a number.
fn is_sign(byte: u8) -> bool
    ensures { result ≡ is_sign byte }
{
    byte == b'-' || byte == b'+'
}

// Whether the byte is what hexadecimal digits may have before their `0x`.
fn is_prefix(byte: u8) -> bool
    ensures { result ≡ is_prefix byte }
{
    byte == b'u' || byte == b's' || byte == b'f'
}

// Whether the word is a number.
fn is_number(word: &[u8]) -> bool
    ensures { result ≡ is_number_word word.now }
{
    match word {
        [first, rest @ ..] => {
            first.is_ascii_digit()
                || (is_sign(*first) && begins_with_digit(rest))
                || (is_prefix(*first) && rest.starts_with(b"0x"))
        }
        [] => false,
    }
}

// Whether the word is a constant that isn't a number.
fn is_other_constant(word: &[u8]) -> bool
    ensures { result ≡ is_one_of constant_words word.now }
{
    word == b"true".as_slice()
        || word == b"false".as_slice()
        || word == b"null".as_slice()
        || word == b"none".as_slice()
        || word == b"undef".as_slice()
        || word == b"poison".as_slice()
        || word == b"zeroinitializer".as_slice()
}

/// Whether the word is a constant by itself. Cost: constant.
#[doc(hidden)]
pub fn is_constant(word: &[u8]) -> bool
    ensures { result ≡ is_constant_word word.now }
{
    is_number(word) || is_other_constant(word)
}

// Whether the word begins a cast, an address, or a pointer with a signature.
fn is_address(word: &[u8]) -> bool
    ensures { result ≡ is_one_of address_words word.now }
{
    word == b"getelementptr".as_slice()
        || word == b"ptrtoint".as_slice()
        || word == b"ptrtoaddr".as_slice()
        || word == b"inttoptr".as_slice()
        || word == b"bitcast".as_slice()
        || word == b"addrspacecast".as_slice()
        || word == b"trunc".as_slice()
        || word == b"blockaddress".as_slice()
        || word == b"ptrauth".as_slice()
}

// Whether the word begins an operation on constants that gives no address.
fn is_operation(word: &[u8]) -> bool
    ensures { result ≡ is_one_of operation_words word.now }
{
    word == b"add".as_slice()
        || word == b"sub".as_slice()
        || word == b"mul".as_slice()
        || word == b"xor".as_slice()
        || word == b"shl".as_slice()
        || word == b"icmp".as_slice()
        || word == b"fcmp".as_slice()
        || word == b"extractelement".as_slice()
        || word == b"insertelement".as_slice()
        || word == b"shufflevector".as_slice()
        || word == b"splat".as_slice()
}

/// Whether the word begins a constant expression, which ends with a bracket. Cost: constant.
#[doc(hidden)]
pub fn is_expression(word: &[u8]) -> bool
    ensures { result ≡ is_expression word.now }
{
    is_address(word) || is_operation(word)
}

/// Whether the word begins a value that is a name behind it. Cost: constant.
#[doc(hidden)]
pub fn is_reference(word: &[u8]) -> bool
    ensures { result ≡ is_one_of reference_words word.now }
{
    word == b"dso_local_equivalent".as_slice() || word == b"no_cfi".as_slice()
}

/// Whether the word begins inline assembly. Cost: constant.
#[doc(hidden)]
pub fn is_assembly(word: &[u8]) -> bool
    ensures { result ≡ is_one_of assembly_words word.now }
{
    word == b"asm".as_slice()
}

/// Whether the word begins a value. Cost: constant.
#[doc(hidden)]
pub fn is_value_word(word: &[u8]) -> bool
    ensures { result ≡ is_value_word word.now }
{
    is_constant(word) || is_expression(word) || is_reference(word) || is_assembly(word)
}
