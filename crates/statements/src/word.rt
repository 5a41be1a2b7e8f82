//! Words of a statement.
ghost use Rattle.std.specs.Prelude.{◌≡◌};
ghost use Rattle.statements.specs.Words.{letter_or_digit, label_name, operation_of, plain_word, radix_of};

use crate::statement::{Name, Operation};

/// What a number is written in.
#[derive(Clone, Copy)]
pub(crate) enum Radix {
    Decimal,
    Hexadecimal,
}

fn is_letter_or_digit(b: u8) -> bool
    ensures { result ≡ letter_or_digit b }
{
    b.is_ascii_uppercase() || b.is_ascii_digit()
}

/// The name of a label: one letter, then at most two letters or digits.
pub(crate) fn label_name(word: &[u8]) -> Option<Name>
    ensures { result ≡ label_name word.now }
{
    let [first, rest @ ..] = word else {
        return None;
    };
    if !first.is_ascii_uppercase() {
        return None;
    }
    match rest {
        [] => Some(Name {
            first: *first,
            second: b' ',
            third: b' ',
        }),
        [second] if is_letter_or_digit(*second) => Some(Name {
            first: *first,
            second: *second,
            third: b' ',
        }),
        [second, third] if is_letter_or_digit(*second) && is_letter_or_digit(*third) => {
            Some(Name {
                first: *first,
                second: *second,
                third: *third,
            })
        }
        _ => None,
    }
}

/// What the number behind this word is written in.
pub(crate) fn radix_of(word: &[u8]) -> Option<Radix>
    ensures { result ≡ radix_of word.now }
{
    match word {
        [b'D', b'E', b'C'] => Some(Radix::Decimal),
        [b'H', b'E', b'X'] => Some(Radix::Hexadecimal),
        _ => None,
    }
}

/// The operation that a name of a memory-reference instruction stands for.
pub(crate) fn operation_of(word: &[u8]) -> Option<Operation>
    ensures { result ≡ operation_of word.now }
{
    match word {
        [b'A', b'N', b'D'] => Some(Operation::And),
        [b'A', b'D', b'D'] => Some(Operation::Add),
        [b'L', b'D', b'A'] => Some(Operation::Lda),
        [b'S', b'T', b'A'] => Some(Operation::Sta),
        [b'B', b'U', b'N'] => Some(Operation::Bun),
        [b'B', b'S', b'A'] => Some(Operation::Bsa),
        [b'I', b'S', b'Z'] => Some(Operation::Isz),
        _ => None,
    }
}

/// The word that a name of any other instruction stands for.
pub(crate) fn plain_word_of(word: &[u8]) -> Option<u16>
    ensures { result ≡ plain_word word.now }
{
    match word {
        [b'C', b'L', b'A'] => Some(0x7800),
        [b'C', b'L', b'E'] => Some(0x7400),
        [b'C', b'M', b'A'] => Some(0x7200),
        [b'C', b'M', b'E'] => Some(0x7100),
        [b'C', b'I', b'R'] => Some(0x7080),
        [b'C', b'I', b'L'] => Some(0x7040),
        [b'I', b'N', b'C'] => Some(0x7020),
        [b'S', b'P', b'A'] => Some(0x7010),
        [b'S', b'N', b'A'] => Some(0x7008),
        [b'S', b'Z', b'A'] => Some(0x7004),
        [b'S', b'Z', b'E'] => Some(0x7002),
        [b'H', b'L', b'T'] => Some(0x7001),
        [b'I', b'N', b'P'] => Some(0xF800),
        [b'O', b'U', b'T'] => Some(0xF400),
        [b'S', b'K', b'I'] => Some(0xF200),
        [b'S', b'K', b'O'] => Some(0xF100),
        [b'I', b'O', b'N'] => Some(0xF080),
        [b'I', b'O', b'F'] => Some(0xF040),
        _ => None,
    }
}
