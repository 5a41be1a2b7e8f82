//! What a register holds, as hexadecimal digits with capital letters and leading zeros.
#![tactic(auto)]

ghost use Rattle.std.specs.Prelude.{◌≡◌};
ghost use Rattle.digits.specs.Digits.{last_digit, digits, flag_digit, count_digit, byte_digits, address_digits, word_digits};

/// The digit for a number's last four bits.
fn digit(number: u16) -> u8
    ensures { result ≡ last_digit number }
{
    let value = (number % 16) as u8;
    if value < 10 {
        b'0' + value
    } else {
        b'A' - 10 + value
    }
}

/// The last digits of a number, as many as the array holds.
fn hexadecimal<const N: usize>(number: u16) -> [u8; N]
    ensures { result ≡ digits N number }
{
    let mut digits = [0; N];
    let mut rest = number;
    for place in (0..N).rev() {
        digits[place] = digit(rest);
        rest /= 16;
    }
    digits
}

/// A flip-flop: 0 or 1.
pub fn flag_digit(up: bool) -> [u8; 1]
    ensures { result ≡ flag_digit up }
{
    hexadecimal(u16::from(up))
}

/// A sequence counter: one digit.
pub fn count_digit(count: u8) -> [u8; 1]
    ensures { result ≡ count_digit count }
{
    hexadecimal(u16::from(count))
}

/// A character: two digits.
pub fn byte_digits(byte: u8) -> [u8; 2]
    ensures { result ≡ byte_digits byte }
{
    hexadecimal(u16::from(byte))
}

/// An address: three digits, for its low twelve bits.
#[tactic(auto, using(crate::proofs::Powers::three_digits))]
pub fn address_digits(address: u16) -> [u8; 3]
    ensures { result ≡ address_digits address }
{
    hexadecimal(address)
}

/// A word: four digits.
#[tactic(auto, using(crate::proofs::Powers::four_digits))]
pub fn word_digits(word: u16) -> [u8; 4]
    ensures { result ≡ word_digits word }
{
    hexadecimal(word)
}
