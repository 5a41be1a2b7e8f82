//! What a value says, by its bytes.
ghost use Rattle.std.specs.Prelude.{◌≡◌, ◌≤◌, ◌==◌, IfSome, position};
ghost use Rattle.options.specs.Values.{number_up_to, address_in, addresses_in};

use fields::number::{hexadecimal, long_decimal};

/// The number of one to eighteen decimal digits, if it is at most `most`.
pub(crate) fn number_up_to(most: u32, word: &[u8]) -> Option<u32>
    ensures value { result ≡ number_up_to most word.now }
    ensures bound { IfSome result (λ n. n ≤ most) }
{
    let n = u32::try_from(long_decimal(word)?).ok()?;
    if n <= most { Some(n) } else { None }
}

/// The address of one to four hexadecimal digits.
pub(crate) fn address(word: &[u8]) -> Option<u16>
    ensures { result ≡ address_in word.now }
{
    let n = hexadecimal(word)?;
    if n <= 0xFFF { Some(n) } else { None }
}

/// Where the first `-` stands, if there is one.
fn dash_at(word: &[u8]) -> Option<usize>
    ensures { result ≡ position (λ b. b == 45) word.now }
{
    word.iter().position(|b| *b == b'-')
}

/// The first and the last address; a single one is both.
pub(crate) fn addresses(word: &[u8]) -> Option<(u16, u16)>
    ensures { result ≡ addresses_in word.now }
{
    match dash_at(word) {
        Some(n) => address(&word[..n]).zip(address(&word[n + 1..])),
        None => address(word).zip(address(word)),
    }
}
