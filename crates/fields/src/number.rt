//! Numbers of a sheet.
ghost use Rattle.std.specs.Prelude.{◌≡◌, ◌^◌, ◌<◌, ◌≤◌, IfSome};
ghost use Rattle.fields.specs.Numbers.{digit_in, number_in};

/// What a digit counts, if it is one below the radix.
fn digit(b: u8, radix: u64) -> Option<u64>
    ensures { result ≡ digit_in radix b }
{
    let d = match b {
        b'0'..=b'9' => u64::from(b - b'0'),
        b'A'..=b'F' => u64::from(b - b'A' + 10),
        _ => return None,
    };
    if d < radix { Some(d) } else { None }
}

/// The number of a word of one to `most` digits, carried from digit to digit.
fn number(word: &[u8], radix: u64, most: usize) -> Option<u64>
    requires { radix ^ most ≤ 2 ^ 64 }
    ensures value { result ≡ number_in radix most word.now }
    ensures below { IfSome result (λ n. n < radix ^ most) }
{
    if word.is_empty() || word.len() > most {
        return None;
    }
    let mut value = 0;
    for b in word {
        let d = digit(*b, radix)?;
        value = value * radix + d;
    }
    Some(value)
}

/// The number of one to four hexadecimal digits.
pub fn hexadecimal(word: &[u8]) -> Option<u16>
    ensures { result ≡ number_in 16 4 word.now }
{
    let n = number(word, 16, 4)?;
    Some(n as u16)
}

/// The number of one to five decimal digits.
pub fn decimal(word: &[u8]) -> Option<u32>
    ensures { result ≡ number_in 10 5 word.now }
{
    let n = number(word, 10, 5)?;
    Some(n as u32)
}

/// The number of one to eighteen decimal digits.
pub fn long_decimal(word: &[u8]) -> Option<u64>
    ensures { result ≡ number_in 10 18 word.now }
{
    number(word, 10, 18)
}
