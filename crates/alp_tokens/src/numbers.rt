//! The numbers that words spell.
ghost use Rattle.std.specs.Prelude.{◌≡◌, IfOk, ◌≤◌};
ghost use Rattle.std.specs.List.{list_all};
ghost use Rattle.alp_tokens.specs.Telling.{Tells};
ghost use Rattle.alp_tokens.specs.Numbers.{is_digit, is_numeral as is_numeral_said, number_of, byte_of, word16_of, word32_of, word64_of, within as within_said, are_numerals as are_numerals_said};

use crate::LineFault;

fn is_digit_byte(b: u8) -> bool
    ensures { result ≡ is_digit b }
{
    b'0' <= b && b <= b'9'
}

fn are_digits(word: &[u8]) -> bool
    ensures { result ≡ list_all is_digit word.now }
{
    word.iter().all(|b| is_digit_byte(*b))
}

fn is_numeral(word: &[u8]) -> bool
    ensures { result ≡ is_numeral_said word.now }
{
    match word {
        [] => false,
        [digit] => is_digit_byte(*digit),
        [first, ..] => *first != b'0' && are_digits(word),
    }
}

// The number, where it is at most so much.
#[tactic(auto, unfolding(crate::specs::Numbers::number_of))]
fn number(word: &[u8], most: u64) -> Result<u64, LineFault>
    ensures most { IfOk result (λ n. n ≤ most) }
    ensures value { Tells result (number_of most word.now) }
{
    if !is_numeral(word) {
        return Err(LineFault::Outside);
    }
    let mut n: u128 = 0;
    for b in word {
        n = 10 * n + (*b - b'0') as u128;
        if n > most as u128 {
            return Err(LineFault::Outside);
        }
    }
    Ok(n as u64)
}

/// The number, where it lies in this range.
#[tactic(auto, unfolding(crate::specs::Numbers::within))]
pub fn within(word: &[u8], low: u32, high: u32) -> Result<u32, LineFault>
    ensures most { IfOk result (λ n. n ≤ high) }
    ensures value { Tells result (within_said low high word.now) }
{
    let n = number(word, high as u64)?;
    if low as u64 <= n {
        Ok(n as u32)
    } else {
        Err(LineFault::Outside)
    }
}

/// A number of one byte.
pub fn byte(word: &[u8]) -> Result<u8, LineFault>
    ensures { Tells result (byte_of word.now) }
{
    let n = number(word, u8::MAX as u64)?;
    Ok(n as u8)
}

/// A number of 16 bits.
pub fn word16(word: &[u8]) -> Result<u16, LineFault>
    ensures { Tells result (word16_of word.now) }
{
    let n = number(word, u16::MAX as u64)?;
    Ok(n as u16)
}

/// A number of 32 bits.
pub fn word32(word: &[u8]) -> Result<u32, LineFault>
    ensures { Tells result (word32_of word.now) }
{
    let n = number(word, u32::MAX as u64)?;
    Ok(n as u32)
}

/// A number of 64 bits.
pub fn word64(word: &[u8]) -> Result<u64, LineFault>
    ensures { Tells result (word64_of word.now) }
{
    number(word, u64::MAX)
}

/// Whether all three words are decimal digits, none with a leading zero.
pub fn are_numerals(a: &[u8], b: &[u8], c: &[u8]) -> bool
    ensures { result ≡ are_numerals_said a.now b.now c.now }
{
    is_numeral(a) && is_numeral(b) && is_numeral(c)
}
