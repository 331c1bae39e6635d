// Numbers as decimal and hexadecimal text.
ghost use Rattle.std.specs.Prelude.{◌≡◌, ◌≢◌, ◌+◌, ◌-◌, ◌*◌, ◌/◌, ◌%◌, ◌^◌, ◌<◌, ◌≤◌, ◌++◌, ◌↔◌, ℕ, List, false, length, slice_index, IsTrue, OnOk, MatchOption, string_bytes};
ghost use Rattle.std.specs.Fmt.{digit_glyph, decimal};
ghost use Rattle.st_folder.specs.FileNames.{hex_text, stamp_text};

use std::alloc::AllocError;

// Adds a stamp in sixteen hexadecimal digits in lower case.
#[tactic(auto, unfolding(crate::specs::FileNames::stamp_text))]
pub fn put_stamp(text: &mut String, stamp: u64) -> Result<(), AllocError>
    ensures { OnOk result (string_bytes text.new ≡ string_bytes text.old ++ stamp_text stamp) }
{
    put_digits(text, stamp, 16)
}

// Adds a number in this many hexadecimal digits in lower case.
fn put_digits(text: &mut String, number: u64, count: u8) -> Result<(), AllocError>
    ensures { OnOk result (string_bytes text.new ≡ string_bytes text.old ++ hex_text count number) }
{
    if count == 0 {
        return Ok(());
    }
    match put_digits(text, number / 16, count - 1) {
        Ok(()) => text.push(char::from(digit_of((number % 16) as u8))),
        Err(error) => Err(error),
    }
}

fn digit_of(value: u8) -> u8
    requires { value < 16 }
    ensures digit { result ≡ digit_glyph false value }
    ensures ascii { result < 128 }
{
    if value < 10 {
        b'0' + value
    } else {
        b'a' + (value - 10)
    }
}

// The number of sixteen hexadecimal digits in lower case.
#[tactic(auto, unfolding(crate::specs::FileNames::stamp_text))]
pub fn stamp_of(text: &str) -> Option<u64>
    ensures { MatchOption result
        ((stamp : ℕ) → stamp < 2 ^ 64 → text.now ≢ stamp_text stamp)
        (λ stamp. text.now ≡ stamp_text stamp) }
{
    let digits = text.as_bytes();
    let is_whole = digits.len() == 16;
    if !is_whole {
        return None;
    }
    number_of_digits(digits)
}

// The number of at most sixteen hexadecimal digits in lower case.
fn number_of_digits(digits: &[u8]) -> Option<u64>
    requires { length digits.now ≤ 16 }
    ensures { MatchOption result
        ((n : ℕ) → digits.now ≢ hex_text (length digits.now) n)
        (λ n. (digits.now ≡ hex_text (length digits.now) n) × (n < 16 ^ length digits.now)) }
{
    let Some((last, before)) = digits.split_last() else {
        return Some(0);
    };
    let Some(high) = number_of_digits(before) else {
        return None;
    };
    let Some(low) = value_of(*last) else {
        return None;
    };
    Some(high * 16 + u64::from(low))
}

// The value of a hexadecimal digit in lower case.
fn value_of(digit: u8) -> Option<u8>
    ensures { MatchOption result
        ((d : ℕ) → d < 16 → digit ≢ digit_glyph false d)
        (λ d. (d < 16) × (digit ≡ digit_glyph false d)) }
{
    match digit {
        b'0'..=b'9' => Some(digit - b'0'),
        b'a'..=b'f' => Some(digit - b'a' + 10),
        _ => None,
    }
}

// What follows a prefix in a text that has it.
pub fn after<'a>(prefix: &str, text: &'a str) -> Option<&'a str>
    ensures { MatchOption result
        ((rest : List ℕ) → text.now ≢ prefix.now ++ rest)
        (λ rest. text.now ≡ prefix.now ++ rest.now) }
{
    text.strip_prefix(prefix)
}

// The number of decimal digits without a zero before others.
pub fn number_of(text: &str) -> Option<u64>
    ensures { MatchOption result
        ((n : ℕ) → n < 2 ^ 64 → text.now ≢ decimal n)
        (λ n. text.now ≡ decimal n) }
{
    let is_plain = is_plain(text.as_bytes());
    if !is_plain {
        return None;
    }
    plain_number(text)
}

// The number of decimal digits, in a text without a plus and without a zero before others.
fn plain_number(text: &str) -> Option<u64>
    requires plus { slice_index text.now 0 ≢ 43 }
    requires zero { slice_index text.now 0 ≡ 48 → length text.now ≡ 1 }
    ensures { MatchOption result
        ((n : ℕ) → n < 2 ^ 64 → text.now ≢ decimal n)
        (λ n. text.now ≡ decimal n) }
{
    match u64::from_str_radix(text, 10) {
        Ok(number) => Some(number),
        Err(_) => None,
    }
}

// Whether a number's text begins with no plus, and with a zero only if it is that.
fn is_plain(digits: &[u8]) -> bool
    ensures { IsTrue result
        ↔ ((slice_index digits.now 0 ≢ 43)
        × (slice_index digits.now 0 ≡ 48 → length digits.now ≡ 1)) }
{
    if digits.is_empty() {
        return true;
    }
    digits[0] != b'+' && (digits[0] != b'0' || digits.len() == 1)
}
