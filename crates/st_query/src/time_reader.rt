//! What one word of a query says of time: an instant after RFC 3339, 5.6, or a span.

ghost use Rattle.std.specs.Prelude.{◌≡◌, ℕ, ℤ, ◌+◌, ◌-◌, ◌*◌, ◌/◌, ◌^◌, ◌≤◌, ◌<◌, Bool, MatchOption, IfSome, IsTrue, ◌↔◌, length, take, drop, pos, neg_ℤ, ◌+ℤ◌, ◌-ℤ◌};
ghost use Rattle.st_query.specs.Times.{IsInstant, IsInYears};
ghost use Rattle.st_query.specs.TimeReader.{fits_byte, fits, two_at, HasShape, HasDate, IsDayOf, HasClock, IsClockOf, ahead, IsWithinDay, ReadsOffset, ReadsSpan};

use crate::limits::NUMBER_DIGITS;
use crate::units::{DAY, HOUR, MINUTE};
use crate::word_reader::number;
use jiff_core::civil::Date;

/// 1970-01-01, the first second of the year 0000 and the last of the year 9999, in seconds since
/// -9999-01-01, from which the calendar counts its days.
const EPOCH: u64 = 4_371_587 * DAY;

const FIRST: u64 = 3_652_059 * DAY;

const LAST: u64 = 7_304_484 * DAY - 1;

/// How far local time is ahead of UTC, or behind it, in seconds.
#[derive(Clone, Copy)]
enum Zone {
    East(u64),
    West(u64),
}

/// Whether the byte is the wanted one, where a wanted `0` is any digit.
fn fits_byte(wanted: u8, found: u8) -> bool
    ensures { result ≡ fits_byte wanted found }
{
    if wanted == b'0' {
        found.is_ascii_digit()
    } else {
        found == wanted
    }
}

/// Whether the text has the pattern's bytes.
fn fits(pattern: &[u8], text: &[u8]) -> bool
    requires { length pattern.now ≡ length text.now }
    ensures { result ≡ fits pattern.now text.now }
{
    for (i, wanted) in pattern.iter().enumerate() {
        if !fits_byte(*wanted, text[i]) {
            return false;
        }
    }
    true
}

/// Whether the word begins as `YYYY-MM-DDThh:mm:ss`.
fn has_shape(word: &[u8]) -> bool
    ensures { IsTrue result ↔ HasShape word.now }
{
    word.len() >= 19 && fits(b"0000-00-00T00:00:00".as_slice(), &word[..19])
}

/// The number that two digits write at `at`.
fn two(text: &[u8], at: usize) -> u64
    requires { at + 1 < length text.now }
    ensures { result ≡ two_at at text.now }
{
    u64::from(text[at].saturating_sub(b'0')) * 10 + u64::from(text[at + 1].saturating_sub(b'0'))
}

/// The day of the word's date, counted from -9999-01-01.
fn day(word: &[u8]) -> Option<u64>
    requires { 19 ≤ length word.now }
    ensures value { MatchOption result (HasDate word.now → ⊥) (λ n. IsDayOf word.now n) }
    ensures bound { IfSome result (λ n. (1 ≤ n) × (n ≤ 7_304_483)) }
{
    let year = two(word, 0) * 100 + two(word, 2);
    let month = two(word, 5);
    let day = two(word, 8);
    if year > 9999 || month > 12 || day > 31 {
        return None;
    }
    match Date::new(year as i16, month as i8, day as i8) {
        Ok(date) => Some(u64::from(date.days_since_min())),
        Err(_) => None,
    }
}

/// The second of the day that the word's time of day is.
fn clock(word: &[u8]) -> Option<u64>
    requires { 19 ≤ length word.now }
    ensures { MatchOption result (HasClock word.now → ⊥) (λ n. IsClockOf word.now n) }
{
    let hour = two(word, 11);
    let minute = two(word, 14);
    let second = two(word, 17);
    if hour > 23 || minute > 59 || second > 59 {
        return None;
    }
    Some(hour * HOUR + minute * MINUTE + second)
}

/// The offset that the text spells.
fn offset(text: &[u8]) -> Option<Zone>
    ensures { ReadsOffset text.now result }
{
    if text == b"Z".as_slice() {
        return Some(Zone::East(0));
    }
    if text.len() != 6 {
        return None;
    }
    let hour = two(text, 1);
    let minute = two(text, 4);
    if hour > 23 || minute > 59 {
        return None;
    }
    if fits(b"+00:00".as_slice(), text) {
        return Some(Zone::East(hour * HOUR + minute * MINUTE));
    }
    if fits(b"-00:00".as_slice(), text) {
        return Some(Zone::West(hour * HOUR + minute * MINUTE));
    }
    None
}

/// The second in UTC of a local second, both counted from -9999-01-01.
fn in_utc(local: u64, zone: Zone) -> u64
    requires zone { IsWithinDay zone }
    requires low { DAY ≤ local }
    requires high { local < 2 ^ 62 }
    ensures { pos result ≡ pos local -ℤ ahead zone }
{
    match zone {
        Zone::East(seconds) => local - seconds,
        Zone::West(seconds) => local + seconds,
    }
}

/// Whether the second lies in the years 0000 to 9999.
fn is_in_years(second: u64) -> bool
    ensures { IsTrue result ↔ IsInYears (pos second -ℤ pos EPOCH) }
{
    FIRST <= second && second <= LAST
}

/// The second since 1970 of a second since -9999-01-01.
fn since_1970(second: u64) -> i64
    requires { second < 2 ^ 62 }
    ensures { result ≡ pos second -ℤ pos EPOCH }
{
    second as i64 - EPOCH as i64
}

/// The instant that the word spells, in seconds since 1970-01-01T00:00:00Z.
pub fn instant(word: &[u8]) -> Option<i64>
    ensures { MatchOption result ((t : ℤ) → IsInstant word.now t → ⊥) (λ t. IsInstant word.now t) }
{
    if !has_shape(word) {
        return None;
    }
    let Some(day) = day(word) else {
        return None;
    };
    let Some(clock) = clock(word) else {
        return None;
    };
    let Some(zone) = offset(&word[19..]) else {
        return None;
    };
    let second = in_utc(day * DAY + clock, zone);
    if !is_in_years(second) {
        return None;
    }
    Some(since_1970(second))
}

/// The count and the unit of a span: `h` for hours (`true`), `m` for minutes.
pub fn span(word: &[u8]) -> Option<(u32, bool)>
    ensures { ReadsSpan word.now result }
{
    let (unit, digits) = word.split_last()?;
    let hours = match *unit {
        b'h' => true,
        b'm' => false,
        _ => return None,
    };
    let count = number(NUMBER_DIGITS, digits)?;
    Some((u32::try_from(count).ok()?, hours))
}
