//! The printed form of one word: an address, an instant.

ghost use Rattle.std.specs.Prelude.{◌≡◌, ℕ, ℤ, ◌+◌, ◌-◌, ◌*◌, ◌/◌, ◌%◌, ◌^◌, ◌≤◌, ◌<◌, ◌++◌, ◌+ℤ◌, pos, OnOk, length, codes};
ghost use Rattle.st_query.specs.PrintedWords.{group_text, colon_groups, groups_text, address_text, year_of, month_of, day_of_month, calendar_second, date_time_text, instant_text};
ghost use Rattle.st_query.specs.Times.{IsInYears};

use crate::addrs::Addr;
use crate::units::{DAY, HOUR, MINUTE};
use jiff_core::civil::Date;
use std::alloc::{AllocError, Global};
use std::net::Ipv6Addr;

/// Appends one group in lower-case hexadecimal without leading zeros.
fn put_group(alloc: Global, group: u16, out: &mut Vec<u8>) -> Result<(), AllocError>
    ensures { OnOk result (out.new.items ≡ out.old.items ++ group_text group) }
{
    let text = format!(in alloc; "{group:x}")?;
    out.extend_from_slice(text.as_bytes())
}

/// Appends groups with a colon before each.
fn put_colon_groups(alloc: Global, groups: &[u16], out: &mut Vec<u8>) -> Result<(), AllocError>
    ensures { OnOk result (out.new.items ≡ out.old.items ++ colon_groups groups.now) }
{
    for group in groups {
        out.push(b':')?;
        put_group(alloc, *group, out)?;
    }
    Ok(())
}

/// Appends groups with colons between them.
fn put_groups(alloc: Global, groups: &[u16], out: &mut Vec<u8>) -> Result<(), AllocError>
    ensures { OnOk result (out.new.items ≡ out.old.items ++ groups_text groups.now) }
{
    match groups.split_first() {
        Some((first, rest)) => {
            put_group(alloc, *first, out)?;
            put_colon_groups(alloc, rest, out)
        }
        None => Ok(()),
    }
}

/// Appends an IPv4 address as four decimal numbers.
fn put_v4(alloc: Global, bits: u32, out: &mut Vec<u8>) -> Result<(), AllocError>
    ensures { OnOk result (out.new.items ≡ out.old.items ++ address_text (Addr.V4 bits)) }
{
    let [a, b, c, d] = bits.to_be_bytes();
    let text = format!(in alloc; "{a}.{b}.{c}.{d}")?;
    out.extend_from_slice(text.as_bytes())
}

/// Appends an IPv6 address as eight groups.
fn put_v6(alloc: Global, bits: u128, out: &mut Vec<u8>) -> Result<(), AllocError>
    ensures { OnOk result (out.new.items ≡ out.old.items ++ address_text (Addr.V6 bits)) }
{
    let groups = Ipv6Addr::from_bits(bits).segments();
    put_groups(alloc, &groups, out)
}

/// Appends an address: IPv4 as four decimal numbers, IPv6 as eight groups without `::`.
pub fn put_address(alloc: Global, addr: Addr, out: &mut Vec<u8>) -> Result<(), AllocError>
    ensures { OnOk result (out.new.items ≡ out.old.items ++ address_text addr) }
{
    match addr {
        Addr::V4(bits) => put_v4(alloc, bits, out),
        Addr::V6(bits) => put_v6(alloc, bits, out),
    }
}

/// `YYYY-MM-DDThh:mm:ssZ` of a date and a second of its day.
fn stamp(year: u64, month: u64, day: u64, second: u64) -> [u8; 20]
    // the date
    requires year { year < 10_000 }
    requires month { month < 100 }
    requires day { day < 100 }
    // the second of the day
    requires second { second < DAY }
    // the text
    ensures { result ≡ date_time_text year month day second ++ codes "Z" }
{
    let (hour, minute, second) = (second / HOUR, second / MINUTE % 60, second % MINUTE);
    [
        b'0' + (year / 100 / 10) as u8,
        b'0' + (year / 100 % 10) as u8,
        b'0' + (year % 100 / 10) as u8,
        b'0' + (year % 100 % 10) as u8,
        b'-',
        b'0' + (month / 10) as u8,
        b'0' + (month % 10) as u8,
        b'-',
        b'0' + (day / 10) as u8,
        b'0' + (day % 10) as u8,
        b'T',
        b'0' + (hour / 10) as u8,
        b'0' + (hour % 10) as u8,
        b':',
        b'0' + (minute / 10) as u8,
        b'0' + (minute % 10) as u8,
        b':',
        b'0' + (second / 10) as u8,
        b'0' + (second % 10) as u8,
        b'Z',
    ]
}

/// The year, the month and the day of the month of a day, counted from -9999-01-01.
fn parts_of(day: u32) -> (u64, u64, u64)
    // a day of the years 0 to 9999
    requires low { 3_652_059 ≤ day }
    requires high { day ≤ 7_304_483 }
    // its year, month and day
    ensures year { result.0 ≡ year_of (day + 366) }
    ensures month { result.1 ≡ month_of (day + 366) }
    ensures day { result.2 ≡ day_of_month (day + 366) }
    // what `stamp` requires of them
    ensures bound { (result.0 < 10_000) × (result.1 < 100) × (result.2 < 100) }
{
    let date = Date::from_days_since_min(day);
    (
        u64::from(date.year.unsigned_abs()),
        u64::from(date.month),
        u64::from(date.day),
    )
}

/// The seconds since -9999-01-01, from which the calendar counts its days.
fn since_first_day(at: i64) -> u64
    requires { IsInYears at }
    ensures value { calendar_second at ≡ result + 366 * DAY }
    ensures bound { (3_652_059 * DAY ≤ result) × (result < 7_304_484 * DAY) }
{
    (at + 377_705_116_800) as u64
}

/// Appends an instant, in seconds since 1970-01-01T00:00:00Z, as `YYYY-MM-DDThh:mm:ssZ`.
pub fn put_instant(at: i64, out: &mut Vec<u8>) -> Result<(), AllocError>
    requires { IsInYears at }
    ensures { OnOk result (out.new.items ≡ out.old.items ++ instant_text at) }
{
    let second = since_first_day(at);
    let (year, month, day) = parts_of((second / DAY) as u32);
    out.extend_from_slice(&stamp(year, month, day, second % DAY))
}
