//! What one word of a query means: a number, an address, a net, a mask.

ghost use Rattle.std.specs.Prelude.{◌≡◌, ℕ, ◌+◌, ◌-◌, ◌*◌, ◌/◌, ◌^◌, ◌≤◌, ◌<◌, ◌≢◌, All, Contains, MatchOption, length, drop, slice_index};
ghost use Rattle.st_query.specs.Words.{EndsAtSlash, IsMask, IsOnes, network, width};
ghost use Rattle.st_query.specs.WordReader.{ReadsNumber, ReadsAddress, ReadsNet};

use crate::addrs::Addr;
use crate::limits::{BITS_DIGITS, NUMBER_DIGITS, V4_BITS, V6_BITS};
use std::net::{Ipv4Addr, Ipv6Addr};

/// The number that one to `most` decimal digits write. Leading zeros are allowed.
pub fn number(most: usize, word: &[u8]) -> Option<u64>
    requires { most ≤ NUMBER_DIGITS }
    ensures { ReadsNumber most word.now result }
{
    if word.is_empty() || word.len() > most {
        return None;
    }
    let mut value = 0;
    for byte in word {
        if !byte.is_ascii_digit() {
            return None;
        }
        value = value * 10 + u64::from(*byte - b'0');
    }
    Some(value)
}

/// The address that the word spells: IPv4 as four decimal numbers without leading zeros, IPv6 in
/// the first two forms of RFC 4291, 2.2, so that none of its parts is written as decimal numbers.
pub fn address(word: &[u8]) -> Option<Addr>
    ensures { ReadsAddress word.now result }
{
    if let Ok(ip) = Ipv4Addr::parse_ascii(word) {
        return Some(Addr::V4(ip.to_bits()));
    }
    if word.contains(&b'.') {
        return None;
    }
    match Ipv6Addr::parse_ascii(word) {
        Ok(ip) => Some(Addr::V6(ip.to_bits())),
        Err(_) => None,
    }
}

/// How many bits the address has.
fn width(address: Addr) -> u8
    ensures { result ≡ width address }
{
    match address {
        Addr::V4(_) => V4_BITS,
        Addr::V6(_) => V6_BITS,
    }
}

/// The index of the last slash.
fn last_slash(word: &[u8]) -> Option<usize>
    ensures { MatchOption result (All (λ b. b ≢ 47) word.now) (λ i. EndsAtSlash word.now i) }
{
    for i in (0..word.len()).rev() {
        if word[i] == b'/' {
            return Some(i);
        }
    }
    None
}

/// The address and the number of bits of a word `ADDR/BITS`, with the address as it is spelled.
pub fn net(word: &[u8]) -> Option<(Addr, u8)>
    ensures { ReadsNet word.now result }
{
    let Some(slash) = last_slash(word) else {
        return None;
    };
    let Some(address) = address(&word[..slash]) else {
        return None;
    };
    let Some(bits) = number(BITS_DIGITS, &word[slash + 1..]) else {
        return None;
    };
    if bits > u64::from(width(address)) {
        return None;
    }
    Some((address, bits as u8))
}

/// The number with its low bits, `host` of them, cleared.
fn cleared(value: u128, host: u32) -> u128
    requires { host ≤ 128 }
    ensures { result ≡ value / 2 ^ host * 2 ^ host }
{
    if host == 128 {
        return 0;
    }
    (value >> host) << host
}

/// The net that an address lies in: the address with all but its first `bits` bits cleared, or as
/// it is if it has no more bits than that.
pub fn network(address: Addr, bits: u8) -> Addr
    ensures { result ≡ network address bits }
{
    match address {
        Addr::V4(value) => Addr::V4(
            cleared(u128::from(value), u32::from(V4_BITS - bits.min(V4_BITS))) as u32,
        ),
        Addr::V6(value) => Addr::V6(cleared(value, u32::from(V6_BITS - bits.min(V6_BITS)))),
    }
}

/// The number whose binary digits are `count` ones.
fn ones(count: u32) -> u128
    requires { count ≤ 128 }
    ensures { result + 1 ≡ 2 ^ count }
{
    if count == 128 {
        return u128::MAX;
    }
    (1 << count) - 1
}

/// The number of ones that lead in `width` bits, where nothing but zeros follows them.
fn leading_ones(value: u128, width: u32) -> Option<u8>
    requires { width ≤ 128 }
    ensures { MatchOption result ((n : ℕ) → IsOnes width n value → ⊥) (λ n. IsOnes width n value) }
{
    let all = ones(width);
    if value > all {
        return None;
    }
    for bits in 0..width + 1 {
        if all - value == ones(width - bits) {
            return Some(bits as u8);
        }
    }
    None
}

/// The number of bits that a mask keeps, where it is ones followed by zeros.
pub fn mask_bits(mask: Addr) -> Option<u8>
    ensures { MatchOption result ((n : ℕ) → IsMask mask n → ⊥) (λ n. IsMask mask n) }
{
    match mask {
        Addr::V4(value) => leading_ones(u128::from(value), u32::from(V4_BITS)),
        Addr::V6(value) => leading_ones(value, u32::from(V6_BITS)),
    }
}
