//! The tokens of a text, from the left.
ghost use Rattle.std.specs.Prelude.{◌≡◌, ℕ, ◌+◌, ◌^◌, ◌≤◌, ◌<◌, ◌↔◌, IsTrue, length, drop};
ghost use Rattle.std.specs.List.{prefix_len};
ghost use Rattle.st_query.specs.Tokens.{is_space, is_word_byte, keyword, protocol_or_time, Begins, EndsRun, HasMask, IsWord};
ghost use Rattle.st_query.specs.Lexer.{Next, FirstToken};

use crate::addrs::Addr;
use crate::limits::NUMBER_DIGITS;
use crate::time_reader::{instant, span};
use crate::tokens::{Keyword, Token};
use crate::word_reader::{address, mask_bits, net, number};

/// A token of a text, with the offsets of its first byte and of the byte after its last.
#[derive(Clone, Copy)]
pub struct Found {
    pub token: Token,
    pub start: usize,
    pub end: usize,
}

/// Whether the byte is white space.
fn is_space(byte: u8) -> bool
    ensures { result ≡ is_space byte }
{
    byte == b' ' || byte == b'\t' || byte == b'\r' || byte == b'\n'
}

/// Whether the byte belongs to words.
fn is_word_byte(byte: u8) -> bool
    ensures { result ≡ is_word_byte byte }
{
    matches!(byte, b'a'..=b'z' | b'A'..=b'Z' | b'0'..=b'9' | b'.' | b':' | b'/' | b'-' | b'+')
}

/// How many bytes of white space come first.
fn space_len(bytes: &[u8]) -> usize
    ensures bound { result ≤ length bytes.now }
    ensures value { result ≡ prefix_len is_space bytes.now }
{
    let mut n = 0;
    while n < bytes.len() && is_space(bytes[n]) {
        n += 1;
    }
    n
}

/// How many bytes of words come first.
fn word_len(bytes: &[u8]) -> usize
    ensures bound { result ≤ length bytes.now }
    ensures value { result ≡ prefix_len is_word_byte bytes.now }
{
    let mut n = 0;
    while n < bytes.len() && is_word_byte(bytes[n]) {
        n += 1;
    }
    n
}

/// Whether `rest` begins with the mark.
fn begins(rest: &[u8], mark: &[u8]) -> bool
    ensures { IsTrue result ↔ Begins rest.now mark.now }
{
    rest.starts_with(mark)
}

/// The token of a word that the grammar names.
fn keyword(word: &[u8]) -> Option<Token>
    ensures { result ≡ keyword word.now }
{
    if word == b"and".as_slice() {
        return Some(Token::And);
    }
    if word == b"or".as_slice() {
        return Some(Token::Or);
    }
    if word == b"host".as_slice() {
        return Some(Token::Key(Keyword::Host));
    }
    if word == b"net".as_slice() {
        return Some(Token::Key(Keyword::Net));
    }
    if word == b"mask".as_slice() {
        return Some(Token::Key(Keyword::Mask));
    }
    if word == b"port".as_slice() {
        return Some(Token::Key(Keyword::Port));
    }
    if word == b"ip".as_slice() {
        return Some(Token::Key(Keyword::Ip));
    }
    if word == b"proto".as_slice() {
        return Some(Token::Key(Keyword::Proto));
    }
    if word == b"vlan".as_slice() {
        return Some(Token::Key(Keyword::Vlan));
    }
    if word == b"mpls".as_slice() {
        return Some(Token::Key(Keyword::Mpls));
    }
    protocol_or_time(word)
}

/// The token of a protocol's name, or of a word that times are asked by.
fn protocol_or_time(word: &[u8]) -> Option<Token>
    ensures { result ≡ protocol_or_time word.now }
{
    if word == b"icmp".as_slice() {
        return Some(Token::Key(Keyword::Icmp));
    }
    if word == b"tcp".as_slice() {
        return Some(Token::Key(Keyword::Tcp));
    }
    if word == b"udp".as_slice() {
        return Some(Token::Key(Keyword::Udp));
    }
    if word == b"before".as_slice() {
        return Some(Token::Key(Keyword::Before));
    }
    if word == b"after".as_slice() {
        return Some(Token::Key(Keyword::After));
    }
    if word == b"ago".as_slice() {
        return Some(Token::Key(Keyword::Ago));
    }
    None
}

/// The token of a word.
fn word_token(word: &[u8]) -> Token
    ensures { IsWord word.now result }
{
    if let Some(token) = keyword(word) {
        return token;
    }
    if let Some(number) = number(NUMBER_DIGITS, word) {
        return Token::Number(number);
    }
    if let Some(addr) = address(word) {
        return Token::Address {
            addr,
            mask: mask_bits(addr),
        };
    }
    if let Some((addr, bits)) = net(word) {
        return Token::Net { addr, bits };
    }
    if let Some(second) = instant(word) {
        return Token::Instant(second);
    }
    if let Some((count, hours)) = span(word) {
        return Token::Span { count, hours };
    }
    Token::Other
}

/// The token that the text begins with, and how many bytes it has.
fn token_at(rest: &[u8]) -> Option<(Token, usize)>
    requires { EndsRun is_space rest.now }
    ensures { FirstToken rest.now result }
{
    if rest.is_empty() {
        return None;
    }
    if begins(rest, b"(") {
        return Some((Token::Open, 1));
    }
    if begins(rest, b")") {
        return Some((Token::Close, 1));
    }
    if begins(rest, b"&&") {
        return Some((Token::And, 2));
    }
    if begins(rest, b"||") {
        return Some((Token::Or, 2));
    }
    let len = word_len(rest);
    if len > 0 {
        return Some((word_token(&rest[..len]), len));
    }
    Some((Token::Stray, 1))
}

/// The first token of `rest`, which begins at offset `at` of the text.
fn first_token(rest: &[u8], at: usize) -> Option<Found>
    requires { at + length rest.now < 2 ^ 63 }
    ensures { Next at rest.now result }
{
    let gap = space_len(rest);
    match token_at(&rest[gap..]) {
        None => None,
        Some(first) => Some(Found {
            token: first.0,
            start: at + gap,
            end: at + gap + first.1,
        }),
    }
}

/// The first token of `text` from offset `at` on.
pub fn next_token(text: &[u8], at: usize) -> Option<Found>
    requires { at ≤ length text.now }
    ensures { Next at (drop at text.now) result }
{
    first_token(&text[at..], at)
}
