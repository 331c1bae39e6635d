//! Which packets a query matches.
ghost use Rattle.std.specs.Prelude.{◌≡◌, ℕ, ◌≤◌, ◌↔◌, ⊤, ℤ, pos, ◌-ℤ◌, ◌<ℤ◌, ◌≤ℤ◌, IsTrue, IsFalse, MatchOption, Contains, length, take};
ghost use Rattle.st_walk.specs.Walk.{FrameHas, HasKey};
ghost use Rattle.st_walk.specs.declared.text.Key.{Key};
ghost use Rattle.st_query.specs.Meaning.{Matches, MatchesTree, MatchesPrimitive, IsInNet, addr_key, second_of, span_of};
ghost use Rattle.st_query.specs.Matcher.{KeyIsIn, FrameIsIn, AnyIsIn, Gathers, HasItsKeys};
ghost use Rattle.st_query.specs.Words.{network};
ghost use Rattle.st_query.specs.Trees.{tree, is_joined};
ghost use Rattle.st_query.specs.Alternatives.{IsChainOf};

use crate::addrs::Addr;
use crate::alternatives::includes_any;
use crate::nodes::{Node, Query, When};
use crate::patterns::Chain;
use crate::units::{HOUR, MINUTE, SECOND};
use crate::word_reader::network;
use st_base::RecordRef;
use st_walk::{Key, has_key, keys};

/// A frame's keys are gathered if they are at most this many. A frame of IPv4 under two tags has
/// seven.
const MOST_KEYS: usize = 12;

/// The key of an address.
pub fn addr_key(addr: Addr) -> Key
    ensures { result ≡ addr_key addr }
{
    match addr {
        Addr::V4(bits) => Key::V4(bits),
        Addr::V6(bits) => Key::V6(bits),
    }
}

/// The second of a moment, in seconds since 1970, where the clock stands at `now` microseconds
/// since 1970: a relative one counts back from the clock's whole second, and may lie before 1970.
pub fn second_of(when: When, now: u64) -> i64
    ensures { result ≡ second_of when now }
{
    match when {
        When::At(second) => second,
        When::Ago { count, hours } => seconds_before(now / SECOND, span_of(count, hours)),
    }
}

/// This many hours or minutes, in seconds.
fn span_of(count: u32, hours: bool) -> u64
    ensures value { result ≡ span_of count hours }
    ensures bound { result ≤ 15461882262000 }
{
    u64::from(count) * if hours { HOUR } else { MINUTE }
}

/// The second that lies `span` seconds before this one.
fn seconds_before(second: u64, span: u64) -> i64
    requires second { second ≤ 18446744073710 }
    requires span { span ≤ 15461882262000 }
    ensures { result ≡ pos second -ℤ pos span }
{
    second as i64 - span as i64
}

/// Whether the second lies before the moment's second.
fn is_before(second: u32, moment: i64) -> bool
    ensures { IsTrue result ↔ (pos second <ℤ moment) }
{
    i64::from(second) < moment
}

/// The keys of a frame, as the first ones in `room`, or None if there is too little room.
fn gather(frame: &[u8], room: &mut [Key]) -> Option<usize>
    ensures { Gathers frame.now room.new result }
{
    let mut len = 0;
    for key in keys(frame) {
        if len >= room.len() {
            return None;
        }
        room[len] = key;
        len += 1;
    }
    Some(len)
}

/// Whether the query's left part is joined too, so that it pays to gather a frame's keys for it.
fn is_long(node: &Node) -> bool {
    let (Node::And { left, .. } | Node::Or { left, .. }) = node else {
        return false;
    };
    matches!(left.get(), Node::And { .. } | Node::Or { .. })
}

/// Whether the key is of an address in this net.
fn is_in(key: Key, net: Addr, bits: u8) -> bool
    ensures { IsTrue result ↔ KeyIsIn (network net bits) bits key }
{
    match (key, net) {
        (Key::V4(own), Addr::V4(_)) => network(Addr::V4(own), bits) == network(net, bits),
        (Key::V6(own), Addr::V6(_)) => network(Addr::V6(own), bits) == network(net, bits),
        _ => false,
    }
}

/// A packet's record, and its frame's keys if they are `whole`.
#[derive(Clone, Copy)]
struct Packet<'a> {
    record: &'a RecordRef<'a>,
    keys: &'a [Key],
    whole: bool,
}

/// Whether the packet has this key, which is no second.
fn has(packet: &Packet<'_>, key: Key) -> bool
    requires keys { HasItsKeys packet.now }
    requires lasting { (s : ℕ) → key ≡ Key.Second s → ⊥ }
    ensures { IsTrue result ↔ HasKey packet.now.record.now.body packet.now.record.now.sec key }
{
    let record = packet.record;
    if packet.whole {
        contains(packet.keys, key)
    } else {
        has_key(record.body, &key)
    }
}

/// Whether the key is one of these.
fn contains(keys: &[Key], key: Key) -> bool
    ensures { IsTrue result ↔ Contains keys.now key }
{
    keys.iter().any(|own| *own == key)
}

/// Whether the packet has an address in this net.
fn is_in_net(packet: &Packet<'_>, net: Addr, bits: u8) -> bool
    requires { HasItsKeys packet.now }
    ensures { IsTrue result ↔ IsInNet net bits packet.now.record.now }
{
    let record = packet.record;
    if packet.whole {
        any_in(packet.keys, net, bits)
    } else {
        walks_into(record.body, net, bits)
    }
}

/// Whether one of the keys is of an address in this net.
fn any_in(keys: &[Key], net: Addr, bits: u8) -> bool
    ensures { IsTrue result ↔ AnyIsIn (network net bits) bits keys.now }
{
    keys.iter().any(|key| is_in(*key, net, bits))
}

/// Whether the frame has an address in this net.
fn walks_into(frame: &[u8], net: Addr, bits: u8) -> bool
    ensures { IsTrue result ↔ FrameIsIn frame.now (network net bits) bits }
{
    keys(frame).any(|key| is_in(key, net, bits))
}

/// Whether the packet matches a primitive, where the clock stands at `now` microseconds since 1970.
fn matches_primitive(node: &Node, now: u64, packet: &Packet<'_>) -> bool
    requires keys { HasItsKeys packet.now }
    requires alone { IsFalse (is_joined (tree node.now)) }
    ensures { IsTrue result ↔ MatchesTree (tree node.now) now packet.now.record.now }
{
    let record = packet.record;
    match node {
        Node::And { .. } | Node::Or { .. } => unreachable!(),
        Node::Host(addr) => has(packet, addr_key(*addr)),
        Node::Net { addr, bits } => is_in_net(packet, *addr, *bits),
        Node::Port(port) => has(packet, Key::Port(*port)),
        Node::Proto(proto) => has(packet, Key::Proto(*proto)),
        Node::Vlan(tag) => has(packet, Key::Vlan(*tag)),
        Node::Mpls(label) => has(packet, Key::Mpls(*label)),
        Node::Before(when) => is_before(record.sec, second_of(*when, now)),
        Node::After(when) => !is_before(record.sec, second_of(*when, now)),
    }
}

/// Whether the packet matches the part of a query, where the clock stands at `now` microseconds
/// since 1970.
///
/// A chain of joined parts is matched by a loop from its last part on, so that no call goes deeper
/// than the parentheses.
fn matches_part(node: &Node, now: u64, packet: &Packet<'_>) -> bool
    requires { HasItsKeys packet.now }
    ensures { IsTrue result ↔ MatchesTree (tree node.now) now packet.now.record.now }
{
    let mut rest = node;
    'parts: loop {
        match rest {
            Node::Or { left, right } => {
                if matches_part(right.get(), now, packet) {
                    return true;
                }
                rest = left.get();
            }
            Node::And { left, right } => {
                if !matches_part(right.get(), now, packet) {
                    return false;
                }
                rest = left.get();
            }
            primitive => return matches_primitive(primitive, now, packet),
        }
    }
}

/// Whether the packet matches a query that begins with these alternatives, where the clock stands
/// at `now` microseconds since 1970.
///
/// What follows the alternatives is asked first, from the last part on, since it may decide without
/// them.
fn matches_chain(node: &Node, chain: &Chain, now: u64, packet: &Packet<'_>) -> bool
    requires keys { HasItsKeys packet.now }
    requires chain { IsChainOf (tree node.now) chain.now }
    ensures { IsTrue result ↔ MatchesTree (tree node.now) now packet.now.record.now }
{
    let record = packet.record;
    let mut rest = node;
    for step in 0..chain.following {
        match rest {
            Node::Or { left, right } => {
                if matches_part(right.get(), now, packet) {
                    return true;
                }
                rest = left.get();
            }
            Node::And { left, right } => {
                if !matches_part(right.get(), now, packet) {
                    return false;
                }
                rest = left.get();
            }
            primitive => return matches_primitive(primitive, now, packet),
        }
    }
    includes_any(&chain.groups, record.body)
}

/// Whether the packet matches a query of many parts, where the clock stands at `now` microseconds
/// since 1970: the keys of its frame are gathered once for all parts.
fn matches_long(node: &Node, now: u64, r: RecordRef<'_>) -> bool
    ensures { IsTrue result ↔ MatchesTree (tree node.now) now r.entry }
{
    let mut room = [Key::Proto(0); MOST_KEYS];
    let len = gather(r.body, &mut room);
    let packet = Packet {
        record: &r,
        keys: &room[..len.unwrap_or(0)],
        whole: len.is_some(),
    };
    matches_part(node, now, &packet)
}

/// Whether the packet matches the query, where the clock stands at `now` microseconds since 1970.
/// It takes no memory.
pub fn matches(query: &Query, now: u64, r: RecordRef<'_>) -> bool
    ensures { IsTrue result ↔ Matches query.now now r.entry }
{
    let node = query.node();
    if query.chain().is_none() && is_long(node) {
        return matches_long(node, now, r);
    }
    let packet = Packet {
        record: &r,
        keys: &[],
        whole: false,
    };
    match query.chain() {
        Some(chain) => matches_chain(node, chain, now, &packet),
        None => matches_part(node, now, &packet),
    }
}
