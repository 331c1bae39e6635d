//! The alternatives of a chain joined by `or`, sorted by kind and number, so that each key of a
//! frame is looked up once and not once for each alternative.
ghost use Rattle.std.specs.Prelude.{◌≡◌, ℕ, suc, ◌/◌, ◌^◌, ◌↔◌, IfOk, IfSome, IsTrue, MatchOption, Contains};
ghost use Rattle.std.specs.List.Sorted.{IsNonDecreasing};
ghost use Rattle.st_base.specs.Records.{Rec};
ghost use Rattle.st_walk.specs.Walk.{FrameHas};
ghost use Rattle.st_walk.specs.declared.text.Key.{Key};
ghost use Rattle.st_query.specs.Meaning.{MatchesTree};
ghost use Rattle.st_query.specs.Trees.{tree};
ghost use Rattle.st_query.specs.Alternatives.{kind_of, number_of, exact, net_pattern, pattern_in, left_part, IsAlone, IsLeft, ArePatternsOf, AreNumbers, HasGroup, IsGrouped, GroupIncludes, Included, AnyIncluded, HasChain};

use crate::addrs::Addr;
use crate::limits::{V4_BITS, V6_BITS};
use crate::matcher::addr_key;
use crate::nodes::Node;
use crate::patterns::{Chain, Group, KeyKind, Pattern};
use st_walk::{Key, keys};
use std::alloc::{AllocError, Global};

/// The alternatives of a chain are sorted only if they are at least this many. Of fewer, one after
/// the other is looked up as fast.
const MIN_ALTERNATIVES: usize = 4;

/// The kind of a key.
fn kind_of(key: Key) -> KeyKind
    ensures { result ≡ kind_of key }
{
    match key {
        Key::Proto(_) => KeyKind::Proto,
        Key::Port(_) => KeyKind::Port,
        Key::Vlan(_) => KeyKind::Vlan,
        Key::V4(_) => KeyKind::V4,
        Key::Mpls(_) => KeyKind::Mpls,
        Key::V6(_) => KeyKind::V6,
        Key::Second(_) => KeyKind::Second,
    }
}

/// The number of a key.
fn number_of(key: Key) -> u128
    ensures { result ≡ number_of key }
{
    match key {
        Key::Proto(number) => u128::from(number),
        Key::Port(number) => u128::from(number),
        Key::Vlan(number) => u128::from(number),
        Key::V4(number) => u128::from(number),
        Key::Mpls(number) => u128::from(number),
        Key::V6(number) => number,
        Key::Second(number) => u128::from(number),
    }
}

/// The number without its last bits.
fn shifted(number: u128, dropped: u8) -> u128
    ensures { result ≡ number / 2 ^ dropped }
{
    if dropped >= V6_BITS {
        return 0;
    }
    number >> u32::from(dropped)
}

/// The pattern of one key.
fn exact(key: Key) -> Pattern
    ensures { result ≡ exact key }
{
    Pattern {
        kind: kind_of(key),
        dropped: 0,
        number: number_of(key),
    }
}

/// The pattern of the addresses in a net.
fn net_pattern(addr: Addr, bits: u8) -> Pattern
    ensures { result ≡ net_pattern addr bits }
{
    match addr {
        Addr::V4(value) => {
            let dropped = V4_BITS - bits.min(V4_BITS);
            Pattern {
                kind: KeyKind::V4,
                dropped,
                number: shifted(u128::from(value), dropped),
            }
        }
        Addr::V6(value) => {
            let dropped = V6_BITS - bits.min(V6_BITS);
            Pattern {
                kind: KeyKind::V6,
                dropped,
                number: shifted(value, dropped),
            }
        }
    }
}

/// The pattern of a query that asks for a key, or None.
fn pattern_in(node: &Node) -> Option<Pattern>
    ensures { result ≡ pattern_in (tree node.now) }
{
    match node {
        Node::Host(addr) => Some(exact(addr_key(*addr))),
        Node::Net { addr, bits } => Some(net_pattern(*addr, *bits)),
        Node::Port(port) => Some(exact(Key::Port(*port))),
        Node::Proto(proto) => Some(exact(Key::Proto(*proto))),
        Node::Vlan(tag) => Some(exact(Key::Vlan(*tag))),
        Node::Mpls(label) => Some(exact(Key::Mpls(*label))),
        Node::And { .. } | Node::Or { .. } | Node::Before(_) | Node::After(_) => None,
    }
}

/// How many parts of a query follow the alternatives that it begins with, or None if these are too
/// few.
fn chain_start(node: &Node) -> Option<usize> {
    let mut following = 0usize;
    let mut depth = 0usize;
    let mut rest = node;
    'parts: loop {
        depth = depth.saturating_add(1);
        match rest {
            Node::Or { left, right } => {
                if pattern_in(right.get()).is_none() {
                    following = depth;
                }
                rest = left.get();
            }
            Node::And { left, .. } => {
                following = depth;
                rest = left.get();
            }
            primitive => {
                if pattern_in(primitive).is_none() {
                    return None;
                }
                break;
            }
        }
    }
    if depth.saturating_sub(following) < MIN_ALTERNATIVES {
        return None;
    }
    Some(following)
}

/// The query's left part, or None if it is not joined.
fn without_last(node: &Node) -> Option<&Node>
    ensures { MatchOption result (IsAlone node.now) (λ l. IsLeft node.now l.now) }
{
    match node {
        Node::And { left, .. } | Node::Or { left, .. } => Some(left.get()),
        Node::Host(_)
        | Node::Net { .. }
        | Node::Port(_)
        | Node::Proto(_)
        | Node::Vlan(_)
        | Node::Mpls(_)
        | Node::Before(_)
        | Node::After(_) => None,
    }
}

/// The query without its last parts, this many.
fn left_part(node: &Node, following: usize) -> &Node
    ensures { tree result.now ≡ left_part (tree node.now) following }
{
    let mut rest = node;
    for step in 0..following {
        let Some(left) = without_last(rest) else {
            return rest;
        };
        rest = left;
    }
    rest
}

/// The patterns of a query that is nothing but alternatives, or None.
fn patterns_of(alloc: Global, node: &Node) -> Result<Option<Vec<Pattern>>, AllocError>
    ensures { IfOk result (λ o. IfSome o (λ v. ArePatternsOf (tree node.now) v.items)) }
{
    let mut patterns = Vec::new(alloc);
    let mut rest = node;
    'parts: loop {
        match rest {
            Node::Or { left, right } => {
                let Some(pattern) = pattern_in(right.get()) else {
                    return Ok(None);
                };
                patterns.push(pattern)?;
                rest = left.get();
            }
            last => {
                let Some(pattern) = pattern_in(last) else {
                    return Ok(None);
                };
                patterns.push(pattern)?;
                return Ok(Some(patterns));
            }
        }
    }
}

/// Whether the pattern is of this kind and drops this many bits.
fn is_of(pattern: Pattern, kind: KeyKind, dropped: u8) -> bool
    ensures { IsTrue result ↔ ((pattern.kind ≡ kind) × (pattern.dropped ≡ dropped)) }
{
    pattern.kind == kind && pattern.dropped == dropped
}

/// The numbers of the patterns of one kind that drop this many bits, in ascending order.
fn numbers_of(
    alloc: Global,
    patterns: &[Pattern],
    kind: KeyKind,
    dropped: u8,
) -> Result<Vec<u128>, AllocError>
    ensures sorted { IfOk result (λ v. IsNonDecreasing v.items) }
    ensures members { IfOk result (λ v. AreNumbers kind dropped patterns.now v.items) }
{
    let mut numbers = Vec::new(alloc);
    for pattern in patterns {
        if is_of(*pattern, kind, dropped) {
            numbers.push(pattern.number)?;
        }
    }
    numbers.sort_unstable();
    Ok(numbers)
}

/// Whether the group is of this kind and drops this many bits.
fn is_group(group: &Group, kind: KeyKind, dropped: u8) -> bool
    ensures { IsTrue result ↔ ((group.now.kind ≡ kind) × (group.now.dropped ≡ dropped)) }
{
    group.kind == kind && group.dropped == dropped
}

/// Whether there is a group of this kind that drops this many bits.
fn has_group(groups: &[Group], kind: KeyKind, dropped: u8) -> bool
    ensures { IsTrue result ↔ HasGroup groups.now kind dropped }
{
    for group in groups {
        if is_group(group, kind, dropped) {
            return true;
        }
    }
    false
}

/// The patterns, in groups.
fn grouped(alloc: Global, patterns: &[Pattern]) -> Result<Vec<Group>, AllocError>
    ensures { IfOk result (λ v. IsGrouped patterns.now v.items) }
{
    let mut groups = Vec::new(alloc);
    for pattern in patterns {
        let (kind, dropped) = (pattern.kind, pattern.dropped);
        if !has_group(&groups, kind, dropped) {
            let numbers = numbers_of(alloc, patterns, kind, dropped)?;
            groups.push(Group {
                kind,
                dropped,
                numbers,
            })?;
        }
    }
    Ok(groups)
}

/// The chain that the query begins with, if it has enough alternatives.
pub fn chain_of(alloc: Global, node: &Node) -> Result<Option<Chain>, AllocError>
    ensures { IfOk result (λ o. HasChain (tree node.now) o) }
{
    let Some(following) = chain_start(node) else {
        return Ok(None);
    };
    let Some(patterns) = patterns_of(alloc, left_part(node, following))? else {
        return Ok(None);
    };
    let groups = grouped(alloc, &patterns)?;
    Ok(Some(Chain { groups, following }))
}

/// Whether the number is one of these, which are in ascending order.
fn has_number(numbers: &[u128], number: u128) -> bool
    requires { IsNonDecreasing numbers.now }
    ensures { IsTrue result ↔ Contains numbers.now number }
{
    numbers.binary_search(&number).is_ok()
}

/// Whether the group has a pattern that a key of this kind and number fits.
fn group_includes(group: &Group, kind: KeyKind, number: u128) -> bool
    ensures { IsTrue result ↔ GroupIncludes group.now kind number }
{
    if group.kind != kind {
        return false;
    }
    has_number(&group.numbers, shifted(number, group.dropped))
}

/// Whether one of the groups has a pattern that the key fits.
fn includes(groups: &[Group], key: Key) -> bool
    ensures { IsTrue result ↔ Included groups.now key }
{
    let kind = kind_of(key);
    let number = number_of(key);
    for group in groups {
        if group_includes(group, kind, number) {
            return true;
        }
    }
    false
}

/// Whether one of the groups has a pattern that a key of the frame fits.
pub fn includes_any(groups: &[Group], frame: &[u8]) -> bool
    ensures { IsTrue result ↔ AnyIncluded groups.now frame.now }
{
    keys(frame).any(|key| includes(groups, key))
}
