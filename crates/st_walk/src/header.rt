//! Where the walk is, and the step from there to the next layer.

ghost use Rattle.std.specs.Prelude.{◌≡◌, ◌+◌, ◌≤◌, length, IsTrue, IfSome, is_some, if◌then◌else◌};
ghost use Rattle.st_walk.specs.Layers.{holds, is_tag, is_labelled, is_bottom, is_version, is_ip4, is_ip6, is_first, has_ports, is_extension, extension_size, is_later, field};
ghost use Rattle.st_walk.specs.declared.header.Layer.TheVariants.{Ether, Next, Label, Ip4, Ip6, Chain, Ports};
ghost use Rattle.st_walk.specs.Listing.{following, spot_at};

use crate::fields::{holds, u16_at};
use crate::numbers::{
    AUTHENTICATION, AUTHENTICATION_UNCOUNTED, AUTHENTICATION_UNIT, CUSTOMER_TAG, DESTINATION,
    ETHER_KIND_AT, ETHER_SIZE, EXTENSION_UNIT, EXTENSION_UNITS_AT, FRAGMENT, FRAGMENT_OFFSET_AT,
    FRAGMENT_OFFSET_UNIT, FRAGMENT_SIZE, HALF, HOP_BY_HOP, IP4, IP4_FRAGMENT_AT,
    IP4_FRAGMENT_LIMIT, IP4_PROTO_AT, IP4_SIZE, IP4_VERSION, IP4_WORD_SIZE, IP4_WORDS, IP6,
    IP6_NEXT_AT, IP6_SIZE, IP6_VERSION, KIND_SIZE, LABEL_END_AT, LABEL_SIZE, MPLS, MPLS_MULTICAST,
    OUTER_TAG, ROUTING, SERVICE_TAG, TAG_KIND_AT, TAG_SIZE, TCP, UDP,
};

/// What begins at an offset of a frame.
#[derive(Clone, Copy, Debug)]
pub enum Layer {
    /// The Ethernet header.
    Ether,
    /// What this EtherType announces.
    Next(u16),
    /// A label of MPLS.
    Label,
    /// An IPv4 header.
    Ip4,
    /// An IPv6 header.
    Ip6,
    /// What this number announces in the chain that an IPv6 header begins.
    Chain(u8),
    /// The end of the chain, on this number.
    Last(u8),
    /// The end of the chain in a later fragment, on this number.
    Fragment(u8),
    /// The ports of TCP or UDP.
    Ports,
}

/// A layer and the offset in the frame, in bytes, at which it begins.
#[derive(Clone, Copy, Debug)]
pub struct Spot {
    pub at: usize,
    pub layer: Layer,
}

/// The layer that this one leads to, or `None` where the walk ends.
#[inline(always)]
pub fn following(frame: &[u8], spot: Spot) -> Option<Spot>
    ensures { result ≡ following frame.now spot.at spot.layer }
{
    let at = spot.at;
    match spot.layer {
        Layer::Ether => after_ether(frame, at),
        Layer::Next(kind) => after_kind(frame, at, kind),
        Layer::Label => after_label(frame, at),
        Layer::Ip4 => after_ip4(frame, at),
        Layer::Ip6 => after_ip6(frame, at),
        Layer::Chain(number) => after_extension(frame, at, number),
        Layer::Last(number) => after_last(at, number),
        Layer::Fragment(_) => None,
        Layer::Ports => None,
    }
}

#[inline(always)]
fn leads_to(at: usize, layer: Layer) -> Option<Spot>
    ensures { result ≡ spot_at at layer }
{
    Some(Spot { at, layer })
}

#[inline]
fn after_ether(frame: &[u8], at: usize) -> Option<Spot>
    ensures { result ≡ following frame.now at Ether }
{
    if !holds(frame, at, ETHER_SIZE) {
        return None;
    }
    let kind = u16_at(frame, at + ETHER_KIND_AT);
    leads_to(at + ETHER_SIZE, Layer::Next(kind))
}

#[inline]
fn after_kind(frame: &[u8], at: usize, kind: u16) -> Option<Spot>
    ensures { result ≡ following frame.now at (Next kind) }
{
    if is_tag(kind) {
        return after_tag(frame, at);
    }
    if is_labelled(kind) {
        return leads_to(at, Layer::Label);
    }
    match kind {
        IP4 => leads_to(at, Layer::Ip4),
        IP6 => leads_to(at, Layer::Ip6),
        _ => None,
    }
}

#[inline]
fn after_tag(frame: &[u8], at: usize) -> Option<Spot>
    ensures { result ≡ (if holds frame.now at TAG_SIZE
        then spot_at (at + TAG_SIZE) (Next (field KIND_SIZE (at + TAG_KIND_AT) frame.now))
        else None) }
{
    if !holds(frame, at, TAG_SIZE) {
        return None;
    }
    let kind = u16_at(frame, at + TAG_KIND_AT);
    leads_to(at + TAG_SIZE, Layer::Next(kind))
}

#[inline]
fn after_label(frame: &[u8], at: usize) -> Option<Spot>
    ensures { result ≡ following frame.now at Label }
{
    if !holds(frame, at, LABEL_SIZE) {
        return None;
    }
    let at_next = at + LABEL_SIZE;
    if !is_bottom(frame, at) {
        return leads_to(at_next, Layer::Label);
    }
    if is_version(frame, at_next, IP4_VERSION) {
        return leads_to(at_next, Layer::Ip4);
    }
    if is_version(frame, at_next, IP6_VERSION) {
        return leads_to(at_next, Layer::Ip6);
    }
    None
}

#[inline]
fn after_ip4(frame: &[u8], at: usize) -> Option<Spot>
    ensures { result ≡ following frame.now at Ip4 }
{
    if !is_ip4(frame, at) || !is_first(frame, at) || !has_ports(frame[at + IP4_PROTO_AT]) {
        return None;
    }
    let words = (frame[at] % HALF) as usize;
    leads_to(at + IP4_WORD_SIZE * words, Layer::Ports)
}

#[inline]
fn after_ip6(frame: &[u8], at: usize) -> Option<Spot>
    ensures { result ≡ following frame.now at Ip6 }
{
    if !is_ip6(frame, at) {
        return None;
    }
    leads_to(at + IP6_SIZE, Layer::Chain(frame[at + IP6_NEXT_AT]))
}

#[inline]
fn after_extension(frame: &[u8], at: usize, number: u8) -> Option<Spot>
    ensures { result ≡ following frame.now at (Chain number) }
{
    let Some(end) = extension_end(frame, at, number) else {
        return leads_to(at, Layer::Last(number));
    };
    let next = frame[at];
    if is_later(frame, at, number) {
        return leads_to(end, Layer::Fragment(next));
    }
    leads_to(end, Layer::Chain(next))
}

#[inline]
fn after_last(at: usize, number: u8) -> Option<Spot>
    ensures { result ≡ (if has_ports number then spot_at at Ports else None) }
{
    if has_ports(number) {
        leads_to(at, Layer::Ports)
    } else {
        None
    }
}

#[inline]
#[tactic(auto, unfolding(crate::specs::Layers::is_tag))]
pub fn is_tag(kind: u16) -> bool
    ensures { result ≡ is_tag kind }
{
    kind == CUSTOMER_TAG || kind == SERVICE_TAG || kind == OUTER_TAG
}

#[inline]
#[tactic(auto, unfolding(crate::specs::Layers::is_labelled))]
fn is_labelled(kind: u16) -> bool
    ensures { result ≡ is_labelled kind }
{
    kind == MPLS || kind == MPLS_MULTICAST
}

#[inline]
#[tactic(auto, unfolding(crate::specs::Layers::is_bottom))]
fn is_bottom(frame: &[u8], at: usize) -> bool
    requires { at + LABEL_SIZE ≤ length frame.now }
    ensures { result ≡ is_bottom frame.now at }
{
    frame[at + LABEL_END_AT] % 2 == 1
}

#[inline]
#[tactic(auto, unfolding(crate::specs::Layers::is_version))]
fn is_version(frame: &[u8], at: usize, version: u8) -> bool
    ensures { result ≡ is_version frame.now at version }
{
    holds(frame, at, 1) && frame[at] / HALF == version
}

#[inline]
#[tactic(auto, unfolding(crate::specs::Layers::is_ip4))]
pub fn is_ip4(frame: &[u8], at: usize) -> bool
    ensures value { result ≡ is_ip4 frame.now at }
    ensures room { IsTrue result → at + IP4_SIZE ≤ length frame.now }
{
    holds(frame, at, IP4_SIZE) && frame[at] / HALF == IP4_VERSION && frame[at] % HALF >= IP4_WORDS
}

#[inline]
#[tactic(auto, unfolding(crate::specs::Layers::is_ip6))]
pub fn is_ip6(frame: &[u8], at: usize) -> bool
    ensures value { result ≡ is_ip6 frame.now at }
    ensures room { IsTrue result → at + IP6_SIZE ≤ length frame.now }
{
    holds(frame, at, IP6_SIZE) && frame[at] / HALF == IP6_VERSION
}

#[inline]
#[tactic(auto, unfolding(crate::specs::Layers::is_first))]
fn is_first(frame: &[u8], at: usize) -> bool
    requires { at + IP4_SIZE ≤ length frame.now }
    ensures { result ≡ is_first frame.now at }
{
    u16_at(frame, at + IP4_FRAGMENT_AT) % IP4_FRAGMENT_LIMIT == 0
}

#[inline]
#[tactic(auto, unfolding(crate::specs::Layers::has_ports))]
fn has_ports(number: u8) -> bool
    ensures { result ≡ has_ports number }
{
    number == TCP || number == UDP
}

// Where the extension header of this number ends, or `None` where the number names none or the
// header isn't wholly captured. Each has 8 bytes at least.
#[inline]
#[tactic(auto, using(crate::proofs::Headers::none_within), unfolding(crate::specs::Layers::extension_size, crate::specs::Layers::is_extension))]
fn extension_end(frame: &[u8], at: usize, number: u8) -> Option<usize>
    ensures end { IfSome result (λ e. (e ≡ at + extension_size frame.now at number)
        × (at + EXTENSION_UNIT ≤ length frame.now)) }
    ensures some { is_some result ≡ is_extension frame.now at number }
{
    if !holds(frame, at, EXTENSION_UNIT) {
        return None;
    }
    let units = frame[at + EXTENSION_UNITS_AT] as usize;
    let size = match number {
        HOP_BY_HOP | ROUTING | DESTINATION => EXTENSION_UNIT * (units + 1),
        FRAGMENT => FRAGMENT_SIZE,
        AUTHENTICATION => AUTHENTICATION_UNIT * (units + AUTHENTICATION_UNCOUNTED),
        _ => return None,
    };
    if holds(frame, at, size) {
        Some(at + size)
    } else {
        None
    }
}

#[inline]
#[tactic(auto, unfolding(crate::specs::Layers::is_later))]
fn is_later(frame: &[u8], at: usize, number: u8) -> bool
    requires { at + FRAGMENT_SIZE ≤ length frame.now }
    ensures { result ≡ is_later frame.now at number }
{
    number == FRAGMENT && u16_at(frame, at + FRAGMENT_OFFSET_AT) / FRAGMENT_OFFSET_UNIT != 0
}
