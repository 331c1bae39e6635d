//! The keys that one layer carries.

ghost use Rattle.std.specs.Prelude.{◌≡◌, ◌+◌, ◌%◌, ◌/◌, ◌<◌, ◌≤◌, ◌↔◌, ◌∷◌, [], length, slice_get, IsTrue, OnSome};
ghost use Rattle.st_walk.specs.Layers.{layer_keys, field};
ghost use Rattle.st_walk.specs.Walk.{Carries};
ghost use Rattle.st_walk.specs.declared.header.Layer.TheVariants.{Next, Label, Ip4, Ip6, Ports};

use crate::fields::{holds, u16_at, u32_at, u128_at};
use crate::header::{Layer, Spot, is_ip4, is_ip6, is_tag};
use crate::numbers::{
    DESTINATION_PORT_AT, IP4_DESTINATION_AT, IP4_PROTO_AT, IP4_SOURCE_AT, IP6_DESTINATION_AT,
    IP6_SOURCE_AT, LABEL_SIZE, LABEL_UNIT, MOST_KEYS, MPLS_SIZE, PORTS_SIZE, TAG_LIMIT, TAG_SIZE,
    VLAN_SIZE,
};
use crate::text::Key;

/// The key of this number, from 0, among those that the layer carries.
#[inline(always)]
pub fn key_at(frame: &[u8], spot: Spot, i: usize) -> Option<Key>
    ensures key { slice_get (layer_keys frame.now spot.at spot.layer) i ≡ result }
    ensures few { OnSome result (i < MOST_KEYS) }
{
    let at = spot.at;
    match spot.layer {
        Layer::Ether => None,
        Layer::Next(kind) => tag_key(frame, at, kind, i),
        Layer::Label => label_key(frame, at, i),
        Layer::Ip4 => ip4_key(frame, at, i),
        Layer::Ip6 => ip6_key(frame, at, i),
        Layer::Chain(_) => None,
        Layer::Last(number) => proto_key(number, i),
        Layer::Fragment(number) => proto_key(number, i),
        Layer::Ports => ports_key(frame, at, i),
    }
}

#[inline]
fn tag_key(frame: &[u8], at: usize, kind: u16, i: usize) -> Option<Key>
    ensures key { slice_get (layer_keys frame.now at (Next kind)) i ≡ result }
    ensures few { OnSome result (i < MOST_KEYS) }
{
    if i > 0 || !is_tag(kind) || !holds(frame, at, TAG_SIZE) {
        return None;
    }
    Some(Key::Vlan(tag_id(frame, at)))
}

#[inline]
fn label_key(frame: &[u8], at: usize, i: usize) -> Option<Key>
    ensures key { slice_get (layer_keys frame.now at Label) i ≡ result }
    ensures few { OnSome result (i < MOST_KEYS) }
{
    if i > 0 || !holds(frame, at, LABEL_SIZE) {
        return None;
    }
    Some(Key::Mpls(label(frame, at)))
}

#[inline]
fn ip4_key(frame: &[u8], at: usize, i: usize) -> Option<Key>
    ensures key { slice_get (layer_keys frame.now at Ip4) i ≡ result }
    ensures few { OnSome result (i < MOST_KEYS) }
{
    if !is_ip4(frame, at) {
        return None;
    }
    match i {
        0 => Some(Key::Proto(frame[at + IP4_PROTO_AT])),
        1 => Some(Key::V4(u32_at(frame, at + IP4_SOURCE_AT))),
        2 => Some(Key::V4(u32_at(frame, at + IP4_DESTINATION_AT))),
        _ => None,
    }
}

#[inline]
fn ip6_key(frame: &[u8], at: usize, i: usize) -> Option<Key>
    ensures key { slice_get (layer_keys frame.now at Ip6) i ≡ result }
    ensures few { OnSome result (i < MOST_KEYS) }
{
    if !is_ip6(frame, at) {
        return None;
    }
    match i {
        0 => Some(Key::V6(u128_at(frame, at + IP6_SOURCE_AT))),
        1 => Some(Key::V6(u128_at(frame, at + IP6_DESTINATION_AT))),
        _ => None,
    }
}

#[inline]
fn proto_key(number: u8, i: usize) -> Option<Key>
    ensures key { slice_get (Key.Proto number ∷ []) i ≡ result }
    ensures few { OnSome result (i < MOST_KEYS) }
{
    if i > 0 {
        return None;
    }
    Some(Key::Proto(number))
}

#[inline]
fn ports_key(frame: &[u8], at: usize, i: usize) -> Option<Key>
    ensures key { slice_get (layer_keys frame.now at Ports) i ≡ result }
    ensures few { OnSome result (i < MOST_KEYS) }
{
    if !holds(frame, at, PORTS_SIZE) {
        return None;
    }
    match i {
        0 => Some(Key::Port(u16_at(frame, at))),
        1 => Some(Key::Port(u16_at(frame, at + DESTINATION_PORT_AT))),
        _ => None,
    }
}

// The identifier in the low 12 bits of a tag's first two bytes.
#[inline]
fn tag_id(frame: &[u8], at: usize) -> u16
    requires { at + TAG_SIZE ≤ length frame.now }
    ensures { result ≡ field VLAN_SIZE at frame.now % TAG_LIMIT }
{
    u16_at(frame, at) % TAG_LIMIT
}

// The label in the high 20 bits of an entry's four bytes.
#[inline]
fn label(frame: &[u8], at: usize) -> u32
    requires { at + LABEL_SIZE ≤ length frame.now }
    ensures { result ≡ field MPLS_SIZE at frame.now / LABEL_UNIT }
{
    u32_at(frame, at) / LABEL_UNIT
}

/// Whether the layer carries the key.
#[inline(always)]
pub fn carries(frame: &[u8], spot: Spot, key: &Key) -> bool
    ensures { IsTrue result ↔ Carries frame.now spot.at spot.layer key.now }
{
    let at = spot.at;
    match spot.layer {
        Layer::Ether => false,
        Layer::Next(kind) => tag_carries(frame, at, kind, key),
        Layer::Label => label_carries(frame, at, key),
        Layer::Ip4 => ip4_carries(frame, at, key),
        Layer::Ip6 => ip6_carries(frame, at, key),
        Layer::Chain(_) => false,
        Layer::Last(number) => number_is(number, key),
        Layer::Fragment(number) => number_is(number, key),
        Layer::Ports => ports_carry(frame, at, key),
    }
}

#[inline]
fn tag_carries(frame: &[u8], at: usize, kind: u16, key: &Key) -> bool
    ensures { IsTrue result ↔ Carries frame.now at (Next kind) key.now }
{
    match *key {
        Key::Vlan(id) => is_tag(kind) && holds(frame, at, TAG_SIZE) && tag_id(frame, at) == id,
        _ => false,
    }
}

#[inline]
fn label_carries(frame: &[u8], at: usize, key: &Key) -> bool
    ensures { IsTrue result ↔ Carries frame.now at Label key.now }
{
    match *key {
        Key::Mpls(wanted) => holds(frame, at, LABEL_SIZE) && label(frame, at) == wanted,
        _ => false,
    }
}

#[inline]
fn ip4_carries(frame: &[u8], at: usize, key: &Key) -> bool
    ensures { IsTrue result ↔ Carries frame.now at Ip4 key.now }
{
    match *key {
        Key::Proto(number) => is_ip4(frame, at) && frame[at + IP4_PROTO_AT] == number,
        Key::V4(address) => {
            is_ip4(frame, at)
                && (u32_at(frame, at + IP4_SOURCE_AT) == address
                    || u32_at(frame, at + IP4_DESTINATION_AT) == address)
        }
        _ => false,
    }
}

#[inline]
fn ip6_carries(frame: &[u8], at: usize, key: &Key) -> bool
    ensures { IsTrue result ↔ Carries frame.now at Ip6 key.now }
{
    match *key {
        Key::V6(address) => {
            is_ip6(frame, at)
                && (u128_at(frame, at + IP6_SOURCE_AT) == address
                    || u128_at(frame, at + IP6_DESTINATION_AT) == address)
        }
        _ => false,
    }
}

#[inline]
fn number_is(number: u8, key: &Key) -> bool
    ensures { IsTrue result ↔ (key.now ≡ Key.Proto number) }
{
    match *key {
        Key::Proto(wanted) => number == wanted,
        _ => false,
    }
}

#[inline]
fn ports_carry(frame: &[u8], at: usize, key: &Key) -> bool
    ensures { IsTrue result ↔ Carries frame.now at Ports key.now }
{
    match *key {
        Key::Port(port) => {
            holds(frame, at, PORTS_SIZE)
                && (u16_at(frame, at) == port || u16_at(frame, at + DESTINATION_PORT_AT) == port)
        }
        _ => false,
    }
}
