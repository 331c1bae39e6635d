//! What a frame can be looked up by, and the bytes that an index names it by.

ghost use Rattle.std.specs.Prelude.{◌≡◌, ◌≤◌, ◌∷◌, length};
ghost use Rattle.st_walk.specs.KeyText.{key_text, Fits};
ghost use Rattle.st_walk.specs.declared.text.Key.{Key};

use crate::numbers::{
    MPLS_KIND, PORT_KIND, PROTO_KIND, SECOND_KIND, TEXT_SIZE, V4_KIND, V6_KIND, V6_SIZE, VLAN_KIND,
};
use arrayvec::ArrayVec;

/// What a packet can be looked up by.
#[derive(Clone, Copy, Debug, PartialEq, Eq, PartialOrd, Ord, Hash)]
pub enum Key {
    /// The number of the protocol over IPv4, or at the end of an IPv6 chain.
    Proto(u8),
    /// A source or destination port of TCP or UDP.
    Port(u16),
    /// The identifier of a VLAN tag, below 4,096.
    Vlan(u16),
    /// A source or destination address of IPv4, its first byte the highest.
    V4(u32),
    /// A label of MPLS, below 2^20.
    Mpls(u32),
    /// A source or destination address of IPv6, its first byte the highest.
    V6(u128),
    /// The second of a packet's time, since 1970. It is in no frame.
    Second(u32),
}

/// The kind's byte and then the value, its highest byte first: 2 to 17 bytes.
///
/// Source: docs/FORMAT.md, "Key texts".
#[tactic(auto, using(crate::proofs::Texts::same_key))]
pub fn key_text(key: &Key) -> ArrayVec<u8, TEXT_SIZE>
    ensures text { result.items ≡ key_text key.now }
    ensures one { (k : Key) → Fits k → key_text k ≡ result.items → k ≡ key.now }
{
    match *key {
        Key::Proto(number) => joined(PROTO_KIND, &number.to_be_bytes()),
        Key::Port(port) => joined(PORT_KIND, &port.to_be_bytes()),
        Key::Vlan(id) => joined(VLAN_KIND, &id.to_be_bytes()),
        Key::V4(address) => joined(V4_KIND, &address.to_be_bytes()),
        Key::Mpls(label) => joined(MPLS_KIND, &label.to_be_bytes()),
        Key::V6(address) => joined(V6_KIND, &address.to_be_bytes()),
        Key::Second(second) => joined(SECOND_KIND, &second.to_be_bytes()),
    }
}

// The kind's byte and then the value's.
fn joined(kind: u8, value: &[u8]) -> ArrayVec<u8, TEXT_SIZE>
    requires { length value.now ≤ V6_SIZE }
    ensures { result.items ≡ kind ∷ value.now }
{
    let mut text = ArrayVec::new();
    text.push(kind);
    let _ = text.try_extend_from_slice(value);
    text
}
