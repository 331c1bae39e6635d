//! The numbers by which a header names what follows it, as docs/FORMAT.md lists them under "The
//! header walk".

/// EtherType of a customer VLAN tag (IEEE 802.1Q, 9.5).
pub const CUSTOMER_TAG: u16 = 0x8100;

/// EtherType of a service VLAN tag (IEEE 802.1Q, 9.5).
pub const SERVICE_TAG: u16 = 0x88A8;

/// EtherType of the outer one of two tags before 802.1ad, which is no standard's.
pub const OUTER_TAG: u16 = 0x9100;

/// EtherType of a labelled unicast packet (RFC 3032, 5).
pub const MPLS: u16 = 0x8847;

/// EtherType of a labelled multicast packet (RFC 3032, 5).
pub const MPLS_MULTICAST: u16 = 0x8848;

/// EtherType of IPv4 (RFC 894).
pub const IP4: u16 = 0x0800;

/// EtherType of IPv6 (RFC 2464, 3).
pub const IP6: u16 = 0x86DD;

/// Hop-by-hop options in an IPv6 chain (RFC 8200, 4.3).
pub const HOP_BY_HOP: u8 = 0;

/// A routing header in an IPv6 chain (RFC 8200, 4.4).
pub const ROUTING: u8 = 43;

/// A fragment header in an IPv6 chain (RFC 8200, 4.5).
pub const FRAGMENT: u8 = 44;

/// An authentication header in an IPv6 chain (RFC 4302, 2).
pub const AUTHENTICATION: u8 = 51;

/// Destination options in an IPv6 chain (RFC 8200, 4.6).
pub const DESTINATION: u8 = 60;

/// The protocol TCP (RFC 9293).
pub const TCP: u8 = 6;

/// The protocol UDP (RFC 768).
pub const UDP: u8 = 17;

/// The size of an EtherType.
pub const KIND_SIZE: usize = 2;

/// The size of an Ethernet header (IEEE 802.3, 3.2).
pub const ETHER_SIZE: usize = 14;

/// The offset of the EtherType in an Ethernet header.
pub const ETHER_KIND_AT: usize = 12;

/// The size of a VLAN tag without the EtherType that announces it (IEEE 802.1Q, 9.3).
pub const TAG_SIZE: usize = 4;

/// The offset in a tag of the EtherType that follows.
pub const TAG_KIND_AT: usize = 2;

/// The identifier of a tag is its first number modulo this: the low 12 bits (IEEE 802.1Q, 9.6).
pub const TAG_LIMIT: u16 = 4_096;

/// The size of an entry of a label stack (RFC 3032, 2.1).
pub const LABEL_SIZE: usize = 4;

/// A label is its entry's number divided by this: the high 20 bits.
pub const LABEL_UNIT: u32 = 4_096;

/// The offset in an entry of the byte whose lowest bit marks the last label.
pub const LABEL_END_AT: usize = 2;

/// The high half of a byte is the byte divided by this, the low half its remainder.
pub const HALF: u8 = 16;

/// The size of an IPv4 header without options (RFC 791, 3.1).
pub const IP4_SIZE: usize = 20;

/// The version of IPv4, in the high half of the first byte.
pub const IP4_VERSION: u8 = 4;

/// The least length of an IPv4 header in words, in the low half of the first byte.
pub const IP4_WORDS: u8 = 5;

/// The size of a word of an IPv4 header.
pub const IP4_WORD_SIZE: usize = 4;

/// The offset of the flags and the fragment offset in an IPv4 header.
pub const IP4_FRAGMENT_AT: usize = 6;

/// The fragment offset of IPv4 is its field's number modulo this: the low 13 bits.
pub const IP4_FRAGMENT_LIMIT: u16 = 8_192;

/// The offset of the protocol in an IPv4 header.
pub const IP4_PROTO_AT: usize = 9;

/// The offset of the source address in an IPv4 header.
pub const IP4_SOURCE_AT: usize = 12;

/// The offset of the destination address in an IPv4 header.
pub const IP4_DESTINATION_AT: usize = 16;

/// The size of an IPv6 header (RFC 8200, 3).
pub const IP6_SIZE: usize = 40;

/// The version of IPv6, in the high half of the first byte.
pub const IP6_VERSION: u8 = 6;

/// The offset in an IPv6 header of the number that its chain begins with.
pub const IP6_NEXT_AT: usize = 6;

/// The offset of the source address in an IPv6 header.
pub const IP6_SOURCE_AT: usize = 8;

/// The offset of the destination address in an IPv6 header.
pub const IP6_DESTINATION_AT: usize = 24;

/// The offset in an extension header of its length in units (RFC 8200, 4; RFC 4302, 2.2).
pub const EXTENSION_UNITS_AT: usize = 1;

/// The least size of an extension header, and the size of a unit of those whose length is in their
/// second byte (RFC 8200, 4.3, 4.4 and 4.6). The first unit isn't counted.
pub const EXTENSION_UNIT: usize = 8;

/// The size of a unit of an authentication header (RFC 4302, 2.2).
pub const AUTHENTICATION_UNIT: usize = 4;

/// How many units of an authentication header aren't counted.
pub const AUTHENTICATION_UNCOUNTED: usize = 2;

/// The size of a fragment header (RFC 8200, 4.5).
pub const FRAGMENT_SIZE: usize = 8;

/// The offset in a fragment header of the fragment offset.
pub const FRAGMENT_OFFSET_AT: usize = 2;

/// The size of the field of a fragment offset.
pub const FRAGMENT_OFFSET_SIZE: usize = 2;

/// The fragment offset of IPv6 is its field's number divided by this: the high 13 bits.
pub const FRAGMENT_OFFSET_UNIT: u16 = 8;

/// The size of both ports (RFC 9293, 3.1; RFC 768).
pub const PORTS_SIZE: usize = 4;

/// The offset of the destination port after the source port.
pub const DESTINATION_PORT_AT: usize = 2;

/// How many keys a layer carries at most.
pub const MOST_KEYS: usize = 3;

/// The kind of a protocol, the first byte of its key's text; the next six are those of the others.
/// Source: docs/FORMAT.md, "Key texts".
pub const PROTO_KIND: u8 = 1;

/// The kind of a port.
pub const PORT_KIND: u8 = 2;

/// The kind of a tag's identifier.
pub const VLAN_KIND: u8 = 3;

/// The kind of an IPv4 address.
pub const V4_KIND: u8 = 4;

/// The kind of a label.
pub const MPLS_KIND: u8 = 5;

/// The kind of an IPv6 address.
pub const V6_KIND: u8 = 6;

/// The kind of a packet's second.
pub const SECOND_KIND: u8 = 7;

/// The size of a protocol, as are the next six of the other keys' values.
pub const PROTO_SIZE: usize = 1;

/// The size of a port.
pub const PORT_SIZE: usize = 2;

/// The size of a tag's identifier.
pub const VLAN_SIZE: usize = 2;

/// The size of an IPv4 address.
pub const V4_SIZE: usize = 4;

/// The size of a label.
pub const MPLS_SIZE: usize = 4;

/// The size of an IPv6 address.
pub const V6_SIZE: usize = 16;

/// The size of a packet's second.
pub const SECOND_SIZE: usize = 4;

/// The greatest size of a key's text.
pub const TEXT_SIZE: usize = 17;
