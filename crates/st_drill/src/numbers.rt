//! The numbers of the packets that a drill makes, as docs/FORMAT.md lists them under "Drill". Sizes
//! and offsets are in bytes. All of them are ours.

/// The second of the first packet, since 1970: 2001-09-09T01:46:40Z.
pub const FIRST_SECOND: u32 = 1_000_000_000;

/// How many packets a second has.
pub const SECOND_PACKETS: u32 = 100;

/// How many nanoseconds a packet comes after the one before it.
pub const NANOS_APART: u32 = 10_000_000;

/// The size of each packet, all of which is captured.
pub const FRAME_SIZE: usize = 64;

/// The size of a packet's record in the pcap that is loaded: its head, and the packet.
pub const RECORD_SIZE: usize = 80;

/// The Ethernet header: two addresses, and the EtherType of IPv4.
pub const ETHER_HEAD: [u8; 14] = [2, 0, 0, 0, 0, 2, 2, 0, 0, 0, 0, 1, 8, 0];

/// The IPv4 header up to the protocol: of 5 words, a total length of 50 bytes, no fragment, and 64
/// hops to live.
pub const IP_HEAD: [u8; 9] = [0x45, 0, 0, 50, 0, 0, 0, 0, 64];

/// The offset of the IPv4 header.
pub const IP_AT: usize = 14;

/// The offset of the IPv4 header's protocol. The header's checksum, which is zero, follows it.
pub const PROTO_AT: usize = 23;

/// The protocol of a packet with an even number: UDP (RFC 768).
pub const UDP: u8 = 17;

/// The protocol of a packet with an odd number: TCP (RFC 9293).
pub const TCP: u8 = 6;

/// The size of the IPv4 header's checksum.
pub const SUM_SIZE: usize = 2;

/// The offset of the source address.
pub const SOURCE_AT: usize = 26;

/// The first source address: 10.0.0.0. A packet's number gives the last two bytes.
pub const SOURCE_NET: u32 = 0x0a00_0000;

/// How many source addresses there are.
pub const SOURCES: u32 = 65_536;

/// The offset of the destination address.
pub const DESTINATION_AT: usize = 30;

/// The first destination address: 192.168.0.0.
pub const DESTINATION_NET: u32 = 0xc0a8_0000;

/// How many destination addresses there are.
pub const DESTINATIONS: u32 = 7;

/// The size of an address.
pub const ADDRESS_SIZE: usize = 4;

/// The offset of the source port.
pub const SOURCE_PORT_AT: usize = 34;

/// The first source port.
pub const FIRST_PORT: u16 = 1_024;

/// How many source ports there are.
pub const PORTS: u32 = 5_000;

/// The offset of the destination port.
pub const DESTINATION_PORT_AT: usize = 36;

/// The size of a port.
pub const PORT_SIZE: usize = 2;

/// The destination port of every tenth packet, from the first on: that of DNS.
pub const DNS_PORT: u16 = 53;

/// Of how many packets one has the port of DNS.
pub const DNS_EVERY: u32 = 10;

/// The destination port of the other packets: that of HTTPS.
pub const HTTPS_PORT: u16 = 443;

/// How many zeros follow the ports.
pub const ZEROS: usize = 26;

/// How many bits of an address the query for 10.0.0.0/25 looks at, from the highest on.
pub const NEAR_BITS: u8 = 25;

/// The second at which two queries part the packets, since 1970: 2001-09-09T01:48:20Z.
pub const MIDDLE_SECOND: u32 = 1_000_000_100;

/// The limit on the packets of an answer, and that on their captured bytes: the greatest there is.
pub const NO_LIMIT: u64 = u64::MAX;

/// The size of a block of the block files that the packets are loaded into.
pub const BLOCK_SIZE: u32 = 65_536;

/// How many blocks a block file has at most.
pub const BLOCKS: u32 = 16;

/// The byte that ends a line.
pub const LINE_FEED: u8 = 10;
