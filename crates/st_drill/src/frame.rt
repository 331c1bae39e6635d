//! The bytes of one packet.
ghost use Rattle.std.specs.Prelude.{◌≡◌};
ghost use Rattle.st_drill.specs.Packets.{frame, protocol, destination_port};

use crate::numbers::{
    DESTINATION_AT, DESTINATION_NET, DESTINATION_PORT_AT, DESTINATIONS, DNS_EVERY, DNS_PORT,
    ETHER_HEAD, FIRST_PORT, FRAME_SIZE, HTTPS_PORT, IP_AT, IP_HEAD, PORTS, PROTO_AT, SOURCE_AT,
    SOURCE_NET, SOURCE_PORT_AT, SOURCES, TCP, UDP,
};
use byteorder::{BigEndian, ByteOrder};

// The protocol of packet `k`.
fn protocol(k: u32) -> u8
    ensures { result ≡ protocol k }
{
    if k % 2 == 0 { UDP } else { TCP }
}

// The destination port of packet `k`.
fn destination_port(k: u32) -> u16
    ensures { result ≡ destination_port k }
{
    if k % DNS_EVERY == 0 {
        DNS_PORT
    } else {
        HTTPS_PORT
    }
}

/// The 64 bytes of packet `k`, counted from 0, from the Ethernet header on.
///
/// Source: docs/FORMAT.md, "Drill".
#[tactic(auto, unfolding(crate::specs::Packets::frame))]
pub fn frame_of(k: u32) -> [u8; FRAME_SIZE]
    ensures { result ≡ frame k }
{
    let mut frame = [0; FRAME_SIZE];
    frame[..IP_AT].copy_from_slice(&ETHER_HEAD);
    frame[IP_AT..PROTO_AT].copy_from_slice(&IP_HEAD);
    frame[PROTO_AT] = protocol(k);
    BigEndian::write_u32(&mut frame[SOURCE_AT..], SOURCE_NET + k % SOURCES);
    BigEndian::write_u32(
        &mut frame[DESTINATION_AT..],
        DESTINATION_NET + k % DESTINATIONS,
    );
    BigEndian::write_u16(
        &mut frame[SOURCE_PORT_AT..],
        FIRST_PORT + (k % PORTS) as u16,
    );
    BigEndian::write_u16(&mut frame[DESTINATION_PORT_AT..], destination_port(k));
    frame
}
