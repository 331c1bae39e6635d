//! Six frames, with the keys that the headers' standards give them by hand.

use crate::text::Key::{self, Mpls, Port, Proto, Second, V4, V6, Vlan};
use crate::{has_key, key_text, keys};

const SOURCE: Key = V4(0x0A00_0001);

const DESTINATION: Key = V4(0x0A00_0002);

const SOURCE6: Key = V6(0xFD00_0000_0000_0000_0000_0000_0000_0001);

const DESTINATION6: Key = V6(0xFD00_0000_0000_0000_0000_0000_0000_0002);

// A DNS query's first bytes over UDP, from port 12345 to port 53.
const UDP: &[u8] =
    b"\x02\0\0\0\0\x02\x02\0\0\0\0\x01\x08\0\x45\0\0\x20\0\0\0\0\x40\x11\0\0\x0a\0\0\x01\x0a\0\0\x02\x30\x39\0\x35\0\x0c\0\0dns!";

// A TCP segment from port 12345 to port 80.
const TCP: &[u8] =
    b"\x02\0\0\0\0\x02\x02\0\0\0\0\x01\x08\0\x45\0\0\x28\0\0\0\0\x40\x06\0\0\x0a\0\0\x01\x0a\0\0\x02\x30\x39\0\x50\0\0\0\x01\0\0\0\0\x50\x02\x20\0\0\0\0\0";

// The UDP packet after a service tag 10 and a customer tag 20.
const TAGGED: &[u8] =
    b"\x02\0\0\0\0\x02\x02\0\0\0\0\x01\x88\xa8\0\x0a\x81\0\0\x14\x08\0\x45\0\0\x20\0\0\0\0\x40\x11\0\0\x0a\0\0\x01\x0a\0\0\x02\x30\x39\0\x35\0\x0c\0\0dns!";

// A TCP segment to port 443 after the labels 17 and 18.
const LABELLED: &[u8] =
    b"\x02\0\0\0\0\x02\x02\0\0\0\0\x01\x88\x47\0\x01\x10\x40\0\x01\x21\x40\x45\0\0\x28\0\0\0\0\x40\x06\0\0\x0a\0\0\x01\x0a\0\0\x02\x30\x39\x01\xbb\0\0\0\x01\0\0\0\0\x50\x02\x20\0\0\0\0\0";

// A later fragment of a UDP packet, whose first bytes would read as ports 53.
const FRAGMENT: &[u8] =
    b"\x02\0\0\0\0\x02\x02\0\0\0\0\x01\x08\0\x45\0\0\x1c\0\0\0\xb9\x40\x11\0\0\x0a\0\0\x01\x0a\0\0\x02\0\x35\0\x35\0\x08\0\0";

// UDP over IPv6 after hop-by-hop options and destination options.
const CHAINED: &[u8] =
    b"\x02\0\0\0\0\x02\x02\0\0\0\0\x01\x86\xdd\x60\0\0\0\0\x18\0\x40\xfd\0\0\0\0\0\0\0\0\0\0\0\0\0\0\x01\xfd\0\0\0\0\0\0\0\0\0\0\0\0\0\0\x02\x3c\0\x01\x04\0\0\0\0\x11\0\x01\x04\0\0\0\0\x30\x39\0\x35\0\x08\0\0";

#[test]
fn each_frame_has_its_keys_in_walk_order(rt: HostRuntime) {
    // The last ends within the destination options, whose number is then the protocol.
    assert_eq!(rt; CHAINED.len(), 78);
    let cases: [(&[u8], &[Key]); 7] = [
        (
            UDP,
            &[Proto(17), SOURCE, DESTINATION, Port(12345), Port(53)],
        ),
        (TCP, &[Proto(6), SOURCE, DESTINATION, Port(12345), Port(80)]),
        (
            TAGGED,
            &[
                Vlan(10),
                Vlan(20),
                Proto(17),
                SOURCE,
                DESTINATION,
                Port(12345),
                Port(53),
            ],
        ),
        (
            LABELLED,
            &[
                Mpls(17),
                Mpls(18),
                Proto(6),
                SOURCE,
                DESTINATION,
                Port(12345),
                Port(443),
            ],
        ),
        (FRAGMENT, &[Proto(17), SOURCE, DESTINATION]),
        (
            CHAINED,
            &[SOURCE6, DESTINATION6, Proto(17), Port(12345), Port(53)],
        ),
        (&CHAINED[..67], &[SOURCE6, DESTINATION6, Proto(60)]),
    ];
    for (frame, wanted) in cases {
        let mut given = keys(frame);
        for key in wanted {
            assert_eq!(rt; given.next(), Some(*key));
            assert!(rt; has_key(frame, key));
        }
        assert_eq!(rt; given.next(), None);
    }
}

#[test]
fn a_question_finds_its_frames_alone(rt: HostRuntime) {
    assert_eq!(rt; CHAINED.len(), 78);
    let cut = &CHAINED[..67];
    let cases: [(&[u8], Key, bool); 15] = [
        (UDP, Port(53), true),
        (TAGGED, Vlan(20), true),
        (TAGGED, Vlan(10), true),
        (TAGGED, Vlan(30), false),
        (LABELLED, Mpls(17), true),
        (LABELLED, Port(443), true),
        (FRAGMENT, Port(53), false),
        (FRAGMENT, Proto(17), true),
        (CHAINED, Port(53), true),
        (cut, Port(53), false),
        (CHAINED, Proto(60), false),
        (cut, Proto(60), true),
        (CHAINED, SOURCE6, true),
        (cut, SOURCE6, true),
        (UDP, Second(0), false),
    ];
    for (frame, key, wanted) in cases {
        assert_eq!(rt; has_key(frame, &key), wanted);
    }
}

#[test]
fn a_key_text_is_its_kind_and_its_value(rt: HostRuntime) {
    let cases: [(Key, &[u8]); 7] = [
        (Proto(17), b"\x01\x11"),
        (Port(53), b"\x02\0\x35"),
        (Vlan(20), b"\x03\0\x14"),
        (SOURCE, b"\x04\x0a\0\0\x01"),
        (Mpls(17), b"\x05\0\0\0\x11"),
        (SOURCE6, b"\x06\xfd\0\0\0\0\0\0\0\0\0\0\0\0\0\0\x01"),
        (Second(1_000_000_000), b"\x07\x3b\x9a\xca\0"),
    ];
    for (key, wanted) in cases {
        assert_eq!(rt; key_text(&key).as_slice(), wanted);
    }
}
