use crate::{Node, QueryErr, matches, parse, print};
use st_base::RecordRef;
use std::alloc::{AllocError, Global};
use std::test::Fail;

/// A frame of Ethernet, IPv4 and UDP, from 10.0.0.1 port 12345 to 10.0.0.2 port 53, with `dns!`.
const DNS: [u8; 46] = [
    2, 0, 0, 0, 0, 2, 2, 0, 0, 0, 0, 1, 8, 0, 0x45, 0, 0, 0x20, 0, 0, 0, 0, 0x40, 0x11, 0, 0, 10,
    0, 0, 1, 10, 0, 0, 2, 0x30, 0x39, 0, 0x35, 0, 0x0c, 0, 0, 0x64, 0x6e, 0x73, 0x21,
];

/// Whether the text, with the clock at `now` microseconds, matches that frame, captured at second
/// 1,000,000,000. What is expected of each is by hand from the addresses, the ports and the times.
fn is_asked(alloc: Global, text: &str, now: u64) -> Result<bool, Fail> {
    let query = parse(alloc, text.as_bytes())?;
    let packet = RecordRef {
        sec: 1_000_000_000,
        nsec: 123_456_000,
        orig: 46,
        body: &DNS,
    };
    Ok(matches(&query, now, packet))
}

#[test]
fn a_packet_matches_what_is_asked(rt: HostRuntime) -> Result<(), Fail> {
    let alloc = rt.alloc();
    assert!(rt; is_asked(alloc, "host 10.0.0.2", 0)?);
    assert!(rt; !is_asked(alloc, "host 10.0.0.3", 0)?);
    assert!(rt; is_asked(alloc, "net 10.1.2.3 mask 255.0.0.0", 0)?);
    assert!(rt; !is_asked(alloc, "net 10.0.0.4/30", 0)?);
    assert!(rt; !is_asked(alloc, "net ::/0", 0)?);
    assert!(rt; is_asked(alloc, "icmp or udp and port 53", 0)?);
    assert!(rt; is_asked(alloc, "udp or (icmp and port 53)", 0)?);
    assert!(rt; !is_asked(alloc, "udp or icmp and port 54", 0)?);
    assert!(rt; !is_asked(alloc, "before 2001-09-09T01:46:40Z", 0)?);
    assert!(rt; is_asked(alloc, "after 2001-09-09T03:46:40+02:00", 0)?);
    assert!(rt; is_asked(alloc, "after 45m ago", 1_000_002_700_999_999)?);
    assert!(rt; is_asked(alloc, "before 45m ago", 1_000_002_701_000_000)?);
    Ok(())
}

#[test]
fn a_packet_matches_a_chain_of_alternatives(rt: HostRuntime) -> Result<(), Fail> {
    let alloc = rt.alloc();
    assert!(rt;
        is_asked(
            alloc,
            "host 10.0.0.9 or port 7 or net ::/0 or host 10.0.0.2",
            0
        )?
    );
    assert!(rt;
        !is_asked(
            alloc,
            "host 10.0.0.9 or port 7 or net ::/0 or host 10.0.0.3",
            0
        )?
    );
    assert!(rt;
        is_asked(
            alloc,
            "net 10.0.0.4/30 or net 10.0.0.0/30 or vlan 1 or mpls 1",
            0
        )?
    );
    assert!(rt; !is_asked(alloc, "udp or vlan 1 or mpls 1 or host ::1 and port 54", 0)?);
    assert!(rt;
        is_asked(
            alloc,
            "icmp or vlan 1 or mpls 1 or host ::1 or (udp and port 53)",
            0
        )?
    );
    assert!(rt;
        !is_asked(
            alloc,
            "icmp or vlan 53 or mpls 53 or host ::53 and port 53",
            0
        )?
    );
    Ok(())
}

#[test]
fn a_query_is_printed_with_few_parentheses(rt: HostRuntime) -> Result<(), Fail> {
    let query = parse(rt.alloc(), b"(tcp) or ((udp) && port 053)")?;
    assert!(rt; matches!(query.node(), Node::Or { .. }));
    let printed = print(rt.alloc(), &query)?;
    assert_eq!(rt;
        printed.bytes(),
        b"ip proto 6 or (ip proto 17 and port 53)".as_slice()
    );
    Ok(())
}

/// A chain of `port 53` with spaces after it: this many bytes.
fn long_text(alloc: Global, len: usize) -> Result<Vec<u8>, AllocError> {
    let mut text = Vec::new(alloc);
    text.extend_from_slice(b"port 53")?;
    for _ in 0..371 {
        text.extend_from_slice(b" or port 53")?;
    }
    for _ in text.len()..len {
        text.push(b' ')?;
    }
    Ok(text)
}

#[test]
fn a_text_of_4096_bytes_is_read_and_no_longer_one(rt: HostRuntime) -> Result<(), Fail> {
    let text = long_text(rt.alloc(), 4096)?;
    let query = parse(rt.alloc(), &text)?;
    let printed = print(rt.alloc(), &query)?;
    assert_eq!(rt; printed.bytes(), text.trim_ascii_end());
    let packet = RecordRef {
        sec: 0,
        nsec: 0,
        orig: 46,
        body: &DNS,
    };
    assert!(rt; matches(&query, 0, packet));
    let longer = long_text(rt.alloc(), 4097)?;
    assert!(rt;
        matches!(
            parse(rt.alloc(), &longer),
            Err(QueryErr::Long { len: 4097 })
        )
    );
    Ok(())
}
