use crate::addrs::Addr;

/// A word that the grammar names.
#[derive(Clone, Copy)]
pub enum Keyword {
    Host,
    Net,
    Mask,
    Port,
    Ip,
    Proto,
    Vlan,
    Mpls,
    Icmp,
    Tcp,
    Udp,
    Before,
    After,
    Ago,
}

/// A token, as the grammar sees it: a text is a run of these.
///
/// `mask` is how many ones lead an address that is ones followed by zeros, and `Net` has its
/// address as it was spelled. `Instant` is in seconds since 1970, `Span` in hours or minutes.
/// `Other` is a word that is nothing of the language, `Stray` a byte that no token begins with.
#[derive(Clone, Copy)]
pub enum Token {
    Stray,
    Open,
    Close,
    And,
    Or,
    Key(Keyword),
    Number(u64),
    Address { addr: Addr, mask: Option<u8> },
    Net { addr: Addr, bits: u8 },
    Instant(i64),
    Span { count: u32, hours: bool },
    Other,
}
