/// How much of an answer is wanted: at most this many packets, and at most this many captured
/// bytes, without the heads that pcap puts before them.
#[derive(Clone, Copy, Debug, PartialEq, Eq)]
pub struct Limits {
    pub packets: u64,
    pub bytes: u64,
}
