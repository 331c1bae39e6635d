//! Replies: a pcap has of each maker a run of pairs, each with all its packets to port 53.

use crate::packets::{ASKED, Label, MAKERS, SIZE, label_of, packet, time_of};
use st_answer::Told;
use st_base::{RecordRef, SureSource};
use st_pcap::PcapReader;
use std::alloc::Global;

/// Pairs of one maker, whose numbers follow one another.
#[derive(Clone, Copy)]
pub struct Run {
    pub first: u32,
    pub last: u32,
    // how many packets of the last pair there were so far
    packets: u8,
}

impl Run {
    // The run with one packet more, if that is the next one.
    fn followed(self, label: Label) -> Option<Run> {
        if self.packets < ASKED {
            if label.pair != self.last || label.number != self.packets {
                return None;
            }
            return Some(Run {
                packets: self.packets + 1,
                ..self
            });
        }
        if label.number != 0 || self.last.checked_add(1) != Some(label.pair) {
            return None;
        }
        Some(Run {
            last: label.pair,
            packets: 1,
            ..self
        })
    }
}

// The run that one packet begins, if it is the first of its pair.
fn begun(label: Label) -> Option<Run> {
    if label.number != 0 {
        return None;
    }
    Some(Run {
        first: label.pair,
        last: label.pair,
        packets: 1,
    })
}

/// What a reply has: a run of pairs of each maker, if it has any.
#[derive(Clone, Copy)]
pub struct Runs {
    pub of: [Option<Run>; MAKERS],
    pub packets: u64,
    // when the last packet was
    time: (u32, u32),
}

impl Runs {
    /// Those of a reply without packets.
    pub fn none() -> Runs {
        Runs {
            of: [None; MAKERS],
            packets: 0,
            time: (0, 0),
        }
    }

    // Those with one record more, if it is a packet that may follow.
    fn followed(self, record: RecordRef<'_>) -> Option<Runs> {
        let label = label_of(record.body)?;
        let maker = label.maker as usize;
        let time = (record.sec, record.nsec);
        if maker >= MAKERS || record.body != packet(label).as_slice() {
            return None;
        }
        if time != time_of(label) || time < self.time || record.orig as usize != SIZE {
            return None;
        }
        let run = match self.of[maker] {
            Some(run) => run.followed(label)?,
            None => begun(label)?,
        };
        let mut runs = self;
        runs.of[maker] = Some(run);
        runs.packets = runs.packets.saturating_add(1);
        runs.time = time;
        Some(runs)
    }

    // Whether each run ends with a whole pair.
    fn are_whole(&self) -> bool {
        self.of.iter().all(|run| match run {
            Some(run) => run.packets == ASKED,
            None => true,
        })
    }

    /// Whether no run is older than in an earlier reply.
    pub fn are_after(&self, earlier: &Runs) -> bool {
        for i in 0..MAKERS {
            if let (Some(run), Some(before)) = (self.of[i], earlier.of[i]) {
                if run.first < before.first || run.last < before.last {
                    return false;
                }
            }
        }
        true
    }

    /// These runs, and the earlier one where there is none.
    pub fn or(self, earlier: Runs) -> Runs {
        let mut runs = self;
        for i in 0..MAKERS {
            runs.of[i] = self.of[i].or(earlier.of[i]);
        }
        runs
    }
}

/// The runs of a reply that tells so much. None if it isn't a whole pcap of that many bytes and
/// packets, each packet at its time, with whole runs only.
pub fn read_reply(alloc: Global, told: Told, reply: &[u8]) -> Option<Runs> {
    let Ok(mut source) = SureSource::over(alloc, reply) else {
        return None;
    };
    let mut reader = PcapReader::new();
    let mut runs = Runs::none();
    for _ in 0..u64::MAX {
        match reader.next(alloc, &mut source) {
            Ok(Some(record)) => runs = runs.followed(record.lend())?,
            Ok(None) => {
                let told_so = told.packets == runs.packets && told.bytes == reply.len() as u64;
                return if told_so && runs.are_whole() {
                    Some(runs)
                } else {
                    None
                };
            }
            Err(_) => return None,
        }
    }
    None
}
