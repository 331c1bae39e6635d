ghost use Rattle.std.specs.Prelude.{◌≡◌, ◌+◌, ◌≤◌, ◌⊎◌, ℕ, List, Some, Err, Result, OnOk, IfOk, IfErr, OnSome, vec_capacity};
ghost use Rattle.st_base.specs.Records.{Rec};

use crate::errors::PcapErr;
use crate::forms::Form;
use crate::records::{read_form, read_record};
use st_base::{Record, Source};
use std::alloc::Global;
use std::marker::Model;

/// What a reader has come to: nothing is read yet, its form is known, or it has stopped.
#[derive(Clone, Copy, Debug, PartialEq, Eq)]
pub enum Phase {
    Fresh,
    Open(Form),
    Stopped(PcapErr),
}

/// Reads a pcap file from a source that is passed to each call, record by record. It keeps no
/// bytes.
///
/// A contract sees its phase, `taken` and the number of the records that it gave; which records
/// these are, of which bytes, is said by `HasRead` of `specs/Reading.antt`.
/// Source: docs/FORMAT.md, "pcap".
#[derive(Drop)]
pub struct PcapReader {
    phase: Phase,
    taken: u64,
    number: u64,
}

impl Model for PcapReader {
    ghost use Rattle.st_pcap.specs.Reading.{PcapReaderView, IsInBounds};

    ghost Value = { PcapReaderView };

    ghost view = { λ a. record { phase = a.phase; taken = a.taken; number = a.number } };

    ghost invariant = { λ a. IsInBounds
        (record { phase = a.phase; taken = a.taken; number = a.number }) };
}

impl PcapReader {
    ghost use Rattle.st_pcap.specs.Reading.{fresh, HasRead, ReadsNext, HasReadCause};
    ghost use Rattle.st_pcap.specs.Input.{Input, Refused};
    ghost use Rattle.st_pcap.specs.Opening.{Opens, KeepsOpening, OpensOnce, CountsHead};

    /// A reader that has read nothing. It takes no memory.
    pub fn new() -> PcapReader
        ensures { result ≡ fresh }
    {
        PcapReader {
            phase: Phase::Fresh,
            taken: 0,
            number: 0,
        }
    }

    /// How many bytes the reader took of its sources so far, also in calls that failed.
    pub fn taken(&self) -> u64
        ensures { result ≡ self.now.taken }
    {
        self.taken
    }

    /// The next record; None where the input ends where a record would begin, with fewer than 2^40
    /// bytes before. The first call reads the file head.
    ///
    /// Its nanoseconds are those of the file's fraction, its body has at most 262,144 bytes.
    /// `ReadFault` comes only if the source's `faults` rose in this call, or if an earlier call
    /// answered it. `TooMuch` comes exactly where 2^40 bytes or more were taken, and nothing is
    /// read then. Each other cause is the one that the order of checks finds, if the source's bytes
    /// are known, but `NoMemory` may come in its place. A call that refuses takes no more than it
    /// looked at: at most 24 bytes of a file head, 16 of a record whose fields are out of range or
    /// for which memory is out, and what there is where the input is cut. The reader has then
    /// stopped: it answers the same cause to each later call, and reads nothing.
    pub fn next<S: Source>(
        &mut self,
        alloc: Global,
        source: &mut S,
    ) -> Result<Option<Record>, PcapErr>
        ensures { ReadsNext S.left S.faults S.beside source.old source.new self.old self.new
            0 result }
    {
        self.next_into(source, Vec::new(alloc))
    }

    /// The next record, as `next` gives it, its body in the memory of `body`, whatever bytes that
    /// has: so a caller may use one buffer again and again.
    ///
    /// `NoMemory` comes only if that memory has less room than 262,144 bytes.
    pub fn next_into<S: Source>(
        &mut self,
        source: &mut S,
        body: Vec<u8>,
    ) -> Result<Option<Record>, PcapErr>
        ensures { ReadsNext S.left S.faults S.beside source.old source.new self.old self.new
            (vec_capacity body) result }
    {
        let form = match self.open(source) {
            Ok(form) => form,
            Err(error) => return Err(error),
        };
        match read_record(form, self.number + 1, source, body, &mut self.taken) {
            Ok(Some(packet)) => {
                self.number += 1;
                Ok(Some(packet))
            }
            Ok(None) => Ok(None),
            Err(error) => {
                self.phase = Phase::Stopped(error);
                Err(error)
            }
        }
    }

    /// The file's form, which the first call reads; else the cause for which it has stopped.
    fn open<S: Source>(&mut self, source: &mut S) -> Result<Form, PcapErr>
        // What it has read then, or why it has stopped.
        ensures opens { (bytes rest : List ℕ) (rs : List Rec) → S.left source.old ≡ Some rest
            → HasRead self.old bytes rs rest
            → Opens bytes rs self.new (S.left source.new) result }
        ensures phase { KeepsOpening self.new result }
        ensures once { OpensOnce source.old source.new self.old self.new result }
        ensures count { CountsHead (S.left source.old) (S.left source.new) self.old self.new
            result }

        // What the source's faults say, and what else of the source stays.
        ensures cause { HasReadCause (S.faults source.old) (S.faults source.new) self.old.phase
            result }
        ensures rest { S.beside source.new ≡ S.beside source.old }
    {
        match self.phase {
            Phase::Stopped(error) => Err(error),
            Phase::Open(form) => Ok(form),
            Phase::Fresh => match read_form(source, &mut self.taken) {
                Ok(form) => {
                    self.phase = Phase::Open(form);
                    Ok(form)
                }
                Err(error) => {
                    self.phase = Phase::Stopped(error);
                    Err(error)
                }
            },
        }
    }
}
