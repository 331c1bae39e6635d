ghost use Rattle.std.specs.Prelude.{◌≡◌, ◌+◌, ◌<◌, ◌≤◌, List, ℕ, Some, Err, IfOk, IfErr, vec_len, vec_capacity};
ghost use Rattle.st_pcap.specs.Reading.{Counts, HasFaultCause};
ghost use Rattle.st_pcap.specs.Taking.{Took, TakesHead, TakesRecord};
ghost use Rattle.st_pcap.specs.declared.reader.Phase.TheVariants.{Fresh};
ghost use Rattle.st_pcap.specs.Checks.{GivesForm, GivesBody, GivesRecord, CountsBody, EndsAtLimit, IsNoLimit};

use crate::checks::{fields_in, form_in};
use crate::errors::PcapErr;
use crate::fill::take_bytes;
use crate::forms::Form;
use crate::head_fields::HeadFields;
use crate::numbers::{FILE_HEAD_SIZE, MAX_BODY, MAX_INPUT, NANOS, RECORD_HEAD_SIZE};
use st_base::{Octets, Record, Source};

/// Reads the file head, by one read where the source gives as much as it is asked for, and answers
/// its form. What came is counted in `taken`, in bytes.
pub fn read_form<S: Source>(source: &mut S, taken: &mut u64) -> Result<Form, PcapErr>
    requires { taken.old ≤ MAX_INPUT + RECORD_HEAD_SIZE + MAX_BODY }
    ensures gives { (bytes : List ℕ) → S.left source.old ≡ Some bytes
        → GivesForm bytes (S.left source.new) result }
    ensures below { IfErr result IsNoLimit }

    // How much it took.
    ensures taken { Took (S.left source.old) (S.left source.new) taken.old taken.new }
    ensures takes { TakesHead Fresh taken.old taken.new result }
    ensures bound { taken.new ≤ taken.old + FILE_HEAD_SIZE }

    // What the source's faults say, and what else of the source stays.
    ensures cause { HasFaultCause (S.faults source.old) (S.faults source.new) result }
    ensures rest { S.beside source.new ≡ S.beside source.old }
{
    let mut head = [0; FILE_HEAD_SIZE];
    match take_bytes(source, &mut head, taken) {
        Ok(have) => form_in(&head[..have]),
        Err(error) => Err(error),
    }
}

/// Reads record `number` into the memory of `body`; None where the input ends before its first
/// byte. What came is counted in `taken`, in bytes.
pub fn read_record<S: Source>(
    form: Form,
    number: u64,
    source: &mut S,
    body: Vec<u8>,
    taken: &mut u64,
) -> Result<Option<Record>, PcapErr>
    requires { (0 < number) × (taken.old ≤ MAX_INPUT + RECORD_HEAD_SIZE + MAX_BODY) }
    ensures gives { (rest : List ℕ) → S.left source.old ≡ Some rest
        → GivesRecord form taken.old number rest (S.left source.new) result }
    ensures memory { result ≡ Err PcapErr.NoMemory → vec_capacity body < MAX_BODY }

    // How much it took, and that nothing is read after the limit.
    ensures count { Counts (S.left source.old) (S.left source.new) taken.old taken.new result }
    ensures takes { TakesRecord taken.old taken.new result }
    ensures limit { EndsAtLimit source.old source.new taken.old taken.new result }

    // What the source's faults say, and what else of the source stays.
    ensures cause { HasFaultCause (S.faults source.old) (S.faults source.new) result }
    ensures rest { S.beside source.new ≡ S.beside source.old }
{
    if *taken >= MAX_INPUT {
        return Err(PcapErr::TooMuch { taken: *taken });
    }
    let mut head = [0; RECORD_HEAD_SIZE];
    let have = match take_bytes(source, &mut head, taken) {
        Ok(0) => return Ok(None),
        Ok(have) => have,
        Err(error) => return Err(error),
    };
    if have < RECORD_HEAD_SIZE {
        return Err(PcapErr::Truncated {
            number,
            have: have as u64,
            want: RECORD_HEAD_SIZE as u64,
        });
    }
    match fields_in(form, number, &head) {
        Ok(fields) => match read_body(&fields, number, source, body, taken) {
            Ok(packet) => Ok(Some(packet)),
            Err(error) => Err(error),
        },
        Err(error) => Err(error),
    }
}

/// Reads the body of record `number`, whose head has been read, into the memory of `body`.
fn read_body<S: Source>(
    fields: &HeadFields,
    number: u64,
    source: &mut S,
    body: Vec<u8>,
    taken: &mut u64,
) -> Result<Record, PcapErr>
    requires place { (0 < number) × (taken.old ≤ MAX_INPUT + RECORD_HEAD_SIZE) }
    requires fields { (fields.now.captured ≤ MAX_BODY) × (fields.now.nsec < NANOS) }
    ensures gives { (rest : List ℕ) → S.left source.old ≡ Some rest
        → GivesBody fields.now number rest (S.left source.new) result }
    ensures below { IfErr result IsNoLimit }
    ensures memory { result ≡ Err PcapErr.NoMemory → vec_capacity body < fields.now.captured }

    // How much it took, what the source's faults say, and what else of the source stays.
    ensures count { CountsBody (S.left source.old) (S.left source.new) taken.old taken.new result }
    ensures cause { HasFaultCause (S.faults source.old) (S.faults source.new) result }
    ensures rest { S.beside source.new ≡ S.beside source.old }
{
    let mut body = match sized(body, fields.captured as usize) {
        Ok(body) => body,
        Err(error) => return Err(error),
    };
    match take_bytes(source, body.as_mut_slice(), taken) {
        Ok(have) if have < fields.captured as usize => Err(PcapErr::Truncated {
            number,
            have: RECORD_HEAD_SIZE as u64 + have as u64,
            want: RECORD_HEAD_SIZE as u64 + u64::from(fields.captured),
        }),
        Ok(_) => Ok(Record {
            sec: fields.sec,
            nsec: fields.nsec,
            orig: fields.orig,
            body: Octets::of(body),
        }),
        Err(error) => Err(error),
    }
}

/// `body` with this length in bytes, whatever bytes it has.
fn sized(mut body: Vec<u8>, len: usize) -> Result<Vec<u8>, PcapErr>
    ensures len { IfOk result (λ v. vec_len v ≡ len) }
    ensures memory { IfErr result (λ e. (e ≡ PcapErr.NoMemory) × (vec_capacity body < len)) }
{
    match body.resize(len, 0) {
        Ok(()) => Ok(body),
        Err(_) => Err(PcapErr::NoMemory),
    }
}
