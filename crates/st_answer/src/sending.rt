//! The pieces of an answer, sent to an outlet.

ghost use Rattle.std.specs.Prelude.{Option, ◌≡◌, ◌<◌, ◌≤◌, ◌+◌, ℕ, List, Some, [], ◌∷◌, length, map, All, OnOk, IfErr, IsErrOf, vec_len, sum_by};
ghost use Rattle.st_base.specs.Records.{Rec};
ghost use Rattle.st_base.specs.Faults.{HasCause, HasCauseOf};
ghost use Rattle.st_base.specs.Outlets.{Sends};
ghost use Rattle.st_base.specs.PlacedReads.{IsSameFile};
ghost use Rattle.st_pcap.specs.Text.{body_piece, Pieces};
ghost use Rattle.st_block.specs.Record.{IsRecordAt};
ghost use Rattle.st_block.specs.declared.format.TheConstants.{MAX_NSEC};
ghost use Rattle.st_query.specs.declared.nodes.Node.{Node};
ghost use Rattle.st_disk.specs.Pairs.{Entry};
ghost use Rattle.st_answer.specs.Packets.{IsWholePair};
ghost use Rattle.st_answer.specs.declared.picked.Picked.{Picked};
ghost use Rattle.st_answer.specs.Picks.{pick_of, picked_records, IsPlaced};
ghost use Rattle.st_answer.specs.Heads.{IsReadErr, NamesStamp, Unhurt};
ghost use Rattle.st_answer.specs.Replies.{BlamesIn, HasOutletCause};
ghost use Rattle.st_answer.specs.Sending.{SendsOne, SendsRecords, ArePickedOf, body_pieces};

use crate::errors::AnswerErr;
use crate::picked::Picked;
use st_base::{Failed, Outlet, Reader, RecordRef};
use st_block::{BlockErr, Head, record_body_into};
use st_pcap::{Unit, file_head, record_head};

/// Sends a body, unless it is empty.
fn send_body<O: Outlet>(outlet: &mut O, body: &[u8]) -> Result<(), Failed>
    ensures sends { Sends O.after O.gone (O.state outlet.old) (O.state outlet.new)
        (body_piece body.now) result }
    ensures cause { HasCause (O.faults outlet.old) (O.faults outlet.new) result }
    ensures rest { O.beside outlet.new ≡ O.beside outlet.old }
{
    if body.is_empty() {
        return Ok(());
    }
    match outlet.piece(body) {
        Ok(()) => Ok(()),
        Err(error) => Err(error),
    }
}

/// Sends a head, and then a body unless it is empty.
fn send_pieces<O: Outlet>(outlet: &mut O, head: &[u8], body: &[u8]) -> Result<(), Failed>
    requires { 0 < length head.now }
    ensures sends { Sends O.after O.gone (O.state outlet.old) (O.state outlet.new)
        (head.now ∷ body_piece body.now) result }
    ensures cause { HasCause (O.faults outlet.old) (O.faults outlet.new) result }
    ensures rest { O.beside outlet.new ≡ O.beside outlet.old }
{
    match outlet.piece(head) {
        Ok(()) => send_body(outlet, body),
        Err(error) => Err(error),
    }
}

/// Reads the body of a pick's packet into `buffer`, by one read, or by none if it is empty.
fn body_of<F: Reader>(file: &mut F, pick: Picked, buffer: &mut Vec<u8>) -> Result<(), AnswerErr>
    // what comes
    ensures body { (r : Rec) → IsRecordAt (F.content file.old) pick.position r
        → pick.len ≡ length r.body → Unhurt (λ u. buffer.new.items ≡ r.body) result }
    ensures len { OnOk result (vec_len buffer.new ≡ pick.len) }
    ensures fails { IfErr result (IsReadErr pick.stamp) }
    ensures cause { HasCauseOf AnswerErr.DiskFault (F.faults file.old) (F.faults file.new) result }
    // what the file was asked
    ensures reads { F.reads file.new ≤ F.reads file.old + 1 }
    ensures asked { F.asked file.new ≤ F.asked file.old + pick.len }
    // what stays
    ensures same { IsSameFile (F.content file.old) (F.content file.new)
        (F.extent file.old) (F.extent file.new) (F.beside file.old) (F.beside file.new) }
{
    let head = Head {
        sec: pick.sec,
        nsec: pick.nsec,
        len: pick.len,
        orig: pick.orig,
    };
    match record_body_into(file, pick.position, &head, buffer) {
        Ok(()) => Ok(()),
        Err(BlockErr::ReadFault) => Err(AnswerErr::DiskFault),
        Err(BlockErr::Damaged(damage)) => Err(AnswerErr::Damaged {
            stamp: pick.stamp,
            damage,
        }),
        Err(BlockErr::NoMemory) => Err(AnswerErr::NoMemory),
    }
}

/// Sends the record of a pick's packet, whose body is read into `buffer`.
fn send_one<F: Reader, O: Outlet>(
    file: &mut F,
    pick: Picked,
    unit: Unit,
    buffer: &mut Vec<u8>,
    outlet: &mut O,
) -> Result<(), AnswerErr>
    requires { pick.nsec ≤ MAX_NSEC }
    // what is sent, and how it fails
    ensures sends { SendsOne O.after O.gone (O.state outlet.old) (O.state outlet.new)
        (F.content file.old) unit pick result }
    ensures names { IfErr result (NamesStamp pick.stamp) }
    ensures write { HasOutletCause (O.faults outlet.old) (O.faults outlet.new) result }
    ensures disk { HasCauseOf AnswerErr.DiskFault (F.faults file.old) (F.faults file.new) result }
    // what the file was asked
    ensures asked { (F.reads file.new ≤ F.reads file.old + 1)
        × (F.asked file.new ≤ F.asked file.old + pick.len) }
    // what stays
    ensures same { IsSameFile (F.content file.old) (F.content file.new)
        (F.extent file.old) (F.extent file.new) (F.beside file.old) (F.beside file.new) }
    ensures rest { O.beside outlet.new ≡ O.beside outlet.old }
{
    match body_of(file, pick, buffer) {
        Ok(()) => {}
        Err(error) => return Err(error),
    }
    let body = buffer.as_slice();
    let record = RecordRef {
        sec: pick.sec,
        nsec: pick.nsec,
        orig: pick.orig,
        body,
    };
    match send_pieces(outlet, &record_head(unit, record), body) {
        Ok(()) => Ok(()),
        Err(_) => Err(AnswerErr::WriteFault),
    }
}

/// Sends the records of these picks, each from the file of its pair, with one read of each body.
pub fn send_records<F: Reader, O: Outlet>(
    files: &mut [F],
    picked: &[Picked],
    unit: Unit,
    buffer: &mut Vec<u8>,
    outlet: &mut O,
) -> Result<(), AnswerErr>
    requires { All (IsPlaced (length files.old)) picked.now }
    // what is sent, and how it fails
    ensures sends { (q : Node) (now : ℕ) (set : List Entry)
        → ArePickedOf q now set (map F.content files.old) picked.now → All IsWholePair set
        → SendsRecords O.after O.gone (O.state outlet.old) (O.state outlet.new)
        (body_pieces unit) (picked_records set picked.now) result }
    ensures blames { (q : Node) (now : ℕ) (set : List Entry)
        → ArePickedOf q now set (map F.content files.old) picked.now
        → IfErr result (BlamesIn set) }
    ensures write { HasOutletCause (O.faults outlet.old) (O.faults outlet.new) result }
    ensures disk { IsErrOf result AnswerErr.DiskFault → 0 < sum_by F.faults files.new }
    // what the files were asked
    ensures asked { (sum_by F.reads files.new ≤ sum_by F.reads files.old + length picked.now)
        × (sum_by F.asked files.new
        ≤ sum_by F.asked files.old + sum_by (λ (p : Picked). p.len) picked.now) }
    // what stays
    ensures same { map F.beside files.new ≡ map F.beside files.old }
    ensures rest { O.beside outlet.new ≡ O.beside outlet.old }
{
    'records: for pick in picked {
        match send_one(&mut files[pick.place], *pick, unit, buffer, outlet) {
            Ok(()) => {}
            Err(error) => return Err(error),
        }
    }
    Ok(())
}

/// Sends the file head, and then the records of these picks, each from the file of its pair.
///
/// `WriteFault` comes only if the outlet's count of faults rose, `DiskFault` only if that of a file
/// did. `Damaged` names a pair that isn't whole.
pub fn send_all<F: Reader, O: Outlet>(
    files: &mut [F],
    picked: &[Picked],
    unit: Unit,
    buffer: &mut Vec<u8>,
    outlet: &mut O,
) -> Result<(), AnswerErr>
    requires { All (IsPlaced (length files.old)) picked.now }
    // what is sent, and how it fails
    ensures sends { (q : Node) (now : ℕ) (set : List Entry)
        → ArePickedOf q now set (map F.content files.old) picked.now → All IsWholePair set
        → SendsRecords O.after O.gone (O.state outlet.old) (O.state outlet.new)
        (λ rs. Pieces rs unit) (picked_records set picked.now) result }
    ensures blames { (q : Node) (now : ℕ) (set : List Entry)
        → ArePickedOf q now set (map F.content files.old) picked.now
        → IfErr result (BlamesIn set) }
    ensures write { HasOutletCause (O.faults outlet.old) (O.faults outlet.new) result }
    ensures disk { IsErrOf result AnswerErr.DiskFault → 0 < sum_by F.faults files.new }
    // what the files were asked
    ensures asked { (sum_by F.reads files.new ≤ sum_by F.reads files.old + length picked.now)
        × (sum_by F.asked files.new
        ≤ sum_by F.asked files.old + sum_by (λ (p : Picked). p.len) picked.now) }
    // what stays
    ensures same { map F.beside files.new ≡ map F.beside files.old }
    ensures rest { O.beside outlet.new ≡ O.beside outlet.old }
{
    match outlet.piece(&file_head(unit)) {
        Ok(()) => send_records(files, picked, unit, buffer, outlet),
        Err(_) => Err(AnswerErr::WriteFault),
    }
}
