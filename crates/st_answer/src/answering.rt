//! An answer over a store: a hold, the packets that match, what is sent of them.

ghost use Rattle.std.specs.Prelude.{Option, ◌≡◌, ◌<◌, ◌≤◌, ◌+◌, ℕ, List, Some, [], length, map, All, IfOk, IfErr, OnOk, IsErrOf, MatchResult, sum_by};
ghost use Rattle.st_disk.specs.Pairs.{Entry};
ghost use Rattle.st_query.specs.declared.nodes.Node.{Node};
ghost use Rattle.st_answer.specs.declared.picked.Picked.{Picked};
ghost use Rattle.st_answer.specs.Packets.{IsWholeSet};
ghost use Rattle.st_answer.specs.Picks.{IsPlaced, AreDistinct, HasAllOf};
ghost use Rattle.st_answer.specs.Sending.{ArePickedOf};
ghost use Rattle.st_answer.specs.Bounds.{ReadsUpTo, ReadsForAnswer};
ghost use Rattle.st_answer.specs.Gathering.{HasFaultCause};
ghost use Rattle.st_answer.specs.Lending.{LendsMore, LendsNone};
ghost use Rattle.st_answer.specs.Sets.{KeepsSets, GoesOn};
ghost use Rattle.st_answer.specs.Stores.{IsSameStore, IsSpent, StayHeld, asked};
ghost use Rattle.st_answer.specs.Replies.{Replies, RepliesFor, Blames, BlamesIn, AsksOnce, HasDiskCause, HasOutletCause};

use crate::closing::close_all;
use crate::errors::{AnswerErr, Told};
use crate::gather::gather;
use crate::order::{in_order, told_of};
use crate::picked::Picked;
use crate::sending::send_all;
use crate::store::Store;
use st_base::{Limits, Outlet, Reader};
use st_pcap::Unit;
use st_query::Query;
use std::alloc::Global;

/// Sends the packets of the picks that were found, in the answer's order and within the limits, and
/// tells how many packets and bytes these are.
fn reply<F: Reader, O: Outlet>(
    alloc: Global,
    files: &mut [F],
    found: Vec<Picked>,
    unit: Unit,
    limits: Limits,
    outlet: &mut O,
) -> Result<Told, AnswerErr>
    requires { All (IsPlaced (length files.old)) found.items }
    // what is sent, and how it fails
    ensures replies { (q : Node) (now : ℕ) (set : List Entry)
        → ArePickedOf q now set (map F.content files.old) found.items → IsWholeSet set
        → AreDistinct found.items → HasAllOf q now set set found.items
        → Replies O.after O.gone (O.state outlet.old) (O.state outlet.new)
        (record { node = q; now = now; limits = limits; unit = unit }) set result }
    ensures blames { (q : Node) (now : ℕ) (set : List Entry)
        → ArePickedOf q now set (map F.content files.old) found.items
        → IfErr result (BlamesIn set) }
    ensures write { HasOutletCause (O.faults outlet.old) (O.faults outlet.new) result }
    ensures disk { IsErrOf result AnswerErr.DiskFault → 0 < sum_by F.faults files.new }
    // what the files were asked
    ensures asked { (sum_by F.reads files.new ≤ sum_by F.reads files.old + length found.items)
        × (sum_by F.asked files.new
        ≤ sum_by F.asked files.old + sum_by (λ (p : Picked). p.len) found.items) }
    // what stays
    ensures same { map F.beside files.new ≡ map F.beside files.old }
    ensures rest { O.beside outlet.new ≡ O.beside outlet.old }
{
    let picked = in_order(found, limits);
    let told = told_of(picked.as_slice());
    let mut buffer = Vec::new(alloc);
    match send_all(files, picked.as_slice(), unit, &mut buffer, outlet) {
        Ok(()) => Ok(told),
        Err(error) => Err(error),
    }
}

/// Answers over a file set that is held: what is done between the hold and its release. The files
/// that were lent are put into `files`, for the caller to close, also after an error.
fn answer_held<S: Store, O: Outlet>(
    alloc: Global,
    store: &mut S,
    hold: &S::Held,
    query: &Query,
    now: u64,
    unit: Unit,
    limits: Limits,
    files: &mut Vec<S::File>,
    outlet: &mut O,
) -> Result<Told, AnswerErr>
    requires held { 0 < S.times_held store.old hold.now }
    requires none { files.old.items ≡ [] }
    // what is sent, and how it fails
    ensures replies { RepliesFor O.after O.gone (O.state outlet.old) (O.state outlet.new)
        (record { node = query.now; now = now; limits = limits; unit = unit })
        (S.set store.old hold.now) result × Blames (S.set store.old hold.now) result }
    ensures outlet { HasOutletCause (O.faults outlet.old) (O.faults outlet.new) result
        × (O.beside outlet.new ≡ O.beside outlet.old) }
    ensures cause { HasFaultCause (S.faults store.old) (S.faults store.new)
        (sum_by S.File.faults files.new.items) result }
    // what the files were asked
    ensures reads { ReadsUpTo query.now now (S.set store.old hold.now)
        (sum_by S.File.reads files.new.items) (sum_by S.File.asked files.new.items) }
    // what stays
    ensures files { All (λ f. (S.origin f).home ≡ S.id store.old) files.new.items
        × LendsMore (length files.new.items) (S.loans store.old) (S.loans store.new) }
    ensures stays { IsSameStore (S.becomes store.old store.new) (S.id store.old) (S.id store.new)
        (S.holds store.old) (S.holds store.new) (S.times_held store.old) (S.times_held store.new)
        (S.size store.old) (S.size store.new) (S.set store.old) (S.set store.new) }
{
    match gather(alloc, store, hold, query, now, files) {
        Ok(found) => reply(alloc, files.as_mut_slice(), found, unit, limits, outlet),
        Err(error) => Err(error),
    }
}

/// Sends the packets of the store's file set that match `query`, as a pcap in `unit`, with the
/// clock at `now` microseconds since 1970; and tells how many packets and bytes were sent.
///
/// The set is held, each summary row is read, and each pair's packets that match are found by its
/// index. The answer is sorted by second, nanosecond, stamp and position, and cut at the first
/// packet that passes a limit: on the number of packets, or on their captured bytes. Then the file
/// head goes out as one piece, and each packet as a piece of 16 bytes and, unless it is empty, one
/// of its body, which is read then.
///
/// `WriteFault` comes only if the outlet's count of faults rose, and a part of the answer is then
/// sent; after every other end that count stayed. `DiskFault` comes only if the store or a file of
/// it failed. `Damaged` names a pair that isn't whole. After `DiskFault`, `Damaged` and `NoMemory`
/// nothing is sent, or whole packets from the first on. The hold and the files are given back on
/// every path.
/// Source: docs/FORMAT.md, "pcap" and "Index rows".
pub fn answer<S: Store, O: Outlet>(
    alloc: Global,
    store: &mut S,
    query: &Query,
    now: u64,
    unit: Unit,
    limits: Limits,
    outlet: &mut O,
) -> Result<Told, AnswerErr>
    // what is sent, and how it fails
    ensures replies { RepliesFor O.after O.gone (O.state outlet.old) (O.state outlet.new)
        (record { node = query.now; now = now; limits = limits; unit = unit })
        (asked (S.holds store.new)) result }
    ensures blames { Blames (asked (S.holds store.new)) result }
    ensures write { HasOutletCause (O.faults outlet.old) (O.faults outlet.new) result }
    ensures disk { HasDiskCause (S.faults store.old) (S.faults store.new) result }
    // what the store was asked
    ensures asks { AsksOnce (S.holds store.old) (S.holds store.new)
        (O.state outlet.old) (O.state outlet.new) result }
    ensures reads { ReadsForAnswer query.now now (asked (S.holds store.new))
        (S.loans store.old) (S.loans store.new) }
    // what stays
    ensures spent { IsSpent (S.becomes store.old store.new) (S.id store.old) (S.id store.new)
        (S.holds store.old) (S.holds store.new) (S.loans store.old) (S.loans store.new)
        × StayHeld (S.times_held store.old) (S.times_held store.new)
        (S.size store.old) (S.size store.new) (S.set store.old) (S.set store.new) }
    ensures rest { O.beside outlet.new ≡ O.beside outlet.old }
{
    match store.hold() {
        Ok(hold) => {
            let mut files = Vec::new(alloc);
            let result = answer_held(
                alloc, store, &hold, query, now, unit, limits, &mut files, outlet,
            );
            close_all(store, files);
            store.release(hold);
            result
        }
        Err(_) => Err(AnswerErr::NoMemory),
    }
}
