ghost use Rattle.std.specs.Prelude.{◌≡◌, ◌≤◌, ◌<◌, ◌+◌, ◌^◌, length, drop, option_map, nat_lt, if◌then◌else◌};
ghost use Rattle.byteorder.specs.Endian.{little_number};
ghost use Rattle.st_base.specs.Records.{Rec, time};
ghost use Rattle.st_base.specs.Damages.{damage_view};
ghost use Rattle.st_block.specs.Fields.{not_same, first_wrong};
ghost use Rattle.st_block.specs.BlockText.{record_head, record_fields, records_fields, head_counts, head_times, block_fields};
ghost use Rattle.st_block.specs.Checks.{room_at, record_at, records_at, records_of};
ghost use Rattle.st_block.specs.Layout.{RecordsFit, IsLayout};

use crate::fields::{
    above, captured_at, first_of, long_at, not_same, not_zero, number_at, short_at,
};
use crate::format::{
    BLOCK_HEAD, BLOCK_SIZE_AT, BLOCK_STATUS, BLOCK_STATUS_AT, BODY_AGAIN_AT, BODY_AT, COUNT_AT,
    DISTANCE_AT, FIRST_AT, FIRST_NSEC_AT, FIRST_SEC_AT, HEAD_ZEROS, LAST_NSEC_AT, LAST_SEC_AT,
    MAX_NSEC, MIN_BLOCK, NSEC_AT, NUMBER_AT, RECORD_HEAD, RECORD_STATUS, RECORD_STATUS_AT, SEC_AT,
    USED_AT, VERSION, VERSION_AT, ZEROS_AT,
};
use crate::scan::layout::Layout;
use crate::sizes::room_of;
use st_base::Damage;

/// The damage at the number of four bytes at the offset `at` of a head that begins at `place`,
/// unless it is `want`.
fn differs(place: u64, at: usize, head: &[u8], want: u64) -> Option<Damage>
    requires inside { at + 4 ≤ length head.now }
    requires place { place + length head.now ≤ 2 ^ 32 }
    ensures { option_map damage_view result
        ≡ not_same (place + at) (little_number 4 (drop at head.now)) want }
{
    not_same(place + at as u64, number_at(at, head) as u64, want)
}

/// The damage at the number of two bytes at the offset `at` of a head that begins at `place`,
/// unless it is `want`.
fn short_differs(place: u64, at: usize, head: &[u8], want: u64) -> Option<Damage>
    requires inside { at + 2 ≤ length head.now }
    requires place { place + length head.now ≤ 2 ^ 32 }
    ensures { option_map damage_view result
        ≡ not_same (place + at) (little_number 2 (drop at head.now)) want }
{
    not_same(place + at as u64, short_at(at, head) as u64, want)
}

/// The first damage in the head of a record, whatever else the record says.
fn record_head_wrong(place: u64, next: u64, bytes: &[u8]) -> Option<Damage>
    requires head { RECORD_HEAD ≤ length bytes.now }
    requires place { place + length bytes.now ≤ 2 ^ 32 }
    ensures { (r : Rec) → option_map damage_view result
        ≡ first_wrong place (record_head next r) bytes.now }
{
    let distance = not_same(place, number_at(DISTANCE_AT, bytes) as u64, next);
    let nsec = number_at(NSEC_AT, bytes) as u64;
    let nsec = above(place + NSEC_AT as u64, nsec, MAX_NSEC as u64);
    let status = differs(place, RECORD_STATUS_AT, bytes, RECORD_STATUS as u64);
    let body = short_differs(place, BODY_AT, bytes, RECORD_HEAD as u64);
    let again = short_differs(place, BODY_AGAIN_AT, bytes, RECORD_HEAD as u64);
    let zeros = bytes.split_at(ZEROS_AT).1.split_at(HEAD_ZEROS).0;
    let zeros = not_zero(place + ZEROS_AT as u64, zeros);
    let after = first_of(status, first_of(body, first_of(again, zeros)));
    first_of(distance, first_of(nsec, after))
}

/// The first damage in a record that fits.
fn record_wrong(place: u64, next: u64, bytes: &[u8]) -> Option<Damage>
    requires fits { room_at bytes.now ≤ length bytes.now }
    requires place { place + length bytes.now ≤ 2 ^ 32 }
    ensures { option_map damage_view result
        ≡ first_wrong place (record_fields next (record_at bytes.now)) bytes.now }
{
    let len = captured_at(bytes) as usize;
    let padding = room_of(len as u32) as usize - RECORD_HEAD - len;
    let zeros = bytes.split_at(RECORD_HEAD + len).1.split_at(padding).0;
    first_of(
        record_head_wrong(place, next, bytes),
        not_zero(place + RECORD_HEAD as u64 + len as u64, zeros),
    )
}

/// How far it is to the head of the next record of `count`, after `had` of them and one that takes
/// `room` bytes.
fn distance_of(had: u32, count: u32, room: u64) -> u64
    requires { had < count }
    ensures { result ≡ (if nat_lt (had + 1) count then room else 0) }
{
    if had + 1 < count { room } else { 0 }
}

/// The first damage in the records of a block, all of which fit.
fn records_wrong(place: u64, count: u32, block: &[u8]) -> Option<Damage>
    requires fits { RecordsFit count (drop BLOCK_HEAD block.now) }
    requires least { BLOCK_HEAD ≤ length block.now }
    requires place { place + length block.now ≤ 2 ^ 32 }
    ensures { option_map damage_view result ≡ first_wrong (place + BLOCK_HEAD)
        (records_fields (records_at count (drop BLOCK_HEAD block.now)))
        (drop BLOCK_HEAD block.now) }
{
    let mut at = BLOCK_HEAD;
    'records: for had in 0..count {
        let rest = block.split_at(at).1;
        let room = room_of(captured_at(rest));
        let next = distance_of(had, count, room);
        if let Some(damage) = record_wrong(place + at as u64, next, rest) {
            return Some(damage);
        }
        at += room as usize;
    }
    None
}

/// The first damage in the first part of a block's head.
#[tactic(auto, using(crate::proofs::Checking::head_counts_checks))]
fn counts_wrong(place: u64, number: u32, layout: Layout, block: &[u8]) -> Option<Damage>
    requires least { BLOCK_HEAD ≤ length block.now }
    requires place { place + length block.now ≤ 2 ^ 32 }
    ensures { option_map damage_view result
        ≡ first_wrong place
        (head_counts (length block.now) number layout.count layout.end) block.now }
{
    let version = number_at(VERSION_AT, block) as u64;
    let version = not_same(place, version, VERSION as u64);
    let size = differs(place, BLOCK_SIZE_AT, block, block.len() as u64);
    let status = differs(place, BLOCK_STATUS_AT, block, BLOCK_STATUS as u64);
    let count = differs(place, COUNT_AT, block, layout.count as u64);
    let first = differs(place, FIRST_AT, block, BLOCK_HEAD as u64);
    let used = differs(place, USED_AT, block, layout.end as u64);
    let place = place + NUMBER_AT as u64;
    let number = not_same(place, long_at(NUMBER_AT, block), number as u64);
    let after = first_of(count, first_of(first, first_of(used, number)));
    first_of(version, first_of(size, first_of(status, after)))
}

/// The first damage in the other part, which has the times of the records that begin `first` and
/// `last`.
#[tactic(auto, using(crate::proofs::Checking::head_times_checks))]
fn times_wrong(place: u64, first: &[u8], last: &[u8], block: &[u8]) -> Option<Damage>
    // the heads of two records
    requires first { RECORD_HEAD ≤ length first.now }
    requires last { RECORD_HEAD ≤ length last.now }
    // the block
    requires least { BLOCK_HEAD ≤ length block.now }
    requires place { place + length block.now ≤ 2 ^ 32 }
    // what comes
    ensures { option_map damage_view result ≡ first_wrong (place + FIRST_SEC_AT)
        (head_times (time (record_at first.now)) (time (record_at last.now)))
        (drop FIRST_SEC_AT block.now) }
{
    let sec = number_at(SEC_AT, first) as u64;
    let sec = differs(place, FIRST_SEC_AT, block, sec);
    let nsec = number_at(NSEC_AT, first) as u64;
    let nsec = differs(place, FIRST_NSEC_AT, block, nsec);
    let last_sec = number_at(SEC_AT, last) as u64;
    let last_sec = differs(place, LAST_SEC_AT, block, last_sec);
    let last_nsec = number_at(NSEC_AT, last) as u64;
    let last_nsec = differs(place, LAST_NSEC_AT, block, last_nsec);
    first_of(sec, first_of(nsec, first_of(last_sec, last_nsec)))
}

/// The first damage in the fields of a block that is laid out so.
pub fn fields_wrong(place: u64, number: u32, layout: Layout, block: &[u8]) -> Option<Damage>
    requires laid { IsLayout block.now layout }
    requires least { MIN_BLOCK ≤ length block.now }
    requires place { place + length block.now ≤ 2 ^ 32 }
    ensures { option_map damage_view result
        ≡ first_wrong place
        (block_fields (length block.now) number (records_of block.now)) block.now }
{
    let first = block.split_at(BLOCK_HEAD).1;
    let last = block.split_at(layout.last).1;
    let counts = counts_wrong(place, number, layout, block);
    let times = times_wrong(place, first, last, block);
    let records = records_wrong(place, layout.count, block);
    let rest = not_zero(place + layout.end as u64, block.split_at(layout.end).1);
    first_of(first_of(counts, times), first_of(records, rest))
}
