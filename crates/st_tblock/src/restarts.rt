//! The restarts of a block: offsets of entries that share nothing with the key before them.

ghost use Rattle.std.specs.Prelude.{◌≡◌, ◌≤◌, ◌<◌, ◌-◌, ◌*◌, ◌+◌, List, ℕ, length, IfSome, Some, option_map, IsTrue};
ghost use Rattle.st_tblock.specs.Block.{numbers_in, rises_from, begins, halves_in, restarts_in, split_in, restarts_left, is_had};
ghost use Rattle.st_tblock.specs.Search.{IsAmong};

use crate::format::RESTART_SIZE;
use byteorder::{ByteOrder, LittleEndian};

/// Whether the numbers rise, the first of them above `last`.
#[tactic(auto, using(crate::proofs::RestartNumbers::numbers))]
fn do_rise(last: u32, restarts: &[u8]) -> bool
    ensures { result ≡ rises_from last (numbers_in restarts.now) }
{
    let mut last = last;
    let mut rest = restarts;
    'restarts: while rest.len() >= RESTART_SIZE {
        let (first, more) = rest.split_at(RESTART_SIZE);
        let next = LittleEndian::read_u32(first);
        if next <= last {
            return false;
        }
        last = next;
        rest = more;
    }
    true
}

/// Whether the numbers begin with 0 and rise.
#[tactic(auto, using(crate::proofs::RestartNumbers::numbers))]
fn do_begin(restarts: &[u8]) -> bool
    ensures { result ≡ begins (numbers_in restarts.now) }
{
    if restarts.len() < RESTART_SIZE {
        return false;
    }
    let (first, more) = restarts.split_at(RESTART_SIZE);
    LittleEndian::read_u32(first) == 0 && do_rise(0, more)
}

/// The entries of a block and the bytes of its restarts, where these fit.
#[tactic(auto, unfolding(crate::specs::Block::halves_in))]
pub fn halves_at(bytes: &[u8]) -> Option<(&[u8], &[u8])>
    ensures value { option_map (λ x. (x.0.now, x.1.now)) result ≡ halves_in bytes.now }
    ensures within { IfSome result (λ x. length x.0.now ≤ length bytes.now) }
{
    if bytes.len() < RESTART_SIZE {
        return None;
    }
    let (body, count) = bytes.split_at(bytes.len() - RESTART_SIZE);
    let count = LittleEndian::read_u32(count) as usize;
    if body.len() < RESTART_SIZE * count {
        return None;
    }
    Some(body.split_at(body.len() - RESTART_SIZE * count))
}

/// The entries of a block and the bytes of its restarts, where these fit, begin with 0 and rise.
#[tactic(auto, unfolding(crate::specs::Block::restarts_in))]
pub fn restarts_at(bytes: &[u8]) -> Option<(&[u8], &[u8])>
    ensures value { option_map (λ x. (x.0.now, numbers_in x.1.now)) result ≡ restarts_in bytes.now }
    ensures within { IfSome result (λ x. length x.0.now ≤ length bytes.now) }
{
    let (text, restarts) = halves_at(bytes)?;
    if do_begin(restarts) {
        Some((text, restarts))
    } else {
        None
    }
}

/// The restart of this number, from 0 on.
pub fn restart_at(restarts: &[u8], number: usize) -> usize
    requires { RESTART_SIZE * (number + 1) ≤ length restarts.now }
    ensures { IsAmong result (numbers_in restarts.now) }
{
    LittleEndian::read_u32(restarts.split_at(RESTART_SIZE * number).1) as usize
}

/// The restarts that named no entry yet, after an entry at the offset `at` that shares `shared`
/// bytes.
#[tactic(auto, using(crate::proofs::RestartNumbers::numbers))]
pub fn restarts_after(restarts: &[u8], at: u64, shared: usize) -> &[u8]
    ensures { numbers_in result.now ≡ restarts_left at shared (numbers_in restarts.now) }
{
    if restarts.len() < RESTART_SIZE || shared > 0 {
        return restarts;
    }
    let (first, more) = restarts.split_at(RESTART_SIZE);
    if u64::from(LittleEndian::read_u32(first)) == at {
        more
    } else {
        restarts
    }
}

/// Whether every restart named an entry; a block without entries has the one restart 0.
#[tactic(auto, using(crate::proofs::RestartNumbers::numbers))]
pub fn all_had(at: u64, restarts: &[u8]) -> bool
    ensures { result ≡ is_had at (numbers_in restarts.now) }
{
    if restarts.len() < RESTART_SIZE {
        return true;
    }
    let (first, more) = restarts.split_at(RESTART_SIZE);
    at == 0 && more.len() < RESTART_SIZE && LittleEndian::read_u32(first) == 0
}
