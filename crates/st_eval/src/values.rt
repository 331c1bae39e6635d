//! The values of an index's rows.

ghost use Rattle.std.specs.Prelude.{◌≡◌, ◌≢◌, ◌++◌, ◌⊎◌, IfErr, OnOk, None};
ghost use Rattle.st_rows.specs.Positions.{positions_in};
ghost use Rattle.st_rows.specs.Values.{positions_wrong};
ghost use Rattle.st_eval.specs.Refusals.{NoDamage, damage_in};

use crate::errors::EvalErr;
use crate::positions::rises;
use byteorder::{BigEndian, ByteOrder};
use st_base::Damage;
use st_rows::POSITION_SIZE;
use std::alloc::AllocError;

/// Appends the positions that a value says; one to three bytes at its end say none.
fn decode(value: &[u8], all: &mut Vec<u32>) -> Result<(), AllocError>
    ensures { OnOk result (all.new.items ≡ all.old.items ++ positions_in value.now) }
{
    let mut at = 0;
    'positions: while value.len() - at >= POSITION_SIZE {
        all.push(BigEndian::read_u32(&value[at..]))?;
        at += POSITION_SIZE;
    }
    Ok(())
}

/// Appends the positions that a row's value says.
///
/// `Damaged` comes if the value's length is no multiple of 4, or else if the positions don't rise.
/// After an error `all` may have some of them.
pub fn append_positions(value: &[u8], all: &mut Vec<u32>) -> Result<(), EvalErr>
    ensures positions { OnOk result (all.new.items ≡ all.old.items ++ positions_in value.now) }
    ensures sound { OnOk result (positions_wrong value.now ≡ None) }
    ensures refuses { IfErr result
        (λ e. NoDamage e ⊎ (damage_in e ≡ positions_wrong value.now)) }
    ensures cause { IfErr result (λ e. e ≢ EvalErr.ReadFault) }
{
    let rest = value.len() % POSITION_SIZE;
    if rest != 0 {
        return Err(EvalErr::Damaged(Damage {
            place: 0,
            found: rest as u64,
            want: 0,
        }));
    }
    let start = all.len();
    match decode(value, all) {
        Ok(()) => {}
        Err(_) => return Err(EvalErr::NoMemory),
    }
    if !rises(&all[start..]) {
        return Err(EvalErr::Damaged(Damage::broken(0)));
    }
    Ok(())
}
