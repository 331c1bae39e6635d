//! Which packets of one pair match, by its index.

ghost use Rattle.std.specs.Prelude.{Option, ◌≡◌, ◌<◌, ◌↔◌, ◌^◌, ℕ, List, Some, length, IfErr};
ghost use Rattle.st_base.specs.Faults.{HasCauseOf};
ghost use Rattle.st_base.specs.PlacedReads.{IsSameFile};
ghost use Rattle.st_tblock.specs.Block.{RowView};
ghost use Rattle.st_table.specs.TableFile.{IsTable};
ghost use Rattle.st_table.specs.Errors.{NoCheckFailed};
ghost use Rattle.st_block.specs.Scan.{PositionedRecord};
ghost use Rattle.st_rows.specs.Whole.{IsWhole};
ghost use Rattle.st_eval.specs.Selection.{AreMatching, IsIndexOf};
ghost use Rattle.st_eval.specs.Refusals.{NoDamage};
ghost use Rattle.st_answer.specs.Heads.{IsReadErr, IsNoDamage, Unhurt};
ghost use Rattle.st_answer.specs.Stores.{IsSameStore, OfEntry};
ghost use Rattle.st_answer.specs.Lending.{LendsIndex};
ghost use Rattle.st_answer.specs.Replies.{HasDiskCause};

use crate::errors::AnswerErr;
use crate::store::Store;
use st_base::{Damage, Reader};
use st_eval::{EvalErr, Positions, eval, summary};
use st_query::Query;
use st_table::{Table, TableErr};
use st_tblock::{PLAIN, SNAPPY};
use std::alloc::Global;

/// How an answer fails if the table of an index fails so, the pair's stamp being `stamp`.
fn table_failed(stamp: u64, error: TableErr) -> AnswerErr
    ensures reading { IsReadErr stamp result }
    ensures unhurt { NoCheckFailed error → IsNoDamage result }
    ensures fault { result ≡ AnswerErr.DiskFault ↔ error ≡ TableErr.ReadFault }
{
    match error {
        TableErr::ReadFault => AnswerErr::DiskFault,
        TableErr::Damaged(damage) => AnswerErr::Damaged { stamp, damage },
        TableErr::Compressed { place } => AnswerErr::Damaged {
            stamp,
            damage: Damage {
                place,
                found: u64::from(SNAPPY),
                want: u64::from(PLAIN),
            },
        },
        TableErr::NoMemory => AnswerErr::NoMemory,
    }
}

/// How an answer fails if evaluating the query over an index fails so, the pair's stamp being
/// `stamp`.
fn eval_failed(stamp: u64, error: EvalErr) -> AnswerErr
    ensures reading { IsReadErr stamp result }
    ensures unhurt { NoDamage error → IsNoDamage result }
    ensures fault { result ≡ AnswerErr.DiskFault ↔ error ≡ EvalErr.ReadFault }
{
    match error {
        EvalErr::ReadFault => AnswerErr::DiskFault,
        EvalErr::Damaged(damage) => AnswerErr::Damaged { stamp, damage },
        EvalErr::NoMemory => AnswerErr::NoMemory,
    }
}

/// The positions of the packets that match, by the index of the pair with this stamp. Its footer,
/// index block and summary row are read first.
fn select<F: Reader>(
    alloc: Global,
    file: &mut F,
    stamp: u64,
    query: &Query,
    now: u64,
) -> Result<Positions, AnswerErr>
    // what comes
    ensures selects { (bytes : List ℕ) (rows : List RowView) (given : List PositionedRecord)
        → F.content file.old ≡ Some bytes → IsTable bytes rows → IsIndexOf given rows
        → length given < 2 ^ 32
        → Unhurt (λ ps. AreMatching query.now now given ps) result }
    ensures fails { IfErr result (IsReadErr stamp) }
    ensures cause { HasCauseOf AnswerErr.DiskFault (F.faults file.old) (F.faults file.new) result }
    // what stays
    ensures same { IsSameFile (F.content file.old) (F.content file.new)
        (F.extent file.old) (F.extent file.new) (F.beside file.old) (F.beside file.new) }
{
    let mut table = Table::over(alloc, file);
    match table.enter(alloc) {
        Ok(()) => {}
        Err(error) => return Err(table_failed(stamp, error)),
    }
    match summary(alloc, &mut table) {
        Ok(_) => {}
        Err(error) => return Err(eval_failed(stamp, error)),
    }
    match eval(alloc, query, now, &mut table) {
        Ok(positions) => Ok(positions),
        Err(error) => Err(eval_failed(stamp, error)),
    }
}

/// The positions of the packets that match of the `i`-th pair of the held set, counted from 0. The
/// pair has this stamp, and its index is lent and closed.
///
/// `DiskFault` comes only if the store's count of faults rose. `Damaged` has this stamp, and comes
/// only if the pair isn't whole.
pub fn choose<S: Store>(
    alloc: Global,
    store: &mut S,
    hold: &S::Held,
    i: usize,
    stamp: u64,
    query: &Query,
    now: u64,
) -> Result<Positions, AnswerErr>
    requires held { 0 < S.times_held store.old hold.now }
    requires below { i < S.size store.old hold.now }
    // what comes
    ensures chooses { OfEntry (S.set store.old hold.now) i (λ e. (given : List PositionedRecord)
        → IsWhole e.block e.index given
        → Unhurt (λ ps. AreMatching query.now now given ps) result) }
    ensures fails { IfErr result (IsReadErr stamp) }
    ensures cause { HasDiskCause (S.faults store.old) (S.faults store.new) result }
    // what stays
    ensures loans { LendsIndex (S.loans store.old) (S.loans store.new) }
    ensures stays { IsSameStore (S.becomes store.old store.new) (S.id store.old) (S.id store.new)
        (S.holds store.old) (S.holds store.new) (S.times_held store.old) (S.times_held store.new)
        (S.size store.old) (S.size store.new) (S.set store.old) (S.set store.new) }
{
    match store.index_of(hold, i) {
        Ok(file) => {
            let mut file = file;
            let result = select(alloc, &mut file, stamp, query, now);
            store.close_file(file);
            result
        }
        Err(_) => Err(AnswerErr::DiskFault),
    }
}
