//! The line of one pair of a held set.

ghost use Rattle.std.specs.Prelude.{◌≡◌, ◌≢◌, ◌<◌, ◌≤◌, ◌⊎◌, ◌∷◌, drop, List, ℕ, Some, IfOk, IfErr, Contains, IsErrOf};
ghost use Rattle.st_base.specs.Faults.{Rose, HasCauseOf};
ghost use Rattle.st_base.specs.PlacedReads.{IsSameFile};
ghost use Rattle.st_disk.specs.Disks.{Log};
ghost use Rattle.st_disk.specs.Events.{Event};
ghost use Rattle.st_disk.specs.Pairs.{Entry, Files};
ghost use Rattle.st_index.specs.Verdict.{Judges};
ghost use Rattle.st_spool.specs.Holding.{size_of};
ghost use Rattle.st_spool.specs.Standing.{StandsFor};
ghost use Rattle.st_spool.specs.States.{held};
ghost use Rattle.st_commands.specs.Commands.{Stays};
ghost use Rattle.st_pairs.specs.Pairs.{IsWholePair};
ghost use Rattle.st_commands.specs.Reports.{TellsPair, IsSaid};
ghost use Rattle.st_commands.specs.Telling.{TellsSummary, TellsVerdict, MakesLine, FailsByTable, line_result};

use crate::lines::{summary_text, verdict_text};
use crate::outcomes::{Line, Outcome, PairErr, Report};
use st_base::{Damage, Reader};
use st_eval::{EvalErr, Summary, summary};
use st_index::{CheckErr, Verdict, check};
use st_pairs::Indexed;
use st_shelf::Shelf;
use st_spool::{Hold, Spool};
use st_table::{Table, TableErr};
use st_tblock::{PLAIN, SNAPPY};
use std::alloc::{AllocError, Global};

// The verdict on the `i`-th pair of the hold, counted from 0.
fn verdict_at<D: Shelf>(
    alloc: Global,
    spool: &mut Spool<D, Indexed>,
    hold: &Hold,
    i: usize,
) -> Result<Verdict, PairErr>
    requires held { Contains spool.old.state.holds hold.now }
    requires within { i < size_of hold.now }
    // what comes
    ensures judges { (log : Log) (earlier h : List Event) (f : Files) (e : Entry)
        (after : List Entry) → D.log spool.old.shelf ≡ Some log
        → StandsFor IsWholePair (D.log spool.old.shelf) spool.old.state earlier h f
        → drop i (held hold.now h) ≡ e ∷ after
        → IfOk result (Judges e.block e.index) }
    ensures errors { IfErr result (λ e. (e ≡ PairErr.DiskFault) ⊎ (e ≡ PairErr.NoMemory)) }
    // what stays
    ensures stays { Stays D.log D.id D.faults D.loans spool.old spool.new }
    ensures fault { IsErrOf result PairErr.DiskFault
        → Rose (D.faults spool.old.shelf) (D.faults spool.new.shelf) }
{
    let mut block = match spool.block_of(hold, i) {
        Ok(block) => block,
        Err(_) => return Err(PairErr::DiskFault),
    };
    let mut index = match spool.index_of(hold, i) {
        Ok(index) => index,
        Err(_) => {
            spool.close_file(block);
            return Err(PairErr::DiskFault);
        }
    };
    let checked = check(alloc, &mut block, &mut index);
    spool.close_file(index);
    spool.close_file(block);
    match checked {
        Ok(verdict) => Ok(verdict),
        Err(CheckErr::ReadFault) => Err(PairErr::DiskFault),
        Err(CheckErr::NoMemory) => Err(PairErr::NoMemory),
    }
}

// Why there is no line if the table of the index fails so: a compressed block is damage, at its
// type byte.
fn table_failed(error: TableErr) -> PairErr
    ensures says { FailsByTable error result }
{
    match error {
        TableErr::ReadFault => PairErr::DiskFault,
        TableErr::Damaged(damage) => PairErr::Damaged(damage),
        TableErr::Compressed { place } => PairErr::Damaged(Damage {
            place,
            found: u64::from(SNAPPY),
            want: u64::from(PLAIN),
        }),
        TableErr::NoMemory => PairErr::NoMemory,
    }
}

// What the summary row of an index says.
fn summary_in<R: Reader>(alloc: Global, index: &mut R) -> Result<Summary, PairErr>
    ensures says { (block bytes : List ℕ) → R.content index.old ≡ Some bytes
        → TellsSummary block bytes result }
    ensures cause { HasCauseOf PairErr.DiskFault (R.faults index.old) (R.faults index.new) result }
    ensures same { IsSameFile (R.content index.old) (R.content index.new) (R.extent index.old)
        (R.extent index.new) (R.beside index.old) (R.beside index.new) }
{
    let mut table = Table::over(alloc, index);
    match table.enter(alloc) {
        Ok(()) => {}
        Err(error) => return Err(table_failed(error)),
    }
    match summary(alloc, &mut table) {
        Ok(said) => Ok(said),
        Err(EvalErr::ReadFault) => Err(PairErr::DiskFault),
        Err(EvalErr::Damaged(damage)) => Err(PairErr::Damaged(damage)),
        Err(EvalErr::NoMemory) => Err(PairErr::NoMemory),
    }
}

// What the summary row says of the `i`-th pair of the hold, counted from 0.
fn summary_at<D: Shelf>(
    alloc: Global,
    spool: &mut Spool<D, Indexed>,
    hold: &Hold,
    i: usize,
) -> Result<Summary, PairErr>
    requires held { Contains spool.old.state.holds hold.now }
    requires within { i < size_of hold.now }
    // what comes
    ensures says { (log : Log) (earlier h : List Event) (f : Files) (e : Entry)
        (after : List Entry) → D.log spool.old.shelf ≡ Some log
        → StandsFor IsWholePair (D.log spool.old.shelf) spool.old.state earlier h f
        → drop i (held hold.now h) ≡ e ∷ after
        → TellsSummary e.block e.index result }
    // what stays
    ensures stays { Stays D.log D.id D.faults D.loans spool.old spool.new }
    ensures fault { IsErrOf result PairErr.DiskFault
        → Rose (D.faults spool.old.shelf) (D.faults spool.new.shelf) }
{
    let mut index = match spool.index_of(hold, i) {
        Ok(index) => index,
        Err(_) => return Err(PairErr::DiskFault),
    };
    let said = summary_in(alloc, &mut index);
    spool.close_file(index);
    said
}

// A line of this text and outcome, or `NoMemory` if there was no memory for the text.
fn line(text: Result<String, AllocError>, outcome: Outcome) -> Result<Line, PairErr>
    ensures { MakesLine text outcome result }
{
    match text {
        Ok(text) => Ok(Line { text, outcome }),
        Err(_) => Err(PairErr::NoMemory),
    }
}

// The line of the pair with this stamp and this verdict.
fn line_of_verdict(alloc: Global, stamp: u64, verdict: Verdict) -> Result<Line, PairErr>
    ensures tells { TellsVerdict stamp verdict (line_result result) }
    ensures outcome { IfOk result (λ l. IsSaid l.outcome) }
{
    let outcome = match verdict {
        Verdict::Whole { .. } => Outcome::Done,
        Verdict::Differs { part: _, damage } => Outcome::Damaged { stamp, damage },
    };
    line(verdict_text(alloc, stamp, verdict), outcome)
}

/// The line of the `i`-th pair of the hold, by stamp, counted from 0.
///
/// `DiskFault` comes only if the shelf's count of faults rose, `Damaged` only if the pair isn't
/// whole and its summary row was asked for.
pub fn line_at<D: Shelf>(
    report: Report,
    alloc: Global,
    spool: &mut Spool<D, Indexed>,
    hold: &Hold,
    i: usize,
) -> Result<Line, PairErr>
    requires held { Contains spool.old.state.holds hold.now }
    requires within { i < size_of hold.now }
    // what comes
    ensures tells { (log : Log) (earlier h : List Event) (f : Files) (e : Entry)
        (after : List Entry) → D.log spool.old.shelf ≡ Some log
        → StandsFor IsWholePair (D.log spool.old.shelf) spool.old.state earlier h f
        → drop i (held hold.now h) ≡ e ∷ after
        → TellsPair report e (line_result result) }
    ensures outcome { IfOk result (λ l. IsSaid l.outcome) }
    // what stays
    ensures stays { Stays D.log D.id D.faults D.loans spool.old spool.new }
    ensures fault { IsErrOf result PairErr.DiskFault
        → Rose (D.faults spool.old.shelf) (D.faults spool.new.shelf) }
{
    let stamp = spool.stamp_of(hold, i);
    match report {
        Report::Summaries => match summary_at(alloc, spool, hold, i) {
            Ok(said) => line(summary_text(alloc, stamp, said), Outcome::Done),
            Err(error) => Err(error),
        },
        Report::Verdicts => match verdict_at(alloc, spool, hold, i) {
            Ok(verdict) => line_of_verdict(alloc, stamp, verdict),
            Err(error) => Err(error),
        },
    }
}
