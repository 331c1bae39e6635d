//! The positions that a query selects.

ghost use Rattle.std.specs.Prelude.{◌≡◌, ◌&&◌, ℕ, List, IfOk, IfErr, OnOk, IsFalse};
ghost use Rattle.st_base.specs.Faults.{HasCauseOf};
ghost use Rattle.st_base.specs.PlacedReads.{IsSameFile};
ghost use Rattle.st_tblock.specs.Block.{RowView};
ghost use Rattle.st_block.specs.Scan.{PositionedRecord};
ghost use Rattle.st_query.specs.Trees.{tree, is_joined};
ghost use Rattle.st_rows.specs.Positions.{has, Rising};
ghost use Rattle.st_eval.specs.Refusals.{RefusesEval};
ghost use Rattle.st_eval.specs.Selection.{IsEntered, IsOver, IsIndexOf, Selects};
ghost use Rattle.st_eval.specs.Selecting.{selects};
ghost use Rattle.st_eval.specs.Lookups.{Appends, Finds, Gains, HasSoundValues};

use crate::errors::EvalErr;
use crate::lookups::append_between;
use crate::positions::{Positions, sorted};
use crate::ranges::range_of;
use st_base::Reader;
use st_query::{Node, Query};
use st_table::Table;
use std::alloc::{AllocError, Global};

/// Appends the positions that a primitive selects.
fn append_primitive<R: Reader>(
    alloc: Global,
    node: &Node,
    now: u64,
    table: &mut Table<'_, R>,
    all: &mut Vec<u32>,
) -> Result<(), EvalErr>
    requires { IsFalse (is_joined (tree node.now)) }
    // What is appended, and what is refused.
    ensures appends { (rows : List RowView)
        → IsOver (R.content table.old.file.now) table.old.kept.entries.items
        table.old.kept.checked.items rows
        → Appends (selects rows (tree node.now) now) (HasSoundValues rows)
        all.old.items all.new.items result }
    ensures refuses { (bytes : List ℕ) (index : List RowView)
        → IsEntered (R.content table.old.file.now) table.old.kept.entries.items
        table.old.kept.checked.items bytes index
        → IfErr result (RefusesEval bytes index) }

    // What becomes of the table.
    ensures entries { table.new.kept.entries ≡ table.old.kept.entries }
    ensures stays { (bytes : List ℕ) (index : List RowView)
        → IsEntered (R.content table.old.file.now) table.old.kept.entries.items
        table.old.kept.checked.items bytes index
        → IsEntered (R.content table.new.file.now) table.new.kept.entries.items
        table.new.kept.checked.items bytes index }

    // What becomes of the file.
    ensures same_reference { table.new.file.ghost_name ≡ table.old.file.ghost_name }
    ensures cause { HasCauseOf EvalErr.ReadFault (R.faults table.old.file.now)
        (R.faults table.new.file.now) result }
    ensures same { IsSameFile (R.content table.old.file.now) (R.content table.new.file.now)
        (R.extent table.old.file.now) (R.extent table.new.file.now) (R.beside table.old.file.now)
        (R.beside table.new.file.now) }
{
    match range_of(node, now) {
        Some((low, high)) => append_between(alloc, table, &low, &high, all),
        None => Ok(()),
    }
}

/// Appends those of the positions that `keep` has too.
fn append_common(mut found: Positions, keep: &Positions, all: &mut Vec<u32>) -> Result<(), EvalErr>
    ensures gains { OnOk result
        (Gains (λ p. has found p && has keep.now p) all.old.items all.new.items) }
    ensures memory { IfErr result (λ e. e ≡ EvalErr.NoMemory) }
{
    found.both(keep);
    match all.extend_from_slice(found.items()) {
        Ok(()) => Ok(()),
        Err(_) => Err(EvalErr::NoMemory),
    }
}

/// The positions that a query selects.
#[cycle(evaluation)]
fn find<R: Reader>(
    alloc: Global,
    node: &Node,
    now: u64,
    table: &mut Table<'_, R>,
) -> Result<Positions, EvalErr>
    // What is found, and what is refused.
    ensures finds { (rows : List RowView)
        → IsOver (R.content table.old.file.now) table.old.kept.entries.items
        table.old.kept.checked.items rows
        → Finds (selects rows (tree node.now) now) (HasSoundValues rows) result }
    ensures rising { IfOk result Rising }
    ensures refuses { (bytes : List ℕ) (index : List RowView)
        → IsEntered (R.content table.old.file.now) table.old.kept.entries.items
        table.old.kept.checked.items bytes index
        → IfErr result (RefusesEval bytes index) }

    // What becomes of the table.
    ensures entries { table.new.kept.entries ≡ table.old.kept.entries }
    ensures stays { (bytes : List ℕ) (index : List RowView)
        → IsEntered (R.content table.old.file.now) table.old.kept.entries.items
        table.old.kept.checked.items bytes index
        → IsEntered (R.content table.new.file.now) table.new.kept.entries.items
        table.new.kept.checked.items bytes index }

    // What becomes of the file.
    ensures same_reference { table.new.file.ghost_name ≡ table.old.file.ghost_name }
    ensures cause { HasCauseOf EvalErr.ReadFault (R.faults table.old.file.now)
        (R.faults table.new.file.now) result }
    ensures same { IsSameFile (R.content table.old.file.now) (R.content table.new.file.now)
        (R.extent table.old.file.now) (R.extent table.new.file.now) (R.beside table.old.file.now)
        (R.beside table.new.file.now) }
{
    let mut all = Vec::new(alloc);
    match gather(alloc, node, now, table, &mut all) {
        Ok(()) => Ok(sorted(all)),
        Err(error) => Err(error),
    }
}

/// Appends the positions that a query selects.
///
/// The alternatives of a chain joined by `or` are appended one after the other, the last one first,
/// so that they are sorted once. A chain is gone along by a loop, so that calls go deeper only with
/// the parentheses.
#[cycle(evaluation)]
fn gather<R: Reader>(
    alloc: Global,
    node: &Node,
    now: u64,
    table: &mut Table<'_, R>,
    all: &mut Vec<u32>,
) -> Result<(), EvalErr>
    // What is appended, and what is refused.
    ensures appends { (rows : List RowView)
        → IsOver (R.content table.old.file.now) table.old.kept.entries.items
        table.old.kept.checked.items rows
        → Appends (selects rows (tree node.now) now) (HasSoundValues rows)
        all.old.items all.new.items result }
    ensures refuses { (bytes : List ℕ) (index : List RowView)
        → IsEntered (R.content table.old.file.now) table.old.kept.entries.items
        table.old.kept.checked.items bytes index
        → IfErr result (RefusesEval bytes index) }

    // What becomes of the table.
    ensures entries { table.new.kept.entries ≡ table.old.kept.entries }
    ensures stays { (bytes : List ℕ) (index : List RowView)
        → IsEntered (R.content table.old.file.now) table.old.kept.entries.items
        table.old.kept.checked.items bytes index
        → IsEntered (R.content table.new.file.now) table.new.kept.entries.items
        table.new.kept.checked.items bytes index }

    // What becomes of the file.
    ensures same_reference { table.new.file.ghost_name ≡ table.old.file.ghost_name }
    ensures cause { HasCauseOf EvalErr.ReadFault (R.faults table.old.file.now)
        (R.faults table.new.file.now) result }
    ensures same { IsSameFile (R.content table.old.file.now) (R.content table.new.file.now)
        (R.extent table.old.file.now) (R.extent table.new.file.now) (R.beside table.old.file.now)
        (R.beside table.new.file.now) }
{
    let mut rest = node;
    'parts: loop {
        match rest {
            Node::Or { left, right } => {
                match gather(alloc, right.get(), now, table, all) {
                    Ok(()) => {}
                    Err(error) => return Err(error),
                }
                rest = left.get();
            }
            Node::And { left, right } => {
                let keep = match find(alloc, right.get(), now, table) {
                    Ok(keep) => keep,
                    Err(error) => return Err(error),
                };
                return gather_common(alloc, left.get(), keep, now, table, all);
            }
            primitive => return append_primitive(alloc, primitive, now, table, all),
        }
    }
}

/// Appends those of the positions that a query selects which `keep` has too.
///
/// Where `keep` has none left, what is left of the query isn't looked up.
#[cycle(evaluation)]
fn gather_common<R: Reader>(
    alloc: Global,
    node: &Node,
    keep: Positions,
    now: u64,
    table: &mut Table<'_, R>,
    all: &mut Vec<u32>,
) -> Result<(), EvalErr>
    // What is appended, and what is refused.
    ensures appends { (rows : List RowView)
        → IsOver (R.content table.old.file.now) table.old.kept.entries.items
        table.old.kept.checked.items rows
        → Appends (λ p. has keep p && selects rows (tree node.now) now p) (HasSoundValues rows)
        all.old.items all.new.items result }
    ensures refuses { (bytes : List ℕ) (index : List RowView)
        → IsEntered (R.content table.old.file.now) table.old.kept.entries.items
        table.old.kept.checked.items bytes index
        → IfErr result (RefusesEval bytes index) }

    // What becomes of the table.
    ensures entries { table.new.kept.entries ≡ table.old.kept.entries }
    ensures stays { (bytes : List ℕ) (index : List RowView)
        → IsEntered (R.content table.old.file.now) table.old.kept.entries.items
        table.old.kept.checked.items bytes index
        → IsEntered (R.content table.new.file.now) table.new.kept.entries.items
        table.new.kept.checked.items bytes index }

    // What becomes of the file.
    ensures same_reference { table.new.file.ghost_name ≡ table.old.file.ghost_name }
    ensures cause { HasCauseOf EvalErr.ReadFault (R.faults table.old.file.now)
        (R.faults table.new.file.now) result }
    ensures same { IsSameFile (R.content table.old.file.now) (R.content table.new.file.now)
        (R.extent table.old.file.now) (R.extent table.new.file.now) (R.beside table.old.file.now)
        (R.beside table.new.file.now) }
{
    let mut keep = keep;
    let mut rest = node;
    'parts: loop {
        if keep.items().is_empty() {
            return Ok(());
        }
        match rest {
            Node::Or { left, right } => {
                match find(alloc, right.get(), now, table) {
                    Ok(found) => match append_common(found, &keep, all) {
                        Ok(()) => {}
                        Err(error) => return Err(error),
                    },
                    Err(error) => return Err(error),
                }
                rest = left.get();
            }
            Node::And { left, right } => {
                match find(alloc, right.get(), now, table) {
                    Ok(found) => keep.both(&found),
                    Err(error) => return Err(error),
                }
                rest = left.get();
            }
            primitive => {
                let mut found = Vec::new(alloc);
                match append_primitive(alloc, primitive, now, table, &mut found) {
                    Ok(()) => return append_common(sorted(found), &keep, all),
                    Err(error) => return Err(error),
                }
            }
        }
    }
}

/// The positions of the packets that match the query, by the index of their pair, which was
/// entered; the clock stands at `now` microseconds since 1970.
///
/// `Damaged` comes if a check of a data block that is read fails, as `Table::get` and `Table::step`
/// have it, a compressed block by its type byte; or if the length of a row's value is no multiple
/// of 4, or its positions don't rise, and then with place 0; that row is never the summary row.
/// `Damaged` never comes over the index of packets. `ReadFault` comes only if the file failed in
/// this call. The table's entries stay. Source: docs/FORMAT.md, "Index rows".
pub fn eval<R: Reader>(
    alloc: Global,
    query: &Query,
    now: u64,
    table: &mut Table<'_, R>,
) -> Result<Positions, EvalErr>
    // What is answered, and what is refused.
    ensures selects { (rows : List RowView) (given : List PositionedRecord)
        → IsOver (R.content table.old.file.now) table.old.kept.entries.items
        table.old.kept.checked.items rows
        → IsIndexOf given rows → Selects query.now now given result }
    ensures refuses { (bytes : List ℕ) (index : List RowView)
        → IsEntered (R.content table.old.file.now) table.old.kept.entries.items
        table.old.kept.checked.items bytes index
        → IfErr result (RefusesEval bytes index) }

    // What becomes of the table.
    ensures entries { table.new.kept.entries ≡ table.old.kept.entries }
    ensures stays { (bytes : List ℕ) (index : List RowView)
        → IsEntered (R.content table.old.file.now) table.old.kept.entries.items
        table.old.kept.checked.items bytes index
        → IsEntered (R.content table.new.file.now) table.new.kept.entries.items
        table.new.kept.checked.items bytes index }

    // What becomes of the file.
    ensures same_reference { table.new.file.ghost_name ≡ table.old.file.ghost_name }
    ensures cause { HasCauseOf EvalErr.ReadFault (R.faults table.old.file.now)
        (R.faults table.new.file.now) result }
    ensures same { IsSameFile (R.content table.old.file.now) (R.content table.new.file.now)
        (R.extent table.old.file.now) (R.extent table.new.file.now) (R.beside table.old.file.now)
        (R.beside table.new.file.now) }
{
    find(alloc, query.node(), now, table)
}
