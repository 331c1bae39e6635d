use super::*;
use st_folder::RealShelf;
use st_shelf::{Draft, Kind, MemShelf, Shelf};
use std::alloc::Global;
use std::fs;
use std::sync::Wait;
use std::test::Fail;
use std::thread::Threads;

// Three threads take turns over a shelf, and then two look at it: how many turns it had, how many
// drafts each made, and the counts of faults.
fn run<D: Shelf + Send + Drop, R: Threads + Wait + Sync>(
    rt: &R,
    alloc: Global,
    shelf: D,
) -> Option<(u64, [u64; 3], (u64, u64))>
where
    D::Draft: Send,
    D::File: Send,
    <D::Draft as Draft>::Sealed: Send,
{
    let mut jobs = [(Kind::Block, 5), (Kind::Index, 7), (Kind::Block, 9)].map(|(kind, turns)| Job {
        kind,
        turns,
        made: 0,
    });
    let home = serve(rt, alloc, Home { shelf, turns: 0 }, &mut jobs)?;
    let turns = home.turns;
    let desk = match Desk::over(alloc, home) {
        Ok(desk) => desk,
        Err(Home { shelf: _, turns: _ }) => return None,
    };
    let faults = look_twice(rt, &desk);
    let Home { shelf: _, turns: _ } = desk.into_home()?;
    Some((turns, jobs.map(|job| job.made), faults))
}

const FOLDER: &str = "shelf_threads_test";

// A shelf on which each call fails has two faults a turn, of the making and of the flush.
#[test]
fn threads_take_turns_over_both_shelves(rt: HostRuntime) -> Result<(), Fail> {
    let memory = MemShelf::with(rt.alloc(), &[], None)?;
    assert_eq!(rt; run(&rt, rt.alloc(), memory), Some((21, [5, 7, 9], (0, 0))));
    let broken = MemShelf::with(rt.alloc(), &[], Some(0))?;
    assert_eq!(rt;
        run(&rt, rt.alloc(), broken),
        Some((21, [0, 0, 0], (42, 42)))
    );
    let _ = fs::remove_dir_all(&rt, FOLDER);
    let real = RealShelf::at(&rt, rt.alloc(), FOLDER)?;
    assert_eq!(rt; run(&rt, rt.alloc(), real), Some((21, [5, 7, 9], (0, 0))));
    fs::remove_dir_all(&rt, FOLDER)?;
    Ok(())
}
