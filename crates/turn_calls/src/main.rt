//! Callers of a shared spool, over the shelf in memory: between them they make each call of it, and
//! the program prints what was answered and which files are left.
//!
//! One caller makes each call but `meet`. Then two callers share another spool: the first publishes
//! a pair, they meet, and the second holds the file set and reads the oldest stamp in it.
//!
//! # What it promises
//!
//! - The conditions of each call hold, and each spool comes back with no hold out
//!   (`caller::each_call`, `caller::one_caller`, `meeting::two_callers`).
//! - Once the first of two callers has published and they have met, both have seen the same history
//!   (`meeting::publish_and_meet`).
//!
//! # What it leaves to others
//!
//! That it prints what it should is only tried: a publication's stamp is one more than the last,
//! from 1 on; the limit is one pair, so the first ageing removes the pair of stamp 1, whose files
//! stay readable while they are held, and the second finds nothing to remove; the release removes
//! these files, and a draft that was given up is gone too. The second of two callers reads the
//! stamp of the pair that the first one published.
#![tactic(auto)]

mod caller;
mod meeting;

use caller::{one_caller, two_names};
use meeting::two_callers;
use st_shelf::MemShelf;
use std::io;

fn main(rt: HostRuntime) -> io::Result<()> {
    let Some((seen, shelf)) = one_caller(&rt, rt.alloc(), MemShelf::empty(rt.alloc())) else {
        return println!(rt; "not run");
    };
    println!(rt; "stamps {:?}", seen.stamps)?;
    println!(rt; "aged {:?}", seen.aged)?;
    println!(rt; "held {}: {:?}", seen.count, seen.pairs)?;
    println!(rt; "left {:?}", two_names(rt.alloc(), shelf))?;
    let Some(told) = two_callers(&rt, rt.alloc(), MemShelf::empty(rt.alloc())) else {
        return println!(rt; "not run");
    };
    println!(rt; "published {:?}, then met", told.stamp)?;
    println!(rt; "held {}, the oldest {:?}", told.count, told.oldest)
}
