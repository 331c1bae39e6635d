//! Command lines with their plans and the places of their folders.

use crate::{Plan, plan_of, spool_word};
use st_pcap::Unit;
use std::alloc::{AllocError, Global};
use std::process::Abort;
use std::test::Fail;

// The arguments of a line, parted by spaces; `_` is an empty one.
fn words_of(alloc: Global, line: &str) -> Result<Vec<String>, AllocError> {
    let mut words = Vec::new(alloc);
    for part in line.split(' ') {
        let text = if part == "_" { "" } else { part };
        words.push(String::from_str(alloc, text)?)?;
    }
    Ok(words)
}

// A plan as a text: its command, folder and query, and what its options say.
fn text_of(alloc: Global, plan: &Plan<'_>) -> Result<String, AllocError> {
    match plan {
        Plan::Once(job) => {
            let query = job.query;
            let unit = unit_text(job.unit);
            let packets = job.limits.packets;
            let bytes = job.limits.bytes;
            format!(in alloc; "once {query}, {unit} {packets} {bytes}")
        }
        Plan::Load(load) => {
            let folder = load.folder;
            let size = load.plan.size;
            let blocks = load.plan.blocks;
            let limit = load.limit;
            format!(in alloc; "load {folder}, {size} {blocks} {limit}")
        }
        Plan::Query(over) => {
            let folder = over.folder;
            let query = over.job.query;
            let unit = unit_text(over.job.unit);
            let packets = over.job.limits.packets;
            let bytes = over.job.limits.bytes;
            format!(in alloc; "query {folder} {query}, {unit} {packets} {bytes}")
        }
        Plan::List(spool) => {
            let folder = spool.folder;
            format!(in alloc; "list {folder}")
        }
        Plan::Check(spool) => {
            let folder = spool.folder;
            format!(in alloc; "check {folder}")
        }
        Plan::Drill(drill) => {
            let folder = drill.folder;
            let packets = drill.packets;
            format!(in alloc; "drill {folder} {packets}")
        }
    }
}

fn unit_text(unit: Unit) -> &'static str {
    match unit {
        Unit::Micro => "micro",
        Unit::Nano => "nano",
    }
}

// The plan of a line has this text, and its folder stands at this place.
fn has_plan(
    rt: &(impl Abort + AllocGlobal),
    line: &str,
    text: &str,
    place: Option<usize>,
) -> Result<(), Fail> {
    let alloc = rt.alloc();
    let words = words_of(alloc, line)?;
    let Ok(Some(plan)) = plan_of(alloc, words.as_slice()) else {
        return Err("this line has a plan")?;
    };
    let found = text_of(alloc, &plan)?;
    assert_eq!(rt; found.as_str(), text, "{line}");
    let Ok(found) = spool_word(alloc, words.as_slice()) else {
        return Err("out of memory")?;
    };
    assert_eq!(rt; found, place, "{line}");
    Ok(())
}

// A line has no plan, and no folder.
fn has_none(rt: &(impl Abort + AllocGlobal), line: &str) -> Result<(), Fail> {
    let alloc = rt.alloc();
    let words = words_of(alloc, line)?;
    let (Ok(plan), Ok(place)) = (
        plan_of(alloc, words.as_slice()),
        spool_word(alloc, words.as_slice()),
    ) else {
        return Err("out of memory")?;
    };
    assert!(rt; plan.is_none(), "{line}");
    assert_eq!(rt; place, None, "{line}");
    Ok(())
}

#[test]
fn each_command_is_read_with_its_options(rt: HostRuntime) -> Result<(), Fail> {
    let rt = &rt;
    has_plan(
        rt,
        "--bytes=100 once --ns port53 --packets 0002",
        "once port53, nano 2 100",
        None,
    )?;
    has_plan(rt, "load F", "load F, 1048576 64 4096", Some(1))?;
    has_plan(rt, "--block=8192 load F", "load F, 8192 64 4096", Some(2))?;
    has_plan(
        rt,
        "load --blocks 4095 F --block 4096",
        "load F, 4096 4095 4096",
        Some(3),
    )?;
    has_plan(
        rt,
        "query F _",
        "query F , micro 18446744073709551615 18446744073709551615",
        Some(1),
    )?;
    has_plan(
        rt,
        "query --packets 1 --ns -- F --bytes=4294967295",
        "query F --bytes=4294967295, nano 1 18446744073709551615",
        Some(5),
    )?;
    has_plan(
        rt,
        "query F q --bytes 7 --packets=0",
        "query F q, micro 0 7",
        Some(1),
    )?;
    has_plan(
        rt,
        "load --limit 65535 F --blocks=1",
        "load F, 1048576 1 65535",
        Some(3),
    )?;
    has_plan(rt, "load F --limit=1", "load F, 1048576 64 1", Some(1))?;
    has_plan(rt, "drill F 0001000000", "drill F 1000000", Some(1))?;
    has_plan(rt, "drill -- 1 1", "drill 1 1", Some(2))?;
    has_plan(rt, "list -", "list -", Some(1))?;
    has_plan(rt, "-- check --ns", "check --ns", Some(2))
}

#[test]
fn the_place_is_that_of_the_folder_and_not_of_an_equal_value(rt: HostRuntime) -> Result<(), Fail> {
    let rt = &rt;
    has_plan(
        rt,
        "load --blocks 64 64",
        "load 64, 1048576 64 4096",
        Some(3),
    )?;
    has_plan(
        rt,
        "query --ns -- --ns q",
        "query --ns q, nano 18446744073709551615 18446744073709551615",
        Some(3),
    )?;
    has_plan(rt, "list list", "list list", Some(1))
}

#[test]
fn a_line_of_no_command_has_no_plan(rt: HostRuntime) -> Result<(), Fail> {
    let rt = &rt;
    has_none(rt, "_")?;
    has_none(rt, "drill F")?;
    has_none(rt, "drill _ 5")?;
    has_none(rt, "drill F 5 6")?;
    has_none(rt, "serve F")?;
    has_none(rt, "load")?;
    has_none(rt, "load F G")?;
    has_none(rt, "load _")?;
    has_none(rt, "query F")?;
    has_none(rt, "query _ q")?;
    has_none(rt, "query F q r")?;
    has_none(rt, "list")?;
    has_none(rt, "list F G")?;
    has_none(rt, "check _")?;
    has_none(rt, "once")
}

#[test]
fn an_option_of_another_command_has_no_plan(rt: HostRuntime) -> Result<(), Fail> {
    let rt = &rt;
    has_none(rt, "load F --ns")?;
    has_none(rt, "load F --packets 1")?;
    has_none(rt, "query F q --limit 5")?;
    has_none(rt, "drill F 5 --limit 5")?;
    has_none(rt, "drill F 5 --ns")?;
    has_none(rt, "query F q --block 4096")?;
    has_none(rt, "once q --blocks 64")?;
    has_none(rt, "list F --bytes 1")?;
    has_none(rt, "check F --blocks=64")
}

#[test]
fn a_value_out_of_range_has_no_plan(rt: HostRuntime) -> Result<(), Fail> {
    let rt = &rt;
    has_none(rt, "load F --block 5000")?;
    has_none(rt, "load F --block 2048")?;
    has_none(rt, "load F --block 2097152")?;
    has_none(rt, "load F --blocks 0")?;
    has_none(rt, "load F --blocks 4096")?;
    has_none(rt, "load F --limit 0")?;
    has_none(rt, "load F --limit 65536")?;
    has_none(rt, "drill F 0")?;
    has_none(rt, "drill F 1000001")?;
    has_none(rt, "drill F +5")?;
    has_none(rt, "load F --block 4096 --block 4096")?;
    has_none(rt, "load F --block")?;
    has_none(rt, "load F --block=")?;
    has_none(rt, "query F q --packets 4294967296")?;
    has_none(rt, "query F q --ns=")
}
