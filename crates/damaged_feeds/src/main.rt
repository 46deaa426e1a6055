//! Reads a set of small feeds, whole and damaged, and prints how far each of them reads.
//!
//! The set comes by standard input: for each feed its length in four bytes, the lowest first, and then
//! its bytes. A line is printed for each: how many records are whole, and then `end`, or the number and
//! the offset of the refusal.
#![tactic(auto)]

ghost use Rattle.damaged_feeds.specs.Cases.{Splits};

use feed::{Survey, survey_feed};
use std::io;
use std::io::Read;

/// The first feed of the set and what follows it, if the set has a whole one.
fn split_case<'a>(set: &'a [u8]) -> Option<(&'a [u8], &'a [u8])>
    ensures { Splits set.now result }
{
    let [l0, l1, l2, l3, rest @ ..] = set else {
        return None;
    };
    let length = u32::from_le_bytes([*l0, *l1, *l2, *l3]) as usize;
    if rest.len() < length {
        return None;
    }
    Some(rest.split_at(length))
}

/// Prints the line of one feed.
fn print_line(rt: &HostRuntime, found: Survey) -> io::Result<()> {
    let records = found.records;
    match found.refusal {
        None => println!(rt; "{records} end"),
        Some(fault) => {
            let told = fault.told();
            let number = told.number;
            let offset = told.value.unwrap_or(0);
            println!(rt; "{records} {number} {offset}")
        }
    }
}

fn main(rt: HostRuntime) -> io::Result<()> {
    let mut set = Vec::new(rt.alloc());
    let _count = rt.stdin().read_to_end(&mut set)?;
    let mut rest = set.as_slice();
    while let Some((case, later)) = split_case(rest) {
        print_line(&rt, survey_feed(case))?;
        rest = later;
    }
    if !rest.is_empty() {
        println!(rt; "the set ends inside a feed")?;
    }
    Ok(())
}
