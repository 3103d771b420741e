//! Drives both stores and a plain sorted `Vec` through the same puts and takes, and compares every answer and content.
//! With the argument `time` it tells the time of a put and of a take instead.
#![tactic(auto)]

mod plain;
mod rounds;
mod steps;
mod times;

use faults::Fault;
use rounds::{mixed_round, scripted_round};
use std::{env, io};
use steps::Tally;
use store::records_needed;
use times::print_times;

/// Prints whether a store of some limit can be made in some records.
fn print_needed(rt: &HostRuntime, limit: usize, records: usize) -> io::Result<()> {
    match records_needed(limit, records) {
        Ok(needed) => println!(rt; "limit {limit} with {records} records: takes {needed}"),
        Err(fault) => println!(rt; "limit {limit} with {records} records: {fault}"),
    }
}

/// Prints what a round came to.
fn print_round(
    rt: &HostRuntime,
    name: &str,
    limit: u16,
    round: Result<Tally, Fault>,
) -> io::Result<()> {
    match round {
        Err(fault) => println!(rt; "{name}, limit {limit}: {fault}"),
        Ok(tally) => {
            let Tally { steps, apart, .. } = tally;
            println!(rt; "{name}, limit {limit}: {steps} steps, {apart} apart")
        }
    }
}

/// Prints how often each answer came in a round.
fn print_answers(rt: &HostRuntime, round: Result<Tally, Fault>) -> io::Result<()> {
    match round {
        Err(fault) => println!(rt; "  {fault}"),
        Ok(tally) => {
            let Tally {
                put,
                out,
                there,
                full,
                absent,
                ..
            } = tally;
            println!(rt; "  put {put}, out {out}, there {there}, full {full}, absent {absent}")
        }
    }
}

/// The comparison: how stores are made, scripted rounds whose answers can be counted beforehand, and one that is mixed.
fn compare(rt: &HostRuntime) -> io::Result<()> {
    print_needed(rt, 0, 512)?;
    print_needed(rt, 65, 512)?;
    print_needed(rt, 64, 511)?;
    print_needed(rt, 64, 512)?;
    for limit in [1, 2, 5, 64] {
        let round = scripted_round(rt.alloc(), limit);
        print_round(rt, "scripted", limit, round)?;
        print_answers(rt, round)?;
    }
    print_round(rt, "mixed", 5, mixed_round(rt.alloc(), 5, 4000))
}

fn main(rt: HostRuntime) -> io::Result<()> {
    let timed = env::args(&rt)?.any(|arg| arg.as_str() == "time");
    if timed {
        print_times(&rt)
    } else {
        compare(&rt)
    }
}
