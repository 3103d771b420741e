//! The time of a put and a take at 64 rows.
use super::plain::Plain;
use super::rounds::{BLANK, BLANK_CELL, RECORDS};
use super::steps::Tables;
use chained_store::ChainedStore;
use side_store::SideStore;
use std::io;
use std::time::Instant;
use store::{MOST_ROWS, WIDTH};

/// How often a row is put and taken out.
const TURNS: u32 = 100_000;

/// A table's even keys, one row fewer than it takes.
const ROWS: u8 = 63;

/// An odd key among the others, another one at each turn.
fn odd_key(turn: u32) -> i32 {
    (turn % 64) as i32 * 2 - 1
}

/// Fills table 1 up to one row.
fn fill<T: Tables>(tables: &mut T) {
    for i in 0..ROWS {
        let key = 2 * i32::from(i);
        let _ = tables.put(1, key, [key; WIDTH]);
    }
}

/// Puts a row and takes it out, turn by turn.
fn turn_round<T: Tables>(tables: &mut T) {
    for turn in 0..TURNS {
        let key = odd_key(turn);
        let _ = tables.put(1, key, [key; WIDTH]);
        let _ = tables.take(1, key);
    }
}

/// Prints the time of one turn.
fn print_time<T: Tables>(rt: &HostRuntime, name: &str, tables: &mut T) -> io::Result<()> {
    fill(tables);
    let start = Instant::now(rt)?;
    turn_round(tables);
    let nanos = start.elapsed(rt)?.as_nanos() / u128::from(TURNS);
    println!(rt; "{name}: {nanos} ns for a put and a take at 64 rows")
}

/// Prints the time of both stores beside the sorted `Vec`.
pub fn print_times(rt: &HostRuntime) -> io::Result<()> {
    let mut cells = [BLANK_CELL; RECORDS];
    let mut slots = [BLANK; RECORDS];
    let mut chained = ChainedStore::new(&mut cells, MOST_ROWS);
    print_time(rt, "chained records", &mut chained)?;
    let mut side = SideStore::new(&mut slots, MOST_ROWS);
    print_time(rt, "rows side by side", &mut side)?;
    let mut plain = Plain::new(rt.alloc(), MOST_ROWS);
    print_time(rt, "sorted Vec", &mut plain)
}
