// Lists a store and its log, read from standard input, the store first: recovers, then prints a line for each leaf in key order and the
// totals, or `refused` and the number of the reply. Input of another length than 24,576 bytes is refused as 1.
#![tactic(auto)]

mod text;
mod walk;

use intake::read_full;
use std::io;
use std::io::{Read, Write};
use store::Numbers;
use text::Totals;

// Recovers into work pages of its own and prints.
fn list(to: &mut impl Write, store: &[u8; 16384], log: &mut [u8; 8192]) -> io::Result<()> {
    let mut work = [0u8; 16384];
    let numbers = Numbers { used: 0, forced: 0 };
    let reply = recovering::recover(numbers, &mut work, store, log)
        .recovered
        .reply;
    if reply != 0 {
        return refuse(to, reply);
    }
    writeln!(to, "leaf page base count first last number")?;
    let records = walk::leaves(to, &work)?;
    writeln!(to, "{}", Totals(records))
}

// Prints that the input is refused, with this reply: a number that stood in the text would change how the line is cut into writes.
fn refuse(to: &mut impl Write, reply: u8) -> io::Result<()> {
    writeln!(to, "refused {reply}")
}

// Whether the input has just as many bytes as the two buffers, which are filled with them.
fn read(from: &mut impl Read, store: &mut [u8], log: &mut [u8]) -> io::Result<bool> {
    Ok(
        read_full(from, store)? == store.len()
            && read_full(from, log)? == log.len()
            && read_full(from, &mut [0u8; 1])? == 0,
    )
}

fn main(rt: HostRuntime) -> io::Result<()> {
    let mut store = [0u8; 16384];
    let mut log = [0u8; 8192];
    let mut to = rt.stdout();
    if read(&mut rt.stdin(), &mut store, &mut log)? {
        list(&mut to, &store, &mut log)
    } else {
        refuse(&mut to, 1)
    }
}
