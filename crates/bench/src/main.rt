// The service bench: reads a script of calls from standard input, makes them on one set of buffers and writes what each left, so that
// every call can be driven from outside. The buffers start as zeros, and so do the numbers. Numbers of a script are little-endian.
//
//   w s g   work pages 16,384; store pages 16,384; log 8,192: sets the buffer
//   n       used 4, forced 4: sets the numbers
//   z       work 4, store 4, log 4: the lengths lent from now on, each at most one above the right one
//   B       leaf fill 4, base fill 4, length 4 (at most 16,384), so many bytes of records: build
//   R       recover
//   C       fill 4: begin compact
//   O S F   begin order, step, force
//   U       length 4 (at most 64), so many bytes of a record: begin put
//   X       key 4: begin delete
//   P       page 4: flush
//   K       clear 1 (0 or 1): checkpoint
//   G       key 4: find
//   L       low 4, high 4, room 4 (at most 16,384): list into so many bytes, each 170 before
//   W       key 4, room 4 (at most 16,384): the range reader from that key on into so many bytes, each 170 before: records while they fit
//   D       dump
//
// A call writes its reply, 1 byte; find then the value, 10; list the count, 4, whether more remain, 1, and the room; recover the count, 4; the
// range reader the count, 4, and the room. A dump is work, store and log at their lent lengths, used 4 and forced 4. The end of input between
// commands ends the program. A command that is unknown, cut short or out of these limits writes one byte 255 and ends it.
#![tactic(auto)]

mod buffer;
mod build;
mod change;
mod input;
mod output;
mod reading;
mod save;
mod setting;
mod state;

use state::Bench;
use std::io;

fn main(rt: HostRuntime) -> io::Result<()> {
    Bench::new(rt.stdin(), rt.stdout()).run()
}
