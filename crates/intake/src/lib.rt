// Input for the programs: a buffer filled from a reader that may give a few bytes at a time.
#![tactic(auto)]

ghost use Rattle.std.specs.Io.{ReadsAtMost};

use std::io;
use std::io::Read;

// Reads until the buffer is full or the input ends; how many bytes it put at the buffer's start. std's `read_exact` doesn't say how many, and
// reads again where a signal broke a read off, which is an error here.
pub fn read_full(from: &mut impl Read, buffer: &mut [u8]) -> io::Result<usize>
    ensures { ReadsAtMost result buffer.new }
{
    let mut done = 0;
    while done < buffer.len() {
        match from.read(&mut buffer[done..])? {
            0 => break,
            n => done += n,
        }
    }
    Ok(done)
}
