// The dump, and the calls that change no buffer of the store: find, list and the range reader.
ghost use Rattle.std.specs.Prelude.{◌*◌, ◌≤◌, length};

use crate::input::Stop;
use crate::state::Bench;
use std::io::{Read, Write};
use tree::walk::Place;

impl<R: Read, W: Write> Bench<R, W> {
    // Writes the buffers at their lent lengths, and the numbers.
    pub fn dump(&mut self) -> Result<(), Stop> {
        self.output.write_all(self.work.lent())?;
        self.output.write_all(self.store.lent())?;
        self.output.write_all(self.log.lent())?;
        self.write_numbers()
    }

    // Reads the key.
    pub fn find(&mut self) -> Result<(), Stop> {
        let key = self.input.number()?;
        let a = handed::find(self.numbers, self.work.lent(), self.log.lent(), key);
        self.found(a)
    }

    // Reads the bounds and how many bytes of room there are.
    pub fn list(&mut self) -> Result<(), Stop> {
        let low = self.input.number()?;
        let high = self.input.number()?;
        let length = self.input.number()?;
        self.room.lend(length)?;
        paint(self.room.lent_mut());
        let a = handed::list(
            self.numbers,
            self.work.lent(),
            self.log.lent(),
            low,
            high,
            self.room.lent_mut(),
        );
        self.listed(a)
    }

    // Reads the first key and how many bytes of room there are, starts the range reader and walks it into the room.
    pub fn walk(&mut self) -> Result<(), Stop> {
        let key = self.input.number()?;
        let length = self.input.number()?;
        self.room.lend(length)?;
        paint(self.room.lent_mut());
        let work = self.work.lent();
        let start = range::start_from(work, key);
        let count = take(work, start.at, self.room.lent_mut());
        self.walked(start.reply, count)
    }
}

// Takes records from this position on while they fit whole; how many.
fn take(work: &[u8], from: Place, room: &mut [u8]) -> u32
    requires { length room.old ≤ 16384 }
    ensures { 16 * result ≤ length room.old }
{
    let (records, _) = room.as_chunks_mut::<16>();
    let mut at = from;
    let mut count = 0;
    for record in records {
        let s = range::next_from(work, at);
        if !s.found {
            break;
        }
        record[..2].copy_from_slice(b"rc");
        record[2..6].copy_from_slice(&s.key.to_le_bytes());
        record[6..].copy_from_slice(&s.value);
        at = s.next;
        count += 1;
    }
    count
}

// Sets every byte of the room to 170, so that it shows which bytes a call leaves alone. It goes by runs of at most 1,024 bytes: a longer one
// the C library sets by one instruction that counts once a byte, which would hide list's own.
fn paint(room: &mut [u8]) {
    for run in room.chunks_mut(1024) {
        run.fill(170);
    }
}
