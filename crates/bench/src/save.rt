// Begin put, with the record that stands in the script, and begin delete.
use crate::input::Stop;
use crate::state::Bench;
use std::io::{Read, Write};

// The most bytes of a put's record.
const RECORD: u32 = 64;

impl<R: Read, W: Write> Bench<R, W> {
    // Reads how many bytes the record has, and these.
    pub fn begin_put(&mut self) -> Result<(), Stop> {
        let length = self.input.number()?;
        if length > RECORD {
            return Err(Stop::Script);
        }
        self.room.lend(length)?;
        self.input.fill(self.room.lent_mut())?;
        let a = handed::begin_put(
            self.numbers,
            self.work.lent(),
            self.log.lent_mut(),
            self.room.lent(),
        );
        self.reply(a)
    }

    // Reads the key.
    pub fn begin_delete(&mut self) -> Result<(), Stop> {
        let key = self.input.number()?;
        let a = handed::begin_delete(self.numbers, self.work.lent(), self.log.lent_mut(), key);
        self.reply(a)
    }
}
