// Build, with the records that stand in the script.
use crate::input::Stop;
use crate::state::Bench;
use std::io::{Read, Write};

impl<R: Read, W: Write> Bench<R, W> {
    // Reads the fills, how many bytes of records there are, and these.
    pub fn build(&mut self) -> Result<(), Stop> {
        let f = self.input.number()?;
        let g = self.input.number()?;
        let length = self.input.number()?;
        self.room.lend(length)?;
        self.input.fill(self.room.lent_mut())?;
        let a = handed::build(
            self.numbers,
            self.work.lent_mut(),
            self.store.lent_mut(),
            self.log.lent_mut(),
            self.room.lent(),
            f,
            g,
        );
        self.reply(a)
    }
}
