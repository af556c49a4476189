// The commands that set the numbers or the lent lengths, and write nothing.
use crate::input::Stop;
use crate::state::Bench;
use std::io::{Read, Write};
use store::Numbers;

impl<R: Read, W: Write> Bench<R, W> {
    // Sets the numbers.
    pub fn set_numbers(&mut self) -> Result<(), Stop> {
        self.numbers = Numbers {
            used: self.input.number()?,
            forced: self.input.number()?,
        };
        Ok(())
    }

    // Sets the lengths that the buffers are lent with.
    pub fn set_lengths(&mut self) -> Result<(), Stop> {
        let work = self.input.number()?;
        let store = self.input.number()?;
        let log = self.input.number()?;
        self.work.lend(work)?;
        self.store.lend(store)?;
        self.log.lend(log)
    }
}
