// The calls that recover, tidy and keep a store: recover, begin compact, begin order, step, flush, force and checkpoint.
use crate::input::Stop;
use crate::state::Bench;
use std::io::{Read, Write};

impl<R: Read, W: Write> Bench<R, W> {
    // Recover.
    pub fn recover(&mut self) -> Result<(), Stop> {
        let a = handed::recover(
            self.numbers,
            self.work.lent_mut(),
            self.store.lent(),
            self.log.lent_mut(),
        );
        self.recovered(a)
    }

    // Begin compact, with a fill.
    pub fn begin_compact(&mut self) -> Result<(), Stop> {
        let fill = self.input.number()?;
        let a = handed::begin_compact(self.numbers, self.work.lent(), self.log.lent_mut(), fill);
        self.reply(a)
    }

    // Begin order.
    pub fn begin_order(&mut self) -> Result<(), Stop> {
        let a = handed::begin_order(self.numbers, self.work.lent(), self.log.lent_mut());
        self.reply(a)
    }

    // Step.
    pub fn step(&mut self) -> Result<(), Stop> {
        let a = handed::step(self.numbers, self.work.lent_mut(), self.log.lent_mut());
        self.reply(a)
    }

    // Flush, of a page.
    pub fn flush(&mut self) -> Result<(), Stop> {
        let p = self.input.number()?;
        let a = handed::flush(
            self.numbers,
            self.work.lent(),
            self.store.lent_mut(),
            self.log.lent(),
            p,
        );
        self.reply(a)
    }

    // Force.
    pub fn force(&mut self) -> Result<(), Stop> {
        let a = handed::force(self.numbers, self.log.lent());
        self.reply(a)
    }

    // Checkpoint; 1 clears LK and 0 keeps it.
    pub fn checkpoint(&mut self) -> Result<(), Stop> {
        let clear = self.input.flag()?;
        let a = handed::checkpoint(
            self.numbers,
            self.work.lent(),
            self.store.lent(),
            self.log.lent_mut(),
            clear,
        );
        self.reply(a)
    }
}
