// Writing what a call left, and keeping its numbers.
use crate::input::Stop;
use crate::state::Bench;
use answering::ListAnswer;
use finding::FindAnswer;
use recovering::RecoverAnswer;
use std::io::{Read, Write};
use store::Answer;

impl<R: Read, W: Write> Bench<R, W> {
    // Writes a call's reply.
    pub fn reply(&mut self, a: Answer) -> Result<(), Stop> {
        self.numbers = a.numbers;
        self.output.write_all(&[a.reply])?;
        Ok(())
    }

    // Writes recovery's reply and count.
    pub fn recovered(&mut self, a: RecoverAnswer) -> Result<(), Stop> {
        self.numbers = a.numbers;
        let [b, c, d, e] = a.recovered.count.to_le_bytes();
        self.output.write_all(&[a.recovered.reply, b, c, d, e])?;
        Ok(())
    }

    // Writes find's reply and value.
    pub fn found(&mut self, a: FindAnswer) -> Result<(), Stop> {
        self.numbers = a.numbers;
        let mut bytes = [a.found.reply; 11];
        bytes[1..].copy_from_slice(&a.found.value);
        self.output.write_all(&bytes)?;
        Ok(())
    }

    // Writes list's reply, count, whether more remain, and the room.
    pub fn listed(&mut self, a: ListAnswer) -> Result<(), Stop> {
        self.numbers = a.numbers;
        let [b, c, d, e] = a.listed.count.to_le_bytes();
        let more = u8::from(a.listed.more);
        self.output.write_all(&[a.listed.reply, b, c, d, e, more])?;
        self.output.write_all(self.room.lent())?;
        Ok(())
    }

    // Writes the range reader's reply, the count of its records, and the room.
    pub fn walked(&mut self, reply: u8, count: u32) -> Result<(), Stop> {
        let [b, c, d, e] = count.to_le_bytes();
        self.output.write_all(&[reply, b, c, d, e])?;
        self.output.write_all(self.room.lent())?;
        Ok(())
    }

    // Writes the numbers.
    pub fn write_numbers(&mut self) -> Result<(), Stop> {
        let mut bytes = [0u8; 8];
        bytes[..4].copy_from_slice(&self.numbers.used.to_le_bytes());
        bytes[4..].copy_from_slice(&self.numbers.forced.to_le_bytes());
        self.output.write_all(&bytes)?;
        Ok(())
    }
}
