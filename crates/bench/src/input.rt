// Reading the script, and why it stops before its end.
use intake::read_full;
use std::io;
use std::io::Read;

// Why a script stops.
#[derive(Drop)]
pub enum Stop {
    // At a command that is unknown, cut short or out of its limits.
    Script,
    // At a read or a write that failed.
    Io(io::Error),
}

impl From<io::Error> for Stop {
    fn from(e: io::Error) -> Stop {
        Stop::Io(e)
    }
}

// The script, from what comes next on.
#[derive(Drop)]
pub struct Input<R> {
    pub from: R,
}

impl<R: Read> Input<R> {
    // The letter of the next command; none at the script's end.
    pub fn letter(&mut self) -> io::Result<Option<u8>> {
        let mut bytes = [0u8; 1];
        let n = read_full(&mut self.from, &mut bytes)?;
        Ok(if n == 1 { Some(bytes[0]) } else { None })
    }

    // Fills the buffer with the next bytes.
    pub fn fill(&mut self, buffer: &mut [u8]) -> Result<(), Stop> {
        if read_full(&mut self.from, buffer)? < buffer.len() {
            return Err(Stop::Script);
        }
        Ok(())
    }

    // The next byte, 0 or 1.
    pub fn flag(&mut self) -> Result<bool, Stop> {
        let mut bytes = [0u8; 1];
        self.fill(&mut bytes)?;
        match bytes {
            [0] => Ok(false),
            [1] => Ok(true),
            _ => Err(Stop::Script),
        }
    }

    // The next number, of four bytes.
    pub fn number(&mut self) -> Result<u32, Stop> {
        let mut bytes = [0u8; 4];
        self.fill(&mut bytes)?;
        Ok(u32::from_le_bytes(bytes))
    }
}
