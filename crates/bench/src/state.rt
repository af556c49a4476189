// What a script works on, and how it is carried out.
use crate::buffer::Buffer;
use crate::input::{Input, Stop};
use std::io;
use std::io::{Read, Write};
use store::Numbers;

// The right length of the work and the store pages.
const PAGES: usize = 16384;

// The right length of the log.
const LOG: usize = 8192;

// The script, where its answers go, the buffers and the numbers. The first three buffers have one byte past their right lengths; the room is
// lent as each command says.
#[derive(Drop)]
pub struct Bench<R, W> {
    pub input: Input<R>,
    pub output: W,
    pub work: Buffer<16385>,
    pub store: Buffer<16385>,
    pub log: Buffer<8193>,
    pub room: Buffer<16384>,
    pub numbers: Numbers,
}

impl<R: Read, W: Write> Bench<R, W> {
    // Before the first command.
    pub fn new(from: R, output: W) -> Bench<R, W> {
        Bench {
            input: Input { from },
            output,
            work: Buffer::new(PAGES),
            store: Buffer::new(PAGES),
            log: Buffer::new(LOG),
            room: Buffer::new(0),
            numbers: Numbers { used: 0, forced: 0 },
        }
    }

    // Carries out the whole script. Where it stops at a command, that is answered by one byte 255.
    pub fn run(&mut self) -> io::Result<()> {
        match self.commands() {
            Ok(()) => Ok(()),
            Err(Stop::Script) => self.output.write_all(&[255]),
            Err(Stop::Io(e)) => Err(e),
        }
    }

    // Carries out all commands. A proved loop has to end, and nothing says that a script does: so the commands are counted, up to a number
    // that no script uses up.
    fn commands(&mut self) -> Result<(), Stop> {
        for _ in 0..u64::MAX {
            let Some(letter) = self.input.letter()? else {
                break;
            };
            self.command(letter)?;
        }
        Ok(())
    }

    // Carries out the command with this letter.
    fn command(&mut self, letter: u8) -> Result<(), Stop> {
        match letter {
            b'w' => self.input.fill(self.work.first_mut(PAGES)),
            b's' => self.input.fill(self.store.first_mut(PAGES)),
            b'g' => self.input.fill(self.log.first_mut(LOG)),
            b'n' => self.set_numbers(),
            b'z' => self.set_lengths(),
            b'B' => self.build(),
            b'R' => self.recover(),
            b'C' => self.begin_compact(),
            b'O' => self.begin_order(),
            b'S' => self.step(),
            b'F' => self.force(),
            b'U' => self.begin_put(),
            b'X' => self.begin_delete(),
            b'P' => self.flush(),
            b'K' => self.checkpoint(),
            b'G' => self.find(),
            b'L' => self.list(),
            b'W' => self.walk(),
            b'D' => self.dump(),
            _ => Err(Stop::Script),
        }
    }
}
