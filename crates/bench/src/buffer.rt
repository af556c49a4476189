// A buffer, and how much of it a call is lent.
ghost use Rattle.std.specs.Prelude.{◌≡◌, ◌≤◌, ◌<◌, ◌↔◌, length, take, OnOk, IsErr};

use crate::input::Stop;

// The bytes, of which those before `end` are lent.
#[derive(Drop)]
pub struct Buffer<const N: usize> {
    bytes: [u8; N],
    end: usize,
    ghost fits: { end ≤ N },
}

impl<const N: usize> Buffer<N> {
    // Zeros.
    pub fn new(end: usize) -> Buffer<N>
        requires { end ≤ N }
        ensures { result.end ≡ end }
    {
        Buffer { bytes: [0; N], end }
    }

    // Lends the first n bytes from now on. A script that asks for more than there are stops.
    pub fn lend(&mut self, n: u32) -> Result<(), Stop>
        ensures lent { OnOk result (self.new.end ≡ n) }
        ensures refused { IsErr result ↔ (N < n) }
    {
        let end = n as usize;
        if end > N {
            return Err(Stop::Script);
        }
        self.end = end;
        Ok(())
    }

    // The lent bytes.
    pub fn lent(&self) -> &[u8]
        ensures { result.now ≡ take self.now.end self.now.bytes }
    {
        &self.bytes[..self.end]
    }

    // The lent bytes, to be written.
    pub fn lent_mut(&mut self) -> &mut [u8]
        ensures within { length result.now ≤ N }
        ensures lent { result.now ≡ take self.old.end self.old.bytes }
    {
        let end = self.end;
        self.first_mut(end)
    }

    // The first n bytes, to be written.
    pub fn first_mut(&mut self, n: usize) -> &mut [u8]
        requires { n ≤ N }
        ensures len { length result.now ≡ n }
        ensures first { result.now ≡ take n self.old.bytes }
    {
        let bytes = self.bytes.as_mut_slice();
        &mut bytes[..n]
    }
}
