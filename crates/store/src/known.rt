// What the calls have in common: the two numbers beside the log, and test 2.
ghost use Rattle.std.specs.Prelude.{◌≡◌};
ghost use Rattle.store.specs.Knows.{knows};

use logs::scan::Scan;

// Bytes used and bytes forced of the log.
#[repr(C)]
#[derive(Clone, Copy)]
pub struct Numbers {
    pub used: u32,
    pub forced: u32,
}

// A reply, and the numbers as they are afterwards.
#[derive(Clone, Copy)]
pub struct Answer {
    pub reply: u8,
    pub numbers: Numbers,
}

// An answer that leaves the numbers.
pub fn kept(n: Numbers, reply: u8) -> Answer
    ensures { (result.reply ≡ reply) × (result.numbers.used ≡ n.used) × (result.numbers.forced ≡ n.forced) }
{
    Answer { reply, numbers: n }
}

// Test 2: the log in form, used at its end, forced at a record's end.
pub fn knows(s: Scan, used: u32) -> bool
    ensures { result ≡ knows s used }
{
    let w = s.walk;
    if !w.ok {
        return false;
    }
    if w.at != used as usize {
        return false;
    }
    s.ends
}
