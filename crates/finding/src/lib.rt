// Find, which answers from the pages and changes nothing.
#![tactic(auto)]

ghost use Rattle.std.specs.Prelude.{◌≡◌, []};
ghost use Rattle.field.specs.Bytes.{zeroes};
ghost use Rattle.store.specs.Calls.{lent, left, find};

use store::known;
use store::known::Numbers;
use tree::find::Found;

// What find returns, and the numbers, which stay.
#[derive(Clone, Copy)]
pub struct FindAnswer {
    pub found: Found,
    pub numbers: Numbers,
}

// A refusal: ten zeros beside its number.
fn without(n: Numbers, reply: u8) -> FindAnswer
    ensures { (result.found.reply ≡ reply) × (result.found.value ≡ zeroes 10) × (result.numbers.used ≡ n.used) × (result.numbers.forced ≡ n.forced) }
{
    FindAnswer {
        found: Found {
            reply,
            value: [0u8; 10],
        },
        numbers: n,
    }
}

// The value of the record with this key.
pub fn find(n: Numbers, work: &[u8], log: &[u8], key: u32) -> FindAnswer
    ensures found { left result.found.reply result.found.value (lent result.numbers.used result.numbers.forced work.now [] log.now [])
        ≡ find key (lent n.used n.forced work.now [] log.now []) }
{
    if work.len() != 16384 {
        return without(n, 1);
    }
    if log.len() != 8192 {
        return without(n, 1);
    }
    let s = logs::scan::scan_log(log, n.forced);
    if !known::knows(s, n.used) {
        return without(n, 2);
    }
    let w = s.walk;
    if w.opened {
        return without(n, 9);
    }
    FindAnswer {
        found: tree::find::look_up(work, key),
        numbers: n,
    }
}
