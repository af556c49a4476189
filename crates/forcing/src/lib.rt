// Force.
#![tactic(auto)]

ghost use Rattle.std.specs.Prelude.{◌≡◌, []};
ghost use Rattle.store.specs.Calls.{lent, left, force};

use store::known;
use store::known::{Answer, Numbers};

// All bytes used are forced.
pub fn force(n: Numbers, log: &[u8]) -> Answer
    ensures forced { left result.reply [] (lent result.numbers.used result.numbers.forced [] [] log.now [])
        ≡ force (lent n.used n.forced [] [] log.now []) }
{
    if log.len() != 8192 {
        return known::kept(n, 1);
    }
    let s = logs::scan::scan_log(log, n.forced);
    if !known::knows(s, n.used) {
        return known::kept(n, 2);
    }
    Answer {
        reply: 0,
        numbers: Numbers {
            used: n.used,
            forced: n.used,
        },
    }
}
