// Checkpoint.
#![tactic(auto)]

ghost use Rattle.std.specs.Prelude.{◌≡◌, false, []};
ghost use Rattle.field.specs.Test.{pick};
ghost use Rattle.store.specs.Calls.{lent, left, checkpoint};

use field::LogNo;
use store::known::{Answer, Numbers};
use store::{fresh, known};

// Whether LK is there afterwards: it was, and is not to be cleared.
fn stays(clear: bool, there: bool) -> bool
    ensures { result ≡ pick clear false there }
{
    if clear {
        return false;
    }
    there
}

// The log is replaced by one check record with the next number, where the store holds all that the work pages do.
pub fn checkpoint(n: Numbers, work: &[u8], store: &[u8], log: &mut [u8], clear: bool) -> Answer
    ensures replaced { left result.reply [] (lent result.numbers.used result.numbers.forced work.now store.now log.new [])
        ≡ checkpoint clear (lent n.used n.forced work.now store.now log.old []) }
{
    if work.len() != 16384 {
        return known::kept(n, 1);
    }
    if store.len() != 16384 {
        return known::kept(n, 1);
    }
    if log.len() != 8192 {
        return known::kept(n, 1);
    }
    let s = logs::scan::scan_log(log, n.forced);
    if !known::knows(s, n.used) {
        return known::kept(n, 2);
    }
    let w = s.walk;
    if w.opened {
        return known::kept(n, 9);
    }
    if !field::same_bytes(work, store) {
        return known::kept(n, 14);
    }
    if 4294967295 <= w.number.0 {
        return known::kept(n, 7);
    }
    let unit = w.unit;
    fresh::new_log(
        log,
        LogNo(w.number.0 + 1),
        unit,
        stays(clear, w.known),
        w.lk,
    );
    Answer {
        reply: 0,
        numbers: Numbers {
            used: fresh::END,
            forced: fresh::END,
        },
    }
}
