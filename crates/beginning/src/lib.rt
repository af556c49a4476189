// Begin compact and begin order: they differ in a test and in the choice of the unit.
#![tactic(auto)]

ghost use Rattle.std.specs.Prelude.{◌≡◌, []};
ghost use Rattle.store.specs.Calls.{lent, left, begin_compact, begin_order};

use store::known;
use store::known::{Answer, Numbers};

// A compact unit is begun, of leaves that hold at most `fill` records together; 0 means 12.
pub fn begin_compact(n: Numbers, work: &[u8], log: &mut [u8], fill: u32) -> Answer
    ensures begun { left result.reply [] (lent result.numbers.used result.numbers.forced work.now [] log.new [])
        ≡ begin_compact fill (lent n.used n.forced work.now [] log.old []) }
{
    if work.len() != 16384 {
        return known::kept(n, 1);
    }
    if log.len() != 8192 {
        return known::kept(n, 1);
    }
    let s = logs::scan::scan_log(log, n.forced);
    if !known::knows(s, n.used) {
        return known::kept(n, 2);
    }
    if 15 < fill {
        return known::kept(n, 12);
    }
    let w = s.walk;
    let reply = starting::unready(w.opened, work);
    if reply != 0 {
        return known::kept(n, reply);
    }
    let c = unit::compact::choose_compact(work, fill, w.known, w.lk);
    if !c.found {
        return known::kept(n, 11);
    }
    starting::begun(n, work, log, w, c)
}

// A move or a swap is begun, of the first leaf that is not on its place.
pub fn begin_order(n: Numbers, work: &[u8], log: &mut [u8]) -> Answer
    ensures begun { left result.reply [] (lent result.numbers.used result.numbers.forced work.now [] log.new [])
        ≡ begin_order (lent n.used n.forced work.now [] log.old []) }
{
    if work.len() != 16384 {
        return known::kept(n, 1);
    }
    if log.len() != 8192 {
        return known::kept(n, 1);
    }
    let s = logs::scan::scan_log(log, n.forced);
    if !known::knows(s, n.used) {
        return known::kept(n, 2);
    }
    let w = s.walk;
    let reply = starting::unready(w.opened, work);
    if reply != 0 {
        return known::kept(n, reply);
    }
    let c = unit::order::choose_order(work);
    if !c.found {
        return known::kept(n, 11);
    }
    starting::begun(n, work, log, w, c)
}
