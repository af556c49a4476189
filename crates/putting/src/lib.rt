// Begin put and begin delete: the pages that the unit changes are worked out, and its LB is written with the record.
#![tactic(auto)]

ghost use Rattle.std.specs.Prelude.{◌≡◌, List, [], ℕ, ◌+◌, ◌≤◌, length};
ghost use Rattle.logs.specs.Log.{State};
ghost use Rattle.logs.specs.Scan.{shown};
ghost use Rattle.logs.specs.Write.{save_of};
ghost use Rattle.store.specs.Calls.{lent, left, deleting, begin_save, begin_put, begin_delete};

use field::{LogNo, UnitNo};
use logs::scan::Walk;
use logs::{kind, writing};
use resuming::working;
use store::known;
use store::known::{Answer, Numbers};

// The record that a delete's LB carries: mark and key, the value zero.
fn deleting(key: u32) -> [u8; 16]
    ensures { result ≡ deleting key }
{
    let mut r = [0u8; 16];
    r[0] = 114;
    r[1] = 99;
    field::put4(&mut r, 2, key);
    r
}

// Tests 9, 3, 8, 18 or 15, 6 and 7, then the LB of a put (type 4) or delete with the record r.
fn begun(n: Numbers, work: &[u8], log: &mut [u8], w: Walk, kind: u8, r: &[u8]) -> Answer
    requires { (length work.now ≡ 16384) × (length log.old ≡ 8192) × (w.at ≤ 8192) × (length r.now ≡ 16) }
    ensures { (s : State) (b : List ℕ) → w ≡ shown s
        → left result.reply [] (lent result.numbers.used result.numbers.forced work.now [] log.new b)
        ≡ begin_save (lent n.used n.forced work.now [] log.old b) s (save_of (s.unit + 1) kind r.now) }
{
    if w.opened {
        return known::kept(n, 9);
    }
    let x = working::needed(work, r, kind);
    if x.reply != 0 {
        return known::kept(n, x.reply);
    }
    let end = w.at + kind::LB_LONG + 16;
    let many = x.count as usize;
    let rest = (kind::LG_LONG + 256) * many + kind::LE_LONG;
    if 8192 < end + rest {
        return known::kept(n, 6);
    }
    if 4294967295 < w.number.0 as usize + 1 + (many + 1) {
        return known::kept(n, 7);
    }
    if 4294967295 <= w.unit.0 {
        return known::kept(n, 7);
    }
    writing::put_save(
        log,
        w.at,
        LogNo(w.number.0 + 1),
        UnitNo(w.unit.0 + 1),
        kind,
        r,
    );
    Answer {
        reply: 0,
        numbers: Numbers {
            used: end as u32,
            forced: n.forced,
        },
    }
}

// A put of the lent record is begun.
pub fn begin_put(n: Numbers, work: &[u8], log: &mut [u8], r: &[u8]) -> Answer
    ensures begun { left result.reply [] (lent result.numbers.used result.numbers.forced work.now [] log.new r.now)
        ≡ begin_put (lent n.used n.forced work.now [] log.old r.now) }
{
    if work.len() != 16384 {
        return known::kept(n, 1);
    }
    if log.len() != 8192 {
        return known::kept(n, 1);
    }
    let s = logs::scan::scan_log(log, n.forced);
    if !known::knows(s, n.used) {
        return known::kept(n, 2);
    }
    if r.len() != 16 {
        return known::kept(n, 12);
    }
    if field::get2(r, 0) != 25458 {
        return known::kept(n, 16);
    }
    begun(n, work, log, s.walk, 4, r)
}

// A delete of a key's record is begun.
pub fn begin_delete(n: Numbers, work: &[u8], log: &mut [u8], key: u32) -> Answer
    ensures begun { left result.reply [] (lent result.numbers.used result.numbers.forced work.now [] log.new [])
        ≡ begin_delete key (lent n.used n.forced work.now [] log.old []) }
{
    if work.len() != 16384 {
        return known::kept(n, 1);
    }
    if log.len() != 8192 {
        return known::kept(n, 1);
    }
    let s = logs::scan::scan_log(log, n.forced);
    if !known::knows(s, n.used) {
        return known::kept(n, 2);
    }
    let r = deleting(key);
    begun(n, work, log, s.walk, 5, &r)
}
