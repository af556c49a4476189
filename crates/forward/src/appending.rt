// One record more of the unit that is open at the log's end: it is appended to the log and its page changes made, or a reply of its tests
// and nothing changed. `step` and recovery's finishing are made of it. Each function is lent the log whole, and w is what one pass over
// it knows at its end.
ghost use Rattle.std.specs.Prelude.{◌≡◌, ◌+◌, length};
ghost use Rattle.logs.specs.Plan.{take_out, bring_in, point, close};
ghost use Rattle.unit.specs.Next.{room};
ghost use Rattle.unit.specs.Again.{next_step};
ghost use Rattle.forward.specs.Appends.{append_next, Goes, Opened, Tidies, to_come, tested};

use field::{LogNo, PageNo, UnitNo};
use logs::scan::Walk;
use logs::steps::Planned;
use logs::{kind, opening, source, steps, writing};
use page::form;
use resuming::carrying;
use tree::well;
use unit::entry::Lowest;
use unit::{apply, entry, room};

// Tests 6 and 7: the log can hold what remains of the unit, and the record has a number. The reply, 0 where both hold.
fn admitted(work: &[u8], log: &[u8], w: Walk) -> u8
    requires { (length work.now ≡ 16384) × (length log.now ≡ 8192) × Tidies log.now w }
    ensures { result ≡ tested (w.at + room work.now (to_come log.now w)) (w.number.0 + 1) }
{
    let begin = w.begin;
    let rest = room::remaining(work, &log[begin..], w.unit, w.done);
    if log.len() - w.at < rest.bytes {
        return 6;
    }
    if w.number.0 == 4294967295 {
        return 7;
    }
    0
}

// An LO: page org must be a leaf; it carries all its records.
fn append_out(work: &mut [u8], log: &mut [u8], w: Walk, org: PageNo, dest: PageNo) -> u8
    requires { (length work.old ≡ 16384) × (length log.old ≡ 8192) × Tidies log.old w × (next_step log.old w ≡ take_out org.0 dest.0) }
    ensures { Goes (append_next work.old log.old) work.old log.old result work.new log.new }
{
    let from = 256 * (org.0 as usize);
    if !form::is_leaf(&work[from..from + 256]) {
        return 5;
    }
    let reply = admitted(work, log, w);
    if reply != 0 {
        return reply;
    }
    let n = LogNo(w.number.0 + 1);
    let k = well::count_at(work, org.0 as usize);
    let first = from + 16;
    let end = first + 16 * (k as usize);
    writing::put_out(log, w.at, n, org, dest, k, &work[first..end]);
    apply::take_all(work, org, n);
    0
}

// An LI: the records are those of its LO, which stands in the log `back` records before.
fn append_in(work: &mut [u8], log: &mut [u8], w: Walk, org: PageNo, dest: PageNo, back: u32) -> u8
    requires { (length work.old ≡ 16384) × (length log.old ≡ 8192) × Tidies log.old w × (next_step log.old w ≡ bring_in org.0 dest.0 back) }
    ensures { Goes (append_next work.old log.old) work.old log.old result work.new log.new }
{
    let k = source::source_rows(w, back);
    let first = source::source_at(w, back) + kind::LO_LONG;
    let end = first + 16 * (k as usize);
    if !apply::can_bring_in(work, dest, &log[first..end], k) {
        return 5;
    }
    let reply = admitted(work, log, w);
    if reply != 0 {
        return reply;
    }
    let n = LogNo(w.number.0 + 1);
    apply::bring_in(work, dest, &log[first..end], k, n);
    writing::put_in(log, w.at, n, org, dest, k, back);
    0
}

// An LM: of the lowest entry of page base to page old, but for the one that the LM before changed.
fn append_point(
    work: &mut [u8],
    log: &mut [u8],
    w: Walk,
    base: PageNo,
    old: PageNo,
    new: PageNo,
    other: bool,
) -> u8
    requires { (length work.old ≡ 16384) × (length log.old ≡ 8192) × Tidies log.old w × (next_step log.old w ≡ point base.0 old.0 new.0 other) }
    ensures { Goes (append_next work.old log.old) work.old log.old result work.new log.new }
{
    let from = 256 * (base.0 as usize);
    if !form::is_base(&work[from..from + 256]) {
        return 5;
    }
    let Lowest::Key(key) = entry::lowest_at(work, base, old, other, w.key) else {
        return 5;
    };
    if !apply::can_modify(work, base, old, new, key) {
        return 5;
    }
    let reply = admitted(work, log, w);
    if reply != 0 {
        return reply;
    }
    let n = LogNo(w.number.0 + 1);
    apply::modify(work, base, old, new, key, n);
    writing::put_modify(log, w.at, n, base, old, new, key);
    0
}

// An LE.
fn append_close(work: &mut [u8], log: &mut [u8], w: Walk, unit: UnitNo) -> u8
    requires { (length work.old ≡ 16384) × (length log.old ≡ 8192) × Tidies log.old w × (next_step log.old w ≡ close unit.0) }
    ensures { Goes (append_next work.old log.old) work.old log.old result work.new log.new }
{
    let reply = admitted(work, log, w);
    if reply != 0 {
        return reply;
    }
    writing::put_end(log, w.at, LogNo(w.number.0 + 1), unit);
    0
}

// The next step of a unit that tidies, by its kind.
fn append_step(work: &mut [u8], log: &mut [u8], w: Walk) -> u8
    requires { (length work.old ≡ 16384) × (length log.old ≡ 8192) × Tidies log.old w }
    ensures { Goes (append_next work.old log.old) work.old log.old result work.new log.new }
{
    let begin = w.begin;
    let x = steps::step_at(&log[begin..], w.unit, w.done);
    match x {
        Planned::Out { org, dest } => append_out(work, log, w, org, dest),
        Planned::In { org, dest, back } => append_in(work, log, w, org, dest, back),
        Planned::Point {
            base,
            old,
            new,
            other,
        } => append_point(work, log, w, base, old, new, other),
        Planned::Close { unit } => append_close(work, log, w, unit),
    }
}

// The next record of the open unit, which tidies or is a put or delete.
pub fn append(work: &mut [u8], log: &mut [u8], w: Walk) -> u8
    requires { (length work.old ≡ 16384) × (length log.old ≡ 8192) × Opened log.old w }
    ensures { Goes (append_next work.old log.old) work.old log.old result work.new log.new }
{
    let begin = w.begin;
    if opening::saves(&log[begin..]) {
        return carrying::append_saved(work, log, w);
    }
    append_step(work, log, w)
}
