// Recovery's repeating: each record of the log, in order, on the pages, where its number exceeds its page's.
ghost use Rattle.std.specs.Prelude.{◌≡◌, Bool, true, ℕ, ◌+◌, ◌*◌, ◌<◌, length};
ghost use Rattle.field.specs.Test.{there};
ghost use Rattle.logs.specs.Plan.{take_out, bring_in, point};
ghost use Rattle.logs.specs.Log.{read_log};
ghost use Rattle.logs.specs.Steps.{step_of};
ghost use Rattle.logs.specs.Source.{record_at, saved_at};
ghost use Rattle.unit.specs.Next.{repeat};
ghost use Rattle.unit.specs.Made.{Did};
ghost use Rattle.unit.specs.Again.{OutReads, InReads, PointReads, Reads, SaveReads, Ahead, redone, Repeated};

use crate::apply;
use field::{LogNo, PageNo};
use logs::scan::Walk;
use logs::steps::Planned;
use logs::{kind, opening, past, scan, source, steps};

// The LO at the walk's end.
fn out_again(work: &mut [u8], log: &[u8], w: Walk, org: PageNo) -> bool
    requires { (length work.old ≡ 16384) × (w.number.0 < 4294967295) × OutReads log.now w org.0 }
    ensures { (dest : ℕ) → Did (repeat (w.number.0 + 1) (record_at log.now w (take_out org.0 dest)) work.old) work.old result work.new }
{
    let at = w.at + kind::LO_LONG;
    let k = field::get2(log, w.at + 16);
    let end = at + 16 * (k as usize);
    apply::repeat_out(work, org, &log[at..end], k, LogNo(w.number.0 + 1))
}

// The LI at the walk's end, whose LO stands `back` records before.
fn in_again(work: &mut [u8], log: &[u8], w: Walk, dest: PageNo, back: u32) -> bool
    requires { (length work.old ≡ 16384) × (w.number.0 < 4294967295) × InReads log.now w dest.0 back }
    ensures { (org : ℕ) → Did (repeat (w.number.0 + 1) (record_at log.now w (bring_in org dest.0 back)) work.old) work.old result work.new }
{
    let at = source::source_at(w, back) + kind::LO_LONG;
    let k = source::source_rows(w, back);
    let end = at + 16 * (k as usize);
    apply::repeat_in(work, dest, &log[at..end], k, LogNo(w.number.0 + 1))
}

// The LM at the walk's end.
fn point_again(work: &mut [u8], log: &[u8], w: Walk, base: PageNo, old: PageNo, new: PageNo) -> bool
    requires { (length work.old ≡ 16384) × (w.number.0 < 4294967295) × PointReads log.now w base.0 }
    ensures { (other : Bool) → Did (repeat (w.number.0 + 1) (record_at log.now w (point base.0 old.0 new.0 other)) work.old)
        work.old result work.new }
{
    let key = field::get4(log, w.at + 20);
    apply::repeat_modify(work, base, old, new, key, LogNo(w.number.0 + 1))
}

// The record of a step at the walk's end.
fn step_again(work: &mut [u8], log: &[u8], w: Walk, x: Planned) -> bool
    requires { (length work.old ≡ 16384) × (w.number.0 < 4294967295) × Reads log.now w (step_of x) }
    ensures { Did (repeat (w.number.0 + 1) (record_at log.now w (step_of x)) work.old) work.old result work.new }
{
    match x {
        Planned::Out { org, dest: _ } => out_again(work, log, w, org),
        Planned::In { org: _, dest, back } => in_again(work, log, w, dest, back),
        Planned::Point {
            base,
            old,
            new,
            other: _,
        } => point_again(work, log, w, base, old, new),
        Planned::Close { unit: _ } => true,
    }
}

// The record of a put or delete at the walk's end: an LG changes no page, and an LE lays the images of the LGs before it.
fn save_again(work: &mut [u8], log: &[u8], w: Walk) -> bool
    requires { (length work.old ≡ 16384) × (w.number.0 < 4294967295) × SaveReads log.now w }
    ensures { Did (repeat (w.number.0 + 1) (saved_at log.now w) work.old) work.old result work.new }
{
    let at = w.at;
    if log[at + 1] == kind::sign(kind::LG) {
        return true;
    }
    let from = w.begin + kind::size_of(kind::LB, 1);
    apply::end_all(work, &log[from..], w.done, LogNo(w.number.0 + 1));
    true
}

// The record at the walk's end: an LB where no unit is open, else the record of a put or delete, or of the unit's next step.
fn repeat_at(work: &mut [u8], log: &[u8], w: Walk) -> bool
    requires { (length work.old ≡ 16384) × Ahead log.now w }
    ensures { Did (redone log.now w work.old) work.old result work.new }
{
    if !w.opened {
        return true;
    }
    let begin = w.begin;
    if opening::saves(&log[begin..]) {
        return save_again(work, log, w);
    }
    let x = steps::step_at(&log[begin..], w.unit, w.done);
    step_again(work, log, w, x)
}

// All records of a log that reads. Where one cannot be repeated, reply 5, some pages may have changed.
pub fn repeat_log(work: &mut [u8], log: &[u8]) -> bool
    requires { (length work.old ≡ 16384) × (there (read_log log.now) ≡ true) }
    ensures { Repeated log.now work.old result work.new }
{
    let mut w = scan::top(log);
    while scan::live(log, w) {
        if !repeat_at(work, log, w) {
            return false;
        }
        w = past::past(log, w);
    }
    true
}
