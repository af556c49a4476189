// One pass over the log.
ghost use Rattle.std.specs.Prelude.{◌≡◌, true, false, ◌+◌, ◌-◌, ◌≤◌, ◌<◌, length, drop, get_or, eqb};
ghost use Rattle.field.specs.Test.{pick};
ghost use Rattle.logs.specs.Record.{begin, image, type_at, length_of};
ghost use Rattle.logs.specs.Plan.{take_out, bring_in, point, close, plan};
ghost use Rattle.logs.specs.Log.{past, begin_ok, saves_at, read_begin};
ghost use Rattle.logs.specs.Stand.{stands_begin, stands_image, stands_last};
ghost use Rattle.logs.specs.Steps.{step_of};
ghost use Rattle.logs.specs.Scan.{lost, begun, went, ended, stepped, images_on, saved, Saving, turned, Ready, saving_on, topped, noted, live, tidies_on, finished, scanned};

use crate::steps::Planned;
use crate::{kind, opening, past, reading, source, steps, writing};
use field::{LogNo, PageNo, UnitNo};

// What is known after a record: the log's end and its last number, the last unit, LK; of an open unit where its LB stands, how many of
// its steps are done, where the record before stands, how many records that one and the unit's first carry, the key of the LM before (0 if
// the record before is no LM), the largest key moved. Where the log's form is broken, ok is false and all else zero.
#[derive(Clone, Copy)]
pub struct Walk {
    pub ok: bool,
    pub at: usize,
    pub number: LogNo,
    pub unit: UnitNo,
    pub known: bool,
    pub lk: u32,
    pub opened: bool,
    pub begin: usize,
    pub done: usize,
    pub last: usize,
    pub rows: u16,
    pub first: u16,
    pub key: u32,
    pub moved: u32,
}

// The whole pass: what is known at the log's end, whether a record ends at the bytes forced, and its number.
#[derive(Clone, Copy)]
pub struct Scan {
    pub walk: Walk,
    pub ends: bool,
    pub forced: LogNo,
}

// Whether a record was found that ends at the bytes forced, and its number.
#[derive(Clone, Copy)]
pub struct Mark {
    pub ends: bool,
    pub number: LogNo,
}

// Log form broken.
fn lost() -> Walk
    ensures { result ≡ lost }
{
    Walk {
        ok: false,
        at: 0,
        number: LogNo(0),
        unit: UnitNo(0),
        known: false,
        lk: 0,
        opened: false,
        begin: 0,
        done: 0,
        last: 0,
        rows: 0,
        first: 0,
        key: 0,
        moved: 0,
    }
}

// The LB of a unit that tidies, at the front of m.
fn begin_turn(m: &[u8], w: Walk) -> Walk
    requires { (w.number.0 < 4294967295) × (w.at + length m.now < 18446744073709551616) × (begin.fixed ≤ length m.now) × (saves_at m.now ≡ false) }
    ensures { result ≡ pick (stands_begin (w.number.0 + 1) (w.unit.0 + 1) m.now) (begun w (pick (saves_at m.now) 1 0)) lost }
{
    if w.unit.0 == 4294967295 {
        return lost();
    }
    if !reading::is_begin(m, LogNo(w.number.0 + 1), UnitNo(w.unit.0 + 1)) {
        return lost();
    }
    past::begun(w, 0)
}

// The LB of a put or delete, or none, at the front of m.
fn save_begun(m: &[u8], w: Walk) -> Walk
    requires { (w.number.0 < 4294967295) × (w.at + length m.now < 18446744073709551616) × (begin.fixed ≤ length m.now → saves_at m.now ≡ true) }
    ensures { result ≡ pick (stands_begin (w.number.0 + 1) (w.unit.0 + 1) m.now) (begun w (pick (saves_at m.now) 1 0)) lost }
{
    if w.unit.0 == 4294967295 {
        return lost();
    }
    if !reading::is_save(m, LogNo(w.number.0 + 1), UnitNo(w.unit.0 + 1)) {
        return lost();
    }
    past::begun(w, 1)
}

// The LO of a step at the front of m.
fn out_turn(m: &[u8], w: Walk, org: PageNo, dest: PageNo) -> Walk
    requires { (w.number.0 < 4294967295) × (w.at + length m.now < 18446744073709551616) × (w.done ≤ w.at) }
    ensures { result ≡ stepped w m.now false (take_out org.0 dest.0) }
{
    if !reading::is_out(m, LogNo(w.number.0 + 1), org, dest) {
        return lost();
    }
    past::taken_out(m, w)
}

// The LI of a step at the front of m.
fn in_turn(m: &[u8], w: Walk, org: PageNo, dest: PageNo, back: u32) -> Walk
    requires { (w.number.0 < 4294967295) × (w.at + length m.now < 18446744073709551616) × (w.done ≤ w.at) }
    ensures { result ≡ stepped w m.now false (bring_in org.0 dest.0 back) }
{
    let rows = source::source_rows(w, back);
    if !reading::is_in(m, 0, LogNo(w.number.0 + 1), org, dest, back, rows) {
        return lost();
    }
    past::brought_in(w)
}

// The LM of a step at the front of m.
fn point_turn(m: &[u8], w: Walk, base: PageNo, old: PageNo, new: PageNo) -> Walk
    requires { (w.number.0 < 4294967295) × (w.at + length m.now < 18446744073709551616) × (w.done ≤ w.at) }
    ensures { result ≡ stepped w m.now false (point base.0 old.0 new.0 false) }
{
    if !reading::is_modify(m, 0, LogNo(w.number.0 + 1), base, old, new) {
        return lost();
    }
    past::pointed(m, w)
}

// The LE of a unit at the front of m.
fn end_turn(m: &[u8], w: Walk, compact: bool, unit: UnitNo) -> Walk
    requires { (w.number.0 < 4294967295) × (w.at + length m.now < 18446744073709551616) }
    ensures { result ≡ stepped w m.now compact (close unit.0) }
{
    if !reading::is_end(m, 0, LogNo(w.number.0 + 1), unit) {
        return lost();
    }
    past::ended(w, compact)
}

// The record of a planned step at the front of m.
fn step_turn(m: &[u8], w: Walk, compact: bool, x: Planned) -> Walk
    requires { (w.number.0 < 4294967295) × (w.at + length m.now < 18446744073709551616) × (w.done ≤ w.at) }
    ensures { result ≡ stepped w m.now compact (step_of x) }
{
    match x {
        Planned::Out { org, dest } => out_turn(m, w, org, dest),
        Planned::In { org, dest, back } => in_turn(m, w, org, dest, back),
        Planned::Point {
            base,
            old,
            new,
            other: _,
        } => point_turn(m, w, base, old, new),
        Planned::Close { unit } => end_turn(m, w, compact, unit),
    }
}

// The step i of the unit whose begin record stands at the front of m, where it is known whether that is a compact. It has one caller, and
// so is compiled in its place in the pass, where `steps::step_at` would be a call at each record.
fn step_of(m: &[u8], compact: bool, unit: UnitNo, i: usize) -> Planned
    requires { (begin.fixed ≤ length m.now) × (begin_ok (read_begin unit.0 m.now) ≡ true) × (saves_at m.now ≡ false) × (compact ≡ eqb (get_or m.now type_at 0) 1) }
    ensures { step_of result ≡ get_or (plan (read_begin unit.0 m.now)) i (close unit.0) }
{
    if compact {
        return steps::compact_step(m, unit, i);
    }
    steps::other_step(m, unit, i)
}

// The least page whose image may follow those of the put or delete that is open: one above the last one's, 0 where there is none.
fn least_page(l: &[u8], w: Walk) -> usize
    requires { Saving l.now w }
    ensures { result ≡ past 0 (images_on l.now w) }
{
    if w.done == 0 {
        return 0;
    }
    field::get2(l, w.at - kind::size_of(kind::LG, 1) + 12) as usize + 1
}

// The LG of a put or delete at the log's end.
fn image_turn(l: &[u8], w: Walk) -> Walk
    requires { Saving l.now w × (w.number.0 < 4294967295) }
    ensures { result ≡ pick (stands_image (w.number.0 + 1) (images_on l.now w) (drop w.at l.now)) (went w (length_of image 1) 0 0 w.moved) lost }
{
    let at = w.at;
    let least = least_page(l, w);
    if !reading::is_image(&l[at..], LogNo(w.number.0 + 1), least) {
        return lost();
    }
    past::imaged(w)
}

// The LE of a put or delete at the log's end.
fn last_turn(l: &[u8], w: Walk) -> Walk
    requires { Saving l.now w × (w.number.0 < 4294967295) }
    ensures { result ≡ pick (stands_last (w.number.0 + 1) w.unit.0 (images_on l.now w) (drop w.at l.now)) (ended w false) lost }
{
    let at = w.at;
    let from = w.begin + kind::size_of(kind::LB, 1);
    if w.done == 0 {
        return lost();
    }
    if !reading::all_bear(&l[from..], w.done, LogNo(w.number.0 + 1)) {
        return lost();
    }
    if !reading::is_end(l, at, LogNo(w.number.0 + 1), w.unit) {
        return lost();
    }
    past::ended(w, false)
}

// The next record of a put or delete that is open.
fn save_turn(l: &[u8], w: Walk) -> Walk
    requires { Saving l.now w × (w.number.0 < 4294967295) }
    ensures { result ≡ saved w (drop w.at l.now) (images_on l.now w) }
{
    let at = w.at;
    if l.len() - at < kind::size_of(kind::LE, 0) {
        return lost();
    }
    if l[at + 1] == kind::sign(kind::LG) {
        return image_turn(l, w);
    }
    last_turn(l, w)
}

// The next record of a put or delete: its LB where no unit is open. Where the log is too short for an LB, it is broken.
fn saving_turn(l: &[u8], w: Walk) -> Walk
    requires { Ready l.now w × (saving_on l.now w ≡ true) }
    ensures { result ≡ turned l.now w }
{
    let at = w.at;
    if w.number.0 == 4294967295 {
        return lost();
    }
    if !w.opened {
        return save_begun(&l[at..], w);
    }
    save_turn(l, w)
}

// The next record of a unit that tidies.
fn turn(l: &[u8], w: Walk) -> Walk
    requires { Ready l.now w × (saving_on l.now w ≡ false) }
    ensures { result ≡ turned l.now w }
{
    let at = w.at;
    let begin = w.begin;
    if w.number.0 == 4294967295 {
        return lost();
    }
    if !w.opened {
        return begin_turn(&l[at..], w);
    }
    let compact = l[begin + opening::TYPE_AT] == 1;
    let x = step_of(&l[begin..], compact, w.unit, w.done);
    step_turn(&l[at..], w, compact, x)
}

// What the check record says.
pub fn top(l: &[u8]) -> Walk
    ensures { result ≡ topped l.now }
{
    let long = kind::size_of(kind::LC, 0);
    if l.len() < long {
        return lost();
    }
    let number = LogNo(field::get4(l, 4));
    let unit = UnitNo(field::get4(l, 12));
    let known = l[16] != 0;
    let key = field::get4(l, 20);
    if !reading::is_check(l, number, unit, known, key) {
        return lost();
    }
    Walk {
        ok: true,
        at: long,
        number,
        unit,
        known,
        lk: writing::number_if(known, key),
        opened: false,
        begin: 0,
        done: 0,
        last: 0,
        rows: 0,
        first: 0,
        key: 0,
        moved: 0,
    }
}

// Notes the record that ends at `at` where nothing was found yet.
fn noted(e: Mark, at: usize, number: LogNo, forced: u32) -> Mark
    ensures { result ≡ noted e at number.0 forced }
{
    if at != forced as usize {
        return Mark {
            ends: e.ends,
            number: LogNo(writing::number_if(e.ends, e.number.0)),
        };
    }
    if e.ends {
        return e;
    }
    Mark { ends: true, number }
}

// Whether another record comes: the log's form is not broken and the byte there is not zero.
pub fn live(l: &[u8], w: Walk) -> bool
    ensures { result ≡ live l.now w }
{
    let at = w.at;
    if !w.ok {
        return false;
    }
    if l.len() <= at {
        return false;
    }
    l[at] != 0
}

// The answer at the log's end: all bytes after are zero.
fn finish(l: &[u8], w: Walk, e: Mark) -> Scan
    requires { w.at ≤ length l.now }
    ensures { result ≡ finished l.now w e }
{
    let at = w.at;
    let forced = e.number;
    if !w.ok {
        return Scan {
            walk: lost(),
            ends: false,
            forced: LogNo(0),
        };
    }
    if !field::zeros_long(&l[at..]) {
        return Scan {
            walk: lost(),
            ends: false,
            forced: LogNo(0),
        };
    }
    Scan {
        walk: w,
        ends: e.ends,
        forced,
    }
}

// Whether the next record is for `saving_turn`.
fn saving(l: &[u8], w: Walk) -> bool
    requires { Ready l.now w }
    ensures { result ≡ saving_on l.now w }
{
    let at = w.at;
    let begin = w.begin;
    if w.opened {
        return opening::saves(&l[begin..]);
    }
    if l.len() - at < kind::LB_LONG {
        return true;
    }
    opening::saves(&l[at..])
}

// Whether a record of a unit that tidies comes, where no put or delete is open.
fn tidies(l: &[u8], w: Walk) -> bool
    requires { w.at ≤ length l.now }
    ensures { result ≡ tidies_on l.now w }
{
    let at = w.at;
    if !live(l, w) {
        return false;
    }
    if w.opened {
        return true;
    }
    if l.len() - at < kind::LB_LONG {
        return false;
    }
    !opening::saves(&l[at..])
}

// The whole pass: all that a call needs to know of the log, of which `forced` bytes are forced. Units that tidy have a loop of their own, whose
// numbers the compiler keeps at hand, and it asks nothing at a step that it did not ask before there were puts.
pub fn scan_log(l: &[u8], forced: u32) -> Scan
    ensures { result ≡ scanned forced l.now }
{
    let mut w = top(l);
    let mut e = Mark {
        ends: false,
        number: LogNo(0),
    };
    while live(l, w) {
        if saving(l, w) {
            e = noted(e, w.at, w.number, forced);
            w = saving_turn(l, w);
        } else {
            while tidies(l, w) {
                e = noted(e, w.at, w.number, forced);
                w = turn(l, w);
            }
        }
    }
    e = noted(e, w.at, w.number, forced);
    finish(l, w, e)
}
