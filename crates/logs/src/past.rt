// Past a record: the numbers after it. A pass that has compared the record makes them so, and `past` goes on over a log that is known to
// read, by the record's mark alone.
ghost use Rattle.std.specs.Prelude.{◌≡◌, true, ◌+◌, ◌≤◌, ◌<◌, length, drop, eqb};
ghost use Rattle.field.specs.Test.{pick};
ghost use Rattle.field.specs.Bytes.{le2, le4};
ghost use Rattle.page.specs.Page.{rows_of};
ghost use Rattle.logs.specs.Record.{begin, out, into, modify, image, end, length_of};
ghost use Rattle.logs.specs.Log.{largest};
ghost use Rattle.logs.specs.Scan.{begun, went, bare_long, bare_key, ended, turned, Ready};
ghost use Rattle.logs.specs.Carries.{Carries};

use crate::scan::Walk;
use crate::{kind, opening, reading};
use field::{LogNo, UnitNo};

// After an LB that carries `rows` records.
pub fn begun(w: Walk, rows: u16) -> Walk
    requires { (rows ≤ 1) × (w.number.0 < 4294967295) × (w.unit.0 < 4294967295) × (w.at + length_of begin rows < 18446744073709551616) }
    ensures { result ≡ begun w rows }
{
    Walk {
        ok: true,
        at: w.at + kind::size_of(kind::LB, rows),
        number: LogNo(w.number.0 + 1),
        unit: UnitNo(w.unit.0 + 1),
        known: w.known,
        lk: w.lk,
        opened: true,
        begin: w.at,
        done: 0,
        last: w.at,
        rows: 0,
        first: 0,
        key: 0,
        moved: 0,
    }
}

// How many records the unit's first record carries, after one that carries `rows`.
fn first_rows(done: usize, rows: u16, first: u16) -> u16
    ensures { result ≡ pick (eqb done 0) rows first }
{
    if done == 0 {
        return rows;
    }
    first
}

// After an LO, LI, LM or LG of so many bytes.
fn went(w: Walk, long: usize, rows: u16, key: u32, moved: u32) -> Walk
    requires { (w.number.0 < 4294967295) × (w.at + long < 18446744073709551616) × (w.done < w.at + long) }
    ensures { result ≡ went w long rows key moved }
{
    let unit = w.unit;
    Walk {
        ok: true,
        at: w.at + long,
        number: LogNo(w.number.0 + 1),
        unit,
        known: w.known,
        lk: w.lk,
        opened: true,
        begin: w.begin,
        done: w.done + 1,
        last: w.at,
        rows,
        first: first_rows(w.done, rows, w.first),
        key,
        moved,
    }
}

// After the LO at the front of m.
pub fn taken_out(m: &[u8], w: Walk) -> Walk
    requires { (w.number.0 < 4294967295) × (w.at + length m.now < 18446744073709551616) × (w.done ≤ w.at) × Carries m.now }
    ensures { result ≡ went w (length_of out (le2 m.now 16)) (le2 m.now 16) 0 (largest w.moved (rows_of 16 (le2 m.now 16) (drop 20 m.now))) }
{
    let k = field::get2(m, 16);
    let moved = reading::largest_key(m, w.moved, kind::size_of(kind::LO, 0), k);
    went(w, kind::size_of(kind::LO, k), k, 0, moved)
}

// After an LI.
pub fn brought_in(w: Walk) -> Walk
    requires { (w.number.0 < 4294967295) × (w.at + into.fixed < 18446744073709551616) × (w.done ≤ w.at) }
    ensures { result ≡ went w (length_of into 0) 0 0 w.moved }
{
    went(w, kind::size_of(kind::LI, 0), 0, 0, w.moved)
}

// After the LM at the front of m.
pub fn pointed(m: &[u8], w: Walk) -> Walk
    requires { (w.number.0 < 4294967295) × (w.at + modify.fixed < 18446744073709551616) × (w.done ≤ w.at) × (modify.fixed ≤ length m.now) }
    ensures { result ≡ went w (length_of modify 0) 0 (le4 m.now 20) w.moved }
{
    let key = field::get4(m, 20);
    went(w, kind::size_of(kind::LM, 0), 0, key, w.moved)
}

// After an LG.
pub fn imaged(w: Walk) -> Walk
    requires { (w.number.0 < 4294967295) × (w.at + length_of image 1 < 18446744073709551616) × (w.done ≤ w.at) }
    ensures { result ≡ went w (length_of image 1) 0 0 w.moved }
{
    went(w, kind::size_of(kind::LG, 1), 0, 0, w.moved)
}

// LK after a unit has ended: whether it is there.
fn known_after(compact: bool, known: bool) -> bool
    ensures { result ≡ pick compact true known }
{
    if compact {
        return true;
    }
    known
}

// LK after a unit has ended.
fn lk_after(compact: bool, moved: u32, lk: u32) -> u32
    ensures { result ≡ pick compact moved lk }
{
    if compact {
        return moved;
    }
    lk
}

// After an LE.
pub fn ended(w: Walk, compact: bool) -> Walk
    requires { (w.number.0 < 4294967295) × (w.at + end.fixed < 18446744073709551616) }
    ensures { result ≡ ended w compact }
{
    let unit = w.unit;
    Walk {
        ok: true,
        at: w.at + kind::size_of(kind::LE, 0),
        number: LogNo(w.number.0 + 1),
        unit,
        known: known_after(compact, w.known),
        lk: lk_after(compact, w.moved, w.lk),
        opened: false,
        begin: 0,
        done: 0,
        last: 0,
        rows: 0,
        first: 0,
        key: 0,
        moved: 0,
    }
}

// How long an LI, LM or LG is, by its sign.
fn bare_long(sign: u8) -> usize
    ensures { result ≡ bare_long sign }
{
    if sign == kind::sign(kind::LI) {
        return kind::size_of(kind::LI, 0);
    }
    if sign == kind::sign(kind::LM) {
        return kind::size_of(kind::LM, 0);
    }
    kind::size_of(kind::LG, 1)
}

// The key of an LM at the front of m; 0 for an LI or LG.
fn bare_key(m: &[u8], sign: u8) -> u32
    requires { bare_long sign ≤ length m.now }
    ensures { result ≡ bare_key sign m.now }
{
    if sign == kind::sign(kind::LM) {
        return field::get4(m, 20);
    }
    0
}

// Past the next record of a log that has one there in form: nothing is compared. An LI, LM and LG go one way, so that the whole is small enough
// to be compiled in its place where a log is repeated.
pub fn past(l: &[u8], w: Walk) -> Walk
    requires { Ready l.now w × ((turned l.now w).ok ≡ true) }
    ensures { result ≡ turned l.now w }
{
    let at = w.at;
    let begin = w.begin;
    let sign = l[at + 1];
    if sign == kind::sign(kind::LO) {
        return taken_out(&l[at..], w);
    }
    if sign == kind::sign(kind::LB) {
        return begun(w, reading::carried(&l[at..]));
    }
    if sign == kind::sign(kind::LE) {
        return ended(w, l[begin + opening::TYPE_AT] == 1);
    }
    went(w, bare_long(sign), 0, bare_key(&l[at..], sign), w.moved)
}
