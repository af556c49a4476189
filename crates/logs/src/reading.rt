// Whether a record stands at an offset of the log: the record that must stand there is written into a few bytes, as many as an LM has, the
// longest, and these are compared.
ghost use Rattle.std.specs.Prelude.{◌≡◌, true, false, List, [], ◌+◌, ◌-◌, ◌*◌, ◌%◌, ◌≤◌, ◌<◌, length, take, drop, leb};
ghost use Rattle.field.specs.Test.{pick};
ghost use Rattle.field.specs.Bytes.{starts};
ghost use Rattle.page.specs.Page.{rows_of, ascend};
ghost use Rattle.logs.specs.Log.{largest, past, all_bear, saves_at};
ghost use Rattle.logs.specs.Record.{check, begin, image, length_of, Image, LE, encode_check};
ghost use Rattle.logs.specs.Write.{check_of};
ghost use Rattle.logs.specs.Scan.{images_in};
ghost use Rattle.logs.specs.Stand.{stands, stands_in, stands_modify, stands_out, stands_begin, stands_image};

use crate::{kind, opening, writing};
use field::{LogNo, PageNo, UnitNo};
use page::{bounds, form};

// Whether the first n bytes of b stand in l from the offset at. A record's length is a number of words of four bytes, and so is n.
fn same_at(l: &[u8], at: usize, b: &[u8], n: usize) -> bool
    requires { (n % 4 ≡ 0) × (n ≤ length b.now) × (at + n ≤ length l.now) }
    ensures { result ≡ starts (take n b.now) (drop at l.now) }
{
    let words = n / 4;
    let mut k = 0;
    while k < words {
        if field::get4(l, at + 4 * k) != field::get4(b, 4 * k) {
            return false;
        }
        k += 1;
    }
    true
}

// Whether the LE of this unit stands there, with the log number n.
pub fn is_end(l: &[u8], at: usize, n: LogNo, unit: UnitNo) -> bool
    requires { (at ≤ length l.now) × (1 ≤ n.0) }
    ensures { result ≡ stands n.0 (LE unit.0 []) (drop at l.now) }
{
    let long = kind::size_of(kind::LE, 0);
    if l.len() - at < long {
        return false;
    }
    let mut b = [0u8; kind::LM_LONG];
    writing::put_end(&mut b, 0, n, unit);
    same_at(l, at, &b, long)
}

// Whether an LM of these pages stands there, whatever its key.
pub fn is_modify(l: &[u8], at: usize, n: LogNo, base: PageNo, old: PageNo, new: PageNo) -> bool
    requires { (at ≤ length l.now) × (1 ≤ n.0) }
    ensures { result ≡ stands_modify n.0 base.0 old.0 new.0 (drop at l.now) }
{
    let long = kind::size_of(kind::LM, 0);
    if l.len() - at < long {
        return false;
    }
    let key = field::get4(l, at + 20);
    let mut b = [0u8; kind::LM_LONG];
    writing::put_modify(&mut b, 0, n, base, old, new, key);
    same_at(l, at, &b, long)
}

// Whether an LI of these pages stands there, of as many records as its LO, which stands `back` records before.
pub fn is_in(l: &[u8], at: usize, n: LogNo, org: PageNo, dest: PageNo, back: u32, rows: u16) -> bool
    requires { (at ≤ length l.now) × (1 ≤ n.0) }
    ensures { result ≡ stands_in n.0 org.0 dest.0 back rows (drop at l.now) }
{
    let long = kind::size_of(kind::LI, 0);
    if l.len() - at < long {
        return false;
    }
    let mut b = [0u8; kind::LM_LONG];
    writing::put_in(&mut b, 0, n, org, dest, rows, back);
    same_at(l, at, &b, long)
}

// How many records the begin record at the front of m carries.
pub fn carried(m: &[u8]) -> u16
    requires { begin.fixed ≤ length m.now }
    ensures { result ≡ pick (saves_at m.now) 1 0 }
{
    if opening::saves(m) {
        return 1;
    }
    0
}

// Whether the LB of this unit, which tidies, stands at the front of m. Of its bytes those are compared that an LE has too: header and unit number.
pub fn is_begin(m: &[u8], n: LogNo, unit: UnitNo) -> bool
    requires { (begin.fixed ≤ length m.now) × (saves_at m.now ≡ false) }
    ensures { result ≡ stands_begin n.0 unit.0 m.now }
{
    if !opening::begin_ok(m) {
        return false;
    }
    if !opening::spare_zero(m) {
        return false;
    }
    let mut b = [0u8; kind::LM_LONG];
    writing::put_unit(&mut b, 0, kind::LB, 0, n, LogNo(0), unit);
    same_at(m, 0, &b, kind::size_of(kind::LE, 0))
}

// The same of a put or delete; where m is too short for that, none stands there.
pub fn is_save(m: &[u8], n: LogNo, unit: UnitNo) -> bool
    requires { begin.fixed ≤ length m.now → saves_at m.now ≡ true }
    ensures { result ≡ stands_begin n.0 unit.0 m.now }
{
    if m.len() < kind::size_of(kind::LB, 1) {
        return false;
    }
    if !opening::save_ok(m) {
        return false;
    }
    if !opening::spare_zero(m) {
        return false;
    }
    let mut b = [0u8; kind::LM_LONG];
    writing::put_unit(&mut b, 0, kind::LB, 1, n, LogNo(0), unit);
    same_at(m, 0, &b, kind::size_of(kind::LE, 0))
}

fn larger(a: u32, b: u32) -> u32
    ensures { result ≡ pick (leb a b) b a }
{
    if a <= b {
        return b;
    }
    a
}

// The largest key of n records of 16 bytes from the offset start, which ascend, at least `from`: no other can be larger than the last.
pub fn largest_key(m: &[u8], from: u32, start: usize, n: u16) -> u32
    requires { (start + 16 * n ≤ length m.now) × (1 ≤ n) × (ascend 114 99 0 (rows_of 16 n (drop start m.now)) ≡ true) }
    ensures { result ≡ largest from (rows_of 16 n (drop start m.now)) }
{
    let last = start + 16 * (n as usize - 1);
    larger(from, field::get4(m, last + 2))
}

// Whether an LO of these pages stands at the front of m, of 1 to 15 records that bear marks and ascend.
pub fn is_out(m: &[u8], n: LogNo, org: PageNo, dest: PageNo) -> bool
    requires { 1 ≤ n.0 }
    ensures { result ≡ stands_out n.0 org.0 dest.0 m.now }
{
    let fixed = kind::size_of(kind::LO, 0);
    if m.len() < fixed {
        return false;
    }
    let k = field::get2(m, 16);
    if k < 1 {
        return false;
    }
    if 15 < k {
        return false;
    }
    if m.len() < kind::size_of(kind::LO, k) {
        return false;
    }
    if !form::records_ascend(m, fixed, k as usize) {
        return false;
    }
    let mut b = [0u8; kind::LM_LONG];
    writing::put_paged(&mut b, 0, kind::LO, k, n, org, dest, k);
    same_at(m, 0, &b, fixed)
}

// Whether an LG stands at the front of m whose page is not below `least`, its image in the form of that page.
pub fn is_image(m: &[u8], n: LogNo, least: usize) -> bool
    requires { 1 ≤ n.0 }
    ensures { (is : List Image) → past 0 is ≡ least → result ≡ stands_image n.0 is m.now }
{
    let long = kind::size_of(kind::LG, 1);
    if m.len() < long {
        return false;
    }
    let p = field::get2(m, 12);
    if (p as usize) < least {
        return false;
    }
    if bounds::LAST_LEAF < p {
        return false;
    }
    let from = kind::size_of(kind::LG, 0);
    if !form::formed(p as usize, &m[from..long]) {
        return false;
    }
    let mut b = [0u8; kind::LM_LONG];
    writing::put_image_head(&mut b, 0, n, PageNo(p));
    same_at(m, 0, &b, from)
}

// Whether the images of k LGs that stand one behind the other at the front of m bear the number n.
pub fn all_bear(m: &[u8], k: usize, n: LogNo) -> bool
    requires { length_of image 1 * k ≤ length m.now }
    ensures { result ≡ all_bear n.0 (images_in k m.now) }
{
    let long = kind::size_of(kind::LG, 1);
    let mut at = 0;
    let mut left = k;
    while 0 < left {
        if field::get4(m, at + kind::LG_LONG + 4) != n.0 {
            return false;
        }
        at += long;
        left -= 1;
    }
    true
}

// Whether the check record of these numbers stands at the front of l.
pub fn is_check(l: &[u8], n: LogNo, unit: UnitNo, known: bool, key: u32) -> bool
    requires { check.fixed ≤ length l.now }
    ensures { result ≡ starts (encode_check (check_of n.0 unit.0 known key)) l.now }
{
    let mut b = [0u8; kind::LM_LONG];
    writing::put_check(&mut b, n, unit, known, key);
    same_at(l, 0, &b, kind::size_of(kind::LC, 0))
}
