// Whether a page is in form, by the rules of the kinds of page.
ghost use Rattle.std.specs.Prelude.{◌≡◌, ◌+◌, ◌*◌, ◌≤◌, ◌<◌, length, drop, leb};
ghost use Rattle.field.specs.Test.{both, pick};
ghost use Rattle.page.specs.Page.{rows_of, count, entries, ascend, pointing, last_base, is_root, is_base, is_leaf, is_empty, formed};
ghost use Rattle.page.specs.Shape.{head_shaped, body_shaped};
ghost use Rattle.page.specs.Pages.{pages, all_formed};

use crate::{bounds, view};

// The marks of an entry, `en`, and of a record, `rc`, as numbers of two bytes.
const EN: u16 = 28261;

const RC: u16 = 25458;

// The least number of four bytes whose upper two are an entry's mark.
const MARKED: u32 = 1852112896;

// Whether a page's header is that of its kind: 256 bytes, its letter, how many rows it has at least and at most, zeros in the spare bytes.
fn head_ok(pg: &[u8], sign: u8, least: u16, most: u16) -> bool
    ensures { result ≡ head_shaped sign least most pg.now }
{
    if pg.len() != 256 {
        return false;
    }
    if pg[0] != b'p' {
        return false;
    }
    if pg[1] != sign {
        return false;
    }
    let n = view::count(pg);
    if n < least {
        return false;
    }
    if most < n {
        return false;
    }
    field::zeros(&pg[8..16])
}

// Whether n entries from the body's start bear their mark, have keys that ascend and point to pages from .. to. An entry's page and the
// next one's mark stand side by side and are tested as one number; no test ends the loop early, so that several entries are tested at once.
fn entries_ascend(pg: &[u8], n: usize, from: u32, to: u32) -> bool
    requires { (16 + 8 * n ≤ length pg.now) × (to < 65536) × (from ≤ to) }
    ensures { result ≡ both (ascend 101 110 0 (rows_of 8 n (drop 16 pg.now))) (pointing from to (rows_of 8 n (drop 16 pg.now))) }
{
    if n == 0 {
        return true;
    }
    let low = MARKED + from;
    let high = MARKED + to;
    if field::get2(pg, 16) != EN {
        return false;
    }
    let last = n - 1;
    let mut ok = true;
    let mut i = 0;
    while i < last {
        let x = field::get4(pg, 8 * i + 22);
        ok = ok
            & (low <= x)
            & (x <= high)
            & (field::get4(pg, 8 * i + 18) < field::get4(pg, 8 * i + 26));
        i += 1;
    }
    let p = field::get2(pg, 8 * last + 22) as u32;
    ok & (from <= p) & (p <= to)
}

// Whether n records of 16 bytes from the offset start bear their mark, with keys that ascend.
pub fn records_ascend(s: &[u8], start: usize, n: usize) -> bool
    requires { start + 16 * n ≤ length s.now }
    ensures { result ≡ ascend 114 99 0 (rows_of 16 n (drop start s.now)) }
{
    if n == 0 {
        return true;
    }
    if field::get2(s, start) != RC {
        return false;
    }
    let last = n - 1;
    let mut i = 0;
    while i < last {
        let at = start + 16 * i;
        if field::get2(s, at + 16) != RC {
            return false;
        }
        if field::get4(s, at + 18) <= field::get4(s, at + 2) {
            return false;
        }
        i += 1;
    }
    true
}

// Whether a page's entries are in order, point to pages from .. to and have zeros behind them.
fn entries_ok(pg: &[u8], from: u32, to: u32) -> bool
    requires { (length pg.now ≡ 256) × (count pg.now ≤ 30) × (to < 65536) × (from ≤ to) }
    ensures { result ≡ both (body_shaped 8 101 110 pg.now) (pointing from to (entries pg.now)) }
{
    let n = view::count(pg) as usize;
    if !entries_ascend(pg, n, from, to) {
        return false;
    }
    let end = 16 + 8 * n;
    field::zeros(&pg[end..])
}

// Whether a page's records are in order and have zeros behind them.
fn records_ok(pg: &[u8]) -> bool
    requires { (length pg.now ≡ 256) × (count pg.now ≤ 15) }
    ensures { result ≡ body_shaped 16 114 99 pg.now }
{
    let n = view::count(pg) as usize;
    if !records_ascend(pg, 16, n) {
        return false;
    }
    let end = 16 + 16 * n;
    field::zeros(&pg[end..])
}

// Whether a page is a root page.
pub fn is_root(pg: &[u8]) -> bool
    ensures { result ≡ is_root pg.now }
{
    if !head_ok(pg, b'r', 0, 30) {
        return false;
    }
    entries_ok(pg, bounds::FIRST_BASE as u32, bounds::LAST_BASE as u32)
}

// Whether a page is a base page.
pub fn is_base(pg: &[u8]) -> bool
    ensures { result ≡ is_base pg.now }
{
    if !head_ok(pg, b'b', 1, 30) {
        return false;
    }
    entries_ok(pg, bounds::FIRST_LEAF as u32, bounds::LAST_LEAF as u32)
}

// Whether a page is a leaf page.
pub fn is_leaf(pg: &[u8]) -> bool
    ensures { result ≡ is_leaf pg.now }
{
    if !head_ok(pg, b'l', 1, 15) {
        return false;
    }
    records_ok(pg)
}

// Whether a page is an empty page.
pub fn is_empty(pg: &[u8]) -> bool
    ensures { result ≡ is_empty pg.now }
{
    if !head_ok(pg, b'e', 0, 0) {
        return false;
    }
    records_ok(pg)
}

// Whether a page is of the kind that belongs in place p, which is not the root's: a base page or a leaf page.
fn of_place(p: usize, pg: &[u8]) -> bool
    ensures { result ≡ pick (leb p last_base) (is_base pg.now) (is_leaf pg.now) }
{
    if p <= bounds::LAST_BASE as usize {
        return is_base(pg);
    }
    is_leaf(pg)
}

// Whether a page is in form as page p, which is not the root: of the kind that belongs there, or empty.
fn below_root(p: usize, pg: &[u8]) -> bool
    requires { 1 ≤ p }
    ensures { result ≡ formed p pg.now }
{
    if of_place(p, pg) {
        return true;
    }
    is_empty(pg)
}

// Whether a page is in form as page p: page 0 is the root.
pub fn formed(p: usize, pg: &[u8]) -> bool
    ensures { result ≡ formed p pg.now }
{
    if p == 0 {
        return is_root(pg);
    }
    below_root(p, pg)
}

// Whether all 64 pages are in form, each in its place. The root is tested apart, so that what the loop calls is small enough to be compiled
// in its place: a page that is handed on by a function of its own keeps the processor waiting.
pub fn all_formed(w: &[u8]) -> bool
    requires { length w.now ≡ 16384 }
    ensures { result ≡ all_formed 0 (pages w.now) }
{
    if !is_root(&w[0..256]) {
        return false;
    }
    let mut p = 1;
    while p < 64 {
        let at = 256 * p;
        if !below_root(p, &w[at..at + 256]) {
            return false;
        }
        p += 1;
    }
    true
}
