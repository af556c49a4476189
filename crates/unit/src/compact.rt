// The choice of a compact unit: the leaves are walked in key order, to the first whose group has two leaves or more. A group never leaves
// its base page, so that it is a run of that page's entries.
ghost use Rattle.std.specs.Prelude.{◌≡◌, true, [], ◌++◌, ◌+◌, ◌-◌, ◌*◌, ◌≤◌, ◌<◌, length, drop, get_or, leb};
ghost use Rattle.std.proofs.Math.Option.{some};
ghost use Rattle.field.specs.Test.{both, pick, when};
ghost use Rattle.field.specs.Bytes.{zeroes};
ghost use Rattle.page.specs.Page.{rows_of, key_of, records};
ghost use Rattle.page.specs.Pages.{page, pages};
ghost use Rattle.page.specs.Each.{Each};
ghost use Rattle.tree.specs.Tree.{leaves_under, well_formed};
ghost use Rattle.tree.specs.Walk.{InForm, Spot, Below};
ghost use Rattle.unit.specs.Choice.{fill_of, exceeds, lowest_empty, compact_of, larger, choose_compact, compact_unit};
ghost use Rattle.unit.specs.Chosen.{Picks, leaf_of, to_pages, joins, Low, top_of};

use crate::choice;
use crate::choice::Choice;
use field::PageNo;
use page::bounds;
use tree::well;

// The fill that is meant: 0 means 12.
fn fill_of(fill: u32) -> u16
    requires { fill ≤ 15 }
    ensures { (result ≡ fill_of fill) × (result ≤ 15) }
{
    if fill == 0 {
        return 12;
    }
    fill as u16
}

fn larger(a: PageNo, b: PageNo) -> PageNo
    ensures { result.0 ≡ larger a.0 b.0 }
{
    if a.0 <= b.0 {
        return b;
    }
    a
}

// The lowest empty leaf page above `low` and below c, c where there is none.
pub fn lowest_empty(w: &[u8], low: PageNo, c: PageNo) -> PageNo
    requires { InForm w.now × Low low.0 × (c.0 ≤ 64) }
    ensures { result.0 ≡ lowest_empty low.0 c.0 0 (pages w.now) }
{
    let above = low.0;
    let mut p = above + 1;
    while p < c.0 {
        if choice::empty_at(w, PageNo(p)) {
            return PageNo(p);
        }
        p += 1;
    }
    c
}

// The largest of `from` and the pages that n entries of the page pg point to.
fn top_of(pg: &[u8], n: u16, from: PageNo) -> PageNo
    requires { 16 + 8 * n ≤ length pg.now }
    ensures { result.0 ≡ top_of from.0 (rows_of 8 n (drop 16 pg.now)) }
{
    let mut low = from;
    let mut at: usize = 16;
    let mut left = n;
    while 0 < left {
        low = larger(low, PageNo(field::get2(pg, at + 6)));
        at += 8;
        left -= 1;
    }
    low
}

// Whether the smallest key of the leaf page p exceeds LK, if there is one.
fn exceeds(w: &[u8], p: PageNo, there: bool, lk: u32) -> bool
    requires { (length w.now ≡ 16384) × Spot 16 w.now p.0 }
    ensures { result ≡ exceeds (key_of (get_or (records (page p.0 w.now)) 0 [])) (when there lk) }
{
    if !there {
        return true;
    }
    lk < field::get4(w, 256 * (p.0 as usize) + 18)
}

// How many of the leaves below n entries from the offset start of the page pg join a group that has `from` records.
fn joining(w: &[u8], pg: &[u8], start: usize, n: u16, fill: u16, from: u16) -> u16
    requires w_len { (length w.now ≡ 16384) × (start + 8 * n ≤ length pg.now) × (from ≤ 15) × (fill ≤ 15) }
    requires each { Each (Below 16 w.now) (rows_of 8 n (drop start pg.now)) }
    ensures { (result ≡ joins (pages w.now) fill from (rows_of 8 n (drop start pg.now))) × (result ≤ n) }
{
    let mut sum = from;
    let mut at = start;
    let mut left = n;
    while 0 < left {
        let p = field::get2(pg, at + 6);
        let more = sum + well::count_at(w, p as usize);
        if fill < more {
            return n - left;
        }
        sum = more;
        at += 8;
        left -= 1;
    }
    n
}

// The pages that k entries from the offset start of the page pg point to, then zeros.
fn listing(pg: &[u8], start: usize, k: usize) -> [u16; 8]
    requires { (k ≤ 8) × (start + 8 * k ≤ length pg.now) }
    ensures { result ≡ to_pages (rows_of 8 k (drop start pg.now)) ++ zeroes (8 - k) }
{
    let mut list = [0u16; 8];
    let mut i: usize = 0;
    while i < k {
        list[i] = field::get2(pg, start + 8 * i + 6);
        i += 1;
    }
    list
}

// At most seven.
fn seven(n: u16) -> u16
    ensures { result ≡ pick (leb n 7) n 7 }
{
    if n <= 7 {
        return n;
    }
    7
}

// The compact unit of the k leaves below the entries from the offset start of the base page b, whose bytes are pg: c is the first leaf's
// page, and `low` is L.
fn compacting(
    w: &[u8],
    pg: &[u8],
    start: usize,
    k: usize,
    b: PageNo,
    c: PageNo,
    fill: u16,
    low: PageNo,
) -> Choice
    requires in_form { InForm w.now × Low low.0 × (c.0 < 64) × (fill ≤ 15) }
    requires k_bound { (k ≤ 8) × (start + 8 * k ≤ length pg.now) }
    ensures { Picks result (λ u. some (compact_of u fill (leaf_of b.0 c.0) (to_pages (rows_of 8 k (drop start pg.now))) (lowest_empty low.0 c.0 0 (pages w.now)))) }
{
    let dest = lowest_empty(w, low, c);
    let leaves = listing(pg, start, k);
    Choice {
        found: true,
        kind: 1,
        fill: fill as u8,
        base_count: 1,
        leaf_count: k as u8,
        bases: [b.0, 0],
        leaves: leaves,
        dest: dest,
    }
}

// Whether a leaf on page p begins a unit where k leaves join it: it is not alone, and its smallest key exceeds LK.
fn begins(w: &[u8], p: PageNo, k: u16, there: bool, lk: u32) -> bool
    requires { (length w.now ≡ 16384) × Spot 16 w.now p.0 }
    ensures { result ≡ both (exceeds (key_of (get_or (records (page p.0 w.now)) 0 [])) (when there lk)) (leb 1 k) }
{
    if k < 1 {
        return false;
    }
    exceeds(w, p, there, lk)
}

// The compact unit of the first leaf below n entries of the base page b, whose bytes are pg, that begins one; `from` is L before these.
fn compact_in(
    w: &[u8],
    pg: &[u8],
    n: u16,
    b: PageNo,
    fill: u16,
    there: bool,
    lk: u32,
    from: PageNo,
) -> Choice
    requires in_form { InForm w.now × Low from.0 × (16 + 8 * n ≤ length pg.now) × (fill ≤ 15) }
    requires each { Each (Below 16 w.now) (rows_of 8 n (drop 16 pg.now)) }
    ensures { Picks result (λ u. choose_compact u fill from.0 (when there lk) (pages w.now) (leaves_under (pages w.now) b.0 (rows_of 8 n (drop 16 pg.now)))) }
{
    let mut low = from;
    let mut at: usize = 16;
    let mut left = n;
    while 0 < left {
        let c = PageNo(field::get2(pg, at + 6));
        let k = joining(
            w,
            pg,
            at + 8,
            seven(left - 1),
            fill,
            well::count_at(w, c.0 as usize),
        );
        if begins(w, c, k, there, lk) {
            return compacting(w, pg, at, k as usize + 1, b, c, fill, low);
        }
        low = larger(low, c);
        at += 8;
        left -= 1;
    }
    choice::nothing()
}

// The compact unit with this fill, LK being lk if it is there.
pub fn choose_compact(w: &[u8], fill: u32, there: bool, lk: u32) -> Choice
    requires { InForm w.now × (well_formed (pages w.now) ≡ true) × (fill ≤ 15) }
    ensures { Picks result (λ u. compact_unit u fill (when there lk) (pages w.now)) }
{
    let most = fill_of(fill);
    let mut low = PageNo(bounds::LAST_BASE);
    let mut at: usize = 16;
    let mut left = well::count_at(w, 0);
    while 0 < left {
        let q = PageNo(field::get2(w, at + 6));
        let n = well::count_at(w, q.0 as usize);
        let o = 256 * (q.0 as usize);
        let found = compact_in(w, &w[o..o + 256], n, q, most, there, lk, low);
        if found.found {
            return found;
        }
        low = top_of(&w[o..o + 256], n, low);
        at += 8;
        left -= 1;
    }
    choice::nothing()
}
