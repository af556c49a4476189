// Whether the pages hold a well-formed tree. Keys ascend in a page, so that only a page's first and last key are compared with the
// entry above it and the next one.
ghost use Rattle.std.specs.Prelude.{◌≡◌, true, [], ◌++◌, ◌+◌, ◌*◌, ◌≤◌, ◌<◌, length, drop, eqb};
ghost use Rattle.field.specs.Test.{pick};
ghost use Rattle.page.specs.Page.{rows_of, pointing, count, rows, to_bases};
ghost use Rattle.page.specs.Each.{Each};
ghost use Rattle.page.specs.Pages.{page, pages};
ghost use Rattle.tree.specs.Tree.{below, pointed_once, root_entries, base_entries, starts_at_zero, headed, well_formed};
ghost use Rattle.tree.specs.Walk.{InForm, Ascending, Below, Above, Tallied, Roomy, bound, keys_within, kept_to, level_to, rightly};

use page::view;

// Above every key.
const TOP: u64 = 4294967296;

// Adds to counts how often n entries of the page pg point to each page.
fn tally(pg: &[u8], n: u16, counts: [u16; 64]) -> [u16; 64]
    requires { (16 + 8 * n ≤ length pg.now) × (pointing 0 63 (rows_of 8 n (drop 16 pg.now)) ≡ true) × Roomy counts n }
    ensures { Tallied result [] counts (rows_of 8 n (drop 16 pg.now)) }
{
    let mut sum = counts;
    let mut at: usize = 16;
    let mut left = n;
    while 0 < left {
        let q = field::get2(pg, at + 6) as usize;
        sum[q] = sum[q] + 1;
        at += 8;
        left -= 1;
    }
    sum
}

// The upper end for the entry before the left entries from the offset at: the next entry's key, hi where there is none.
fn bound_at(pg: &[u8], at: usize, left: u16, hi: u64) -> u64
    requires { at + 8 * left ≤ length pg.now }
    ensures { result ≡ bound hi (rows_of 8 left (drop at pg.now)) }
{
    if left == 0 {
        return hi;
    }
    field::get4(pg, at + 2) as u64
}

// Whether all keys of a page with rows of sz bytes are at least lo and less than hi.
pub fn within(pg: &[u8], sz: usize, lo: u32, hi: u64) -> bool
    requires pg_len { (length pg.now ≡ 256) × (6 ≤ sz) × (16 + sz * count pg.now ≤ 256) × (0 < count pg.now) }
    requires ascending { Ascending (rows sz pg.now) }
    ensures { result ≡ keys_within lo hi (rows sz pg.now) }
{
    if view::row_key(pg, sz, 0) < lo {
        return false;
    }
    let last = view::count(pg) as usize - 1;
    (view::row_key(pg, sz, last) as u64) < hi
}

// How many rows page p has.
pub fn count_at(w: &[u8], p: usize) -> u16
    requires { (length w.now ≡ 16384) × (p < 64) }
    ensures { result ≡ count (page p w.now) }
{
    field::get2(w, 256 * p + 2)
}

// Adds to counts how often the entries of the pages below n entries of the root pg point to each page.
fn tally_under(w: &[u8], pg: &[u8], n: u16, counts: [u16; 64]) -> [u16; 64]
    requires { InForm w.now × (16 + 8 * n ≤ length pg.now) × (to_bases (rows_of 8 n (drop 16 pg.now)) ≡ true) × Roomy counts (30 * n) }
    ensures { Tallied result [] counts (below 8 (pages w.now) (rows_of 8 n (drop 16 pg.now))) }
{
    let mut sum = counts;
    let mut at: usize = 16;
    let mut left = n;
    while 0 < left {
        let q = field::get2(pg, at + 6) as usize;
        let p = 256 * q;
        let more = tally(&w[p..p + 256], count_at(w, q), sum);
        sum = more;
        at += 8;
        left -= 1;
    }
    sum
}

// Whether a page with this letter may be pointed to n times: an empty page never, any other once.
fn right(letter: u8, n: u16) -> bool
    ensures { result ≡ eqb n (pick (eqb letter 101) 0 1) }
{
    if letter == b'e' {
        return n == 0;
    }
    n == 1
}

// Whether each page but the root is pointed to rightly, where counts says how often.
fn counts_right(w: &[u8], counts: [u16; 64]) -> bool
    requires { InForm w.now }
    ensures { result ≡ rightly counts 1 (drop 1 (pages w.now)) }
{
    let mut p: usize = 1;
    while p < 64 {
        if !right(w[256 * p + 1], counts[p]) {
            return false;
        }
        p += 1;
    }
    true
}

// Whether every non-empty page but the root is pointed to exactly once, an empty page never.
fn pointed_once(w: &[u8]) -> bool
    requires { InForm w.now }
    ensures { result ≡ pointed_once (root_entries (pages w.now) ++ base_entries (pages w.now)) 1 (drop 1 (pages w.now)) }
{
    let n = count_at(w, 0);
    let first = tally(&w[0..256], n, [0u16; 64]);
    let all = tally_under(w, &w[0..256], n, first);
    counts_right(w, all)
}

// Whether the first root entry, if there is one, has key 0.
fn starts_at_zero(w: &[u8]) -> bool
    requires { InForm w.now }
    ensures { result ≡ starts_at_zero (root_entries (pages w.now)) }
{
    if count_at(w, 0) == 0 {
        return true;
    }
    field::get4(w, 18) == 0
}

// Whether the page below each of n entries of the root pg has that entry's key as its first.
fn headed(w: &[u8], pg: &[u8], n: u16) -> bool
    requires { (length w.now ≡ 16384) × (16 + 8 * n ≤ length pg.now) × Each (Below 8 w.now) (rows_of 8 n (drop 16 pg.now)) }
    ensures { result ≡ headed (pages w.now) (rows_of 8 n (drop 16 pg.now)) }
{
    let mut at: usize = 16;
    let mut left = n;
    while 0 < left {
        let q = field::get2(pg, at + 6) as usize;
        if field::get4(w, 256 * q + 18) != field::get4(pg, at + 2) {
            return false;
        }
        at += 8;
        left -= 1;
    }
    true
}

// Whether each key below n entries of the page pg, in rows of sz bytes, is at least its entry's key and less than the next one's; hi
// stands behind the last.
fn kept(w: &[u8], pg: &[u8], n: u16, sz: usize, hi: u64) -> bool
    requires { (length w.now ≡ 16384) × (16 + 8 * n ≤ length pg.now) × (6 ≤ sz) × Each (Below sz w.now) (rows_of 8 n (drop 16 pg.now)) }
    ensures { result ≡ kept_to sz (pages w.now) hi (rows_of 8 n (drop 16 pg.now)) }
{
    let mut at: usize = 16;
    let mut left = n;
    while 0 < left {
        let lo = field::get4(pg, at + 2);
        let p = 256 * (field::get2(pg, at + 6) as usize);
        at += 8;
        left -= 1;
        let end = bound_at(pg, at, left, hi);
        if !within(&w[p..p + 256], sz, lo, end) {
            return false;
        }
    }
    true
}

// The same of the entries of each base page below n entries of the root pg, for the records below them.
fn level_kept(w: &[u8], pg: &[u8], n: u16) -> bool
    requires { (length w.now ≡ 16384) × (16 + 8 * n ≤ length pg.now) × Each (Above w.now) (rows_of 8 n (drop 16 pg.now)) }
    ensures { result ≡ level_to (pages w.now) 4294967296 (rows_of 8 n (drop 16 pg.now)) }
{
    let mut at: usize = 16;
    let mut left = n;
    while 0 < left {
        let q = field::get2(pg, at + 6) as usize;
        let p = 256 * q;
        at += 8;
        left -= 1;
        let end = bound_at(pg, at, left, TOP);
        if !kept(w, &w[p..p + 256], count_at(w, q), 16, end) {
            return false;
        }
    }
    true
}

// Whether 64 pages in form are a well-formed tree.
pub fn well_formed(w: &[u8]) -> bool
    requires { InForm w.now }
    ensures { result ≡ well_formed (pages w.now) }
{
    if !pointed_once(w) {
        return false;
    }
    if !starts_at_zero(w) {
        return false;
    }
    let n = count_at(w, 0);
    if !headed(w, &w[0..256], n) {
        return false;
    }
    if !kept(w, &w[0..256], n, 8, TOP) {
        return false;
    }
    level_kept(w, &w[0..256], n)
}
