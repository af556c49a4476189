// What the range reader rests on: where it starts and what a step gives, on the pages and a position of plain numbers. Both take any pages,
// of any length, and any position; each read is tested against the page's letter and count first.
#![tactic(auto)]

ghost use Rattle.std.specs.Prelude.{◌≡◌, ◌+◌, ◌*◌, ◌≤◌, ◌<◌, length};
ghost use Rattle.page.specs.Page.{count, rows};
ghost use Rattle.page.specs.Pages.{page};
ghost use Rattle.tree.specs.Reader.{Sound};
ghost use Rattle.ranging.specs.Reading.{the_end, has_row, entry_to, first_below, leaf_after, settled, next_from, rows_below, first_from, reached, start_from, nothing};

use page::{form, view};
use tree::walk::Place;
use tree::well;

// Where a reader starts: list's reply of these pages, and the position, which is the end where the pages are refused.
#[repr(C)]
#[derive(Clone, Copy)]
pub struct Reached {
    pub reply: u8,
    pub at: Place,
}

// What a step gives: whether a record was there, its key and value, and the position after it.
#[repr(C)]
#[derive(Clone, Copy)]
pub struct Step {
    pub found: bool,
    pub key: u32,
    pub value: [u8; 10],
    pub next: Place,
}

// The position behind all records.
fn end() -> Place
    ensures { result ≡ the_end }
{
    Place {
        root: 0,
        base: 0,
        entry: 0,
        leaf: 0,
        row: 0,
    }
}

// Whether page p bears this letter, has at most this many rows, and row i is one of them.
fn has_row(w: &[u8], sign: u8, most: u16, p: usize, i: usize) -> bool
    requires { length w.now ≡ 16384 }
    ensures { result ≡ has_row sign most p i w.now }
{
    if 64 <= p {
        return false;
    }
    if w[256 * p + 1] != sign {
        return false;
    }
    let n = well::count_at(w, p);
    if most < n {
        return false;
    }
    i < (n as usize)
}

// The page that entry i of page p points to.
fn entry_to(w: &[u8], p: usize, i: usize) -> usize
    requires { (length w.now ≡ 16384) × (p < 64) × (count (page p w.now) ≤ 30) × (i < count (page p w.now)) }
    ensures { result ≡ entry_to p i w.now }
{
    field::get2(w, 256 * p + (16 + 8 * i + 6)) as usize
}

// The first record below entry i of base page b, o entries of the root being passed.
fn first_below(w: &[u8], o: usize, b: usize, i: usize) -> Place
    requires { (length w.now ≡ 16384) × (b < 64) × (count (page b w.now) ≤ 30) × (i < count (page b w.now)) }
    ensures { result ≡ first_below o b i w.now }
{
    let leaf = entry_to(w, b, i);
    Place {
        root: o,
        base: b,
        entry: i + 1,
        leaf: leaf,
        row: 0,
    }
}

// The first record behind the leaf page of a position.
fn leaf_after(w: &[u8], at: Place) -> Place
    requires { length w.now ≡ 16384 }
    ensures { result ≡ leaf_after at w.now }
{
    if has_row(w, b'b', 30, at.base, at.entry) {
        return first_below(w, at.root, at.base, at.entry);
    }
    if !has_row(w, b'r', 30, 0, at.root) {
        return end();
    }
    let b = entry_to(w, 0, at.root);
    if !has_row(w, b'b', 30, b, 0) {
        return end();
    }
    first_below(w, at.root + 1, b, 0)
}

// The position itself where a record stands there, else the first behind its leaf page.
fn settled(w: &[u8], at: Place) -> Place
    requires { length w.now ≡ 16384 }
    ensures { result ≡ settled at w.now }
{
    if has_row(w, b'l', 15, at.leaf, at.row) {
        return at;
    }
    leaf_after(w, at)
}

// No record.
fn nothing() -> Step
    ensures { result ≡ nothing }
{
    let at = end();
    Step {
        found: false,
        key: 0,
        value: [0u8; 10],
        next: at,
    }
}

// The record at a position, and the position after it.
pub fn step_at(pages: &[u8], at: Place) -> Step
    ensures { result ≡ next_from pages.now at }
{
    if pages.len() != 16384 {
        return nothing();
    }
    if at.leaf == 0 {
        return nothing();
    }
    if !has_row(pages, b'l', 15, at.leaf, at.row) {
        return nothing();
    }
    let p = 256 * at.leaf;
    let key = view::row_key(&pages[p..p + 256], 16, at.row);
    let value = view::record_value(&pages[p..p + 256], at.row);
    let next = settled(
        pages,
        Place {
            root: at.root,
            base: at.base,
            entry: at.entry,
            leaf: at.leaf,
            row: at.row + 1,
        },
    );
    Step {
        found: true,
        key: key,
        value: value,
        next: next,
    }
}

// How many rows of a page, of sz bytes each, have a key below k, from the front.
fn rows_below(pg: &[u8], sz: usize, k: u64) -> usize
    requires { (length pg.now ≡ 256) × (8 ≤ sz) × (16 + sz * count pg.now ≤ 256) }
    ensures { result ≡ rows_below k (rows sz pg.now) }
{
    let mut passed: usize = 0;
    let mut at: usize = 16;
    let mut left = view::count(pg);
    while 0 < left {
        if k <= field::get4(pg, at + 2) as u64 {
            return passed;
        }
        passed += 1;
        at += sz;
        left -= 1;
    }
    passed
}

// The same of page p.
fn rows_below_at(w: &[u8], p: usize, sz: usize, k: u64) -> usize
    requires { (length w.now ≡ 16384) × (p < 64) × (8 ≤ sz) × (16 + sz * count (page p w.now) ≤ 256) }
    ensures { result ≡ rows_below k (rows sz (page p w.now)) }
{
    let at = 256 * p;
    rows_below(&w[at..at + 256], sz, k)
}

// The first record whose key is at least this one.
fn seek(w: &[u8], key: u32) -> Place
    requires { Sound w.now }
    ensures { result ≡ first_from key w.now }
{
    let past = key as u64 + 1;
    let o = rows_below_at(w, 0, 8, past);
    if o == 0 {
        return end();
    }
    let b = entry_to(w, 0, o - 1);
    let i = rows_below_at(w, b, 8, past);
    let p = entry_to(w, b, i - 1);
    let r = rows_below_at(w, p, 16, key as u64);
    settled(
        w,
        Place {
            root: o,
            base: b,
            entry: i,
            leaf: p,
            row: r,
        },
    )
}

// A reader of these pages that is refused.
fn refused(reply: u8) -> Reached
    ensures { result ≡ reached reply the_end }
{
    let at = end();
    Reached {
        reply: reply,
        at: at,
    }
}

// Where a reader starts that is to give the records from this key on.
pub fn start_at(pages: &[u8], key: u32) -> Reached
    ensures { result ≡ start_from pages.now key }
{
    if pages.len() != 16384 {
        return refused(1);
    }
    if !form::all_formed(pages) {
        return refused(3);
    }
    if !well::well_formed(pages) {
        return refused(8);
    }
    let at = seek(pages, key);
    Reached { reply: 0, at: at }
}
