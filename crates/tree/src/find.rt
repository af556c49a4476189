// Find: from the root to a base page to a leaf. Each page on the way is tested once; three are read at most.
ghost use Rattle.std.specs.Prelude.{◌≡◌, [], ◌+◌, ◌*◌, ◌≤◌, ◌<◌, length, drop};
ghost use Rattle.field.specs.Bytes.{part, zeroes};
ghost use Rattle.page.specs.Page.{rows_of, last_base, first_leaf};
ghost use Rattle.page.specs.Pages.{page};
ghost use Rattle.tree.specs.Answer.{look_up, in_leaf};
ghost use Rattle.tree.specs.Way.{last_to, passable, way_down, way_on, record_in, leaf_in, reply_of, bytes_of};

use page::{form, view};

// The page below, or the reply where the way ends.
#[derive(Clone, Copy)]
pub enum Way {
    Refused(u8),
    To(usize),
}

// What find returns: its reply, and the ten value bytes, zeros where there is none.
#[repr(C)]
#[derive(Clone, Copy)]
pub struct Found {
    pub reply: u8,
    pub value: [u8; 10],
}

// The page that the last of n entries whose key isn't above the wanted one points to.
fn last_not_above(pg: &[u8], n: u16, key: u32) -> Way
    requires { 16 + 8 * n ≤ length pg.now }
    ensures { result ≡ last_to key (rows_of 8 n (drop 16 pg.now)) }
{
    let mut left = n as usize;
    while 0 < left {
        left -= 1;
        let at = 16 + 8 * left;
        if field::get4(pg, at + 2) <= key {
            return Way::To(field::get2(pg, at + 6) as usize);
        }
    }
    Way::Refused(15)
}

// Whether a page may be passed as page p, root or base.
fn node_ok(p: usize, pg: &[u8]) -> bool
    requires { p < first_leaf }
    ensures { result ≡ passable p pg.now }
{
    if p == 0 {
        return form::is_root(pg);
    }
    form::is_base(pg)
}

// The page below the page pg, a root or base page as page p.
fn way_on(p: usize, pg: &[u8], key: u32) -> Way
    requires { (length pg.now ≡ 256) × (p < first_leaf) }
    ensures { result ≡ way_on key p pg.now }
{
    if !node_ok(p, pg) {
        return Way::Refused(3);
    }
    last_not_above(pg, view::count(pg), key)
}

// The page below page p, root or base, on the way to a key.
pub fn down(w: &[u8], p: usize, key: u32) -> Way
    requires { (length w.now ≡ 16384) × (p < first_leaf) }
    ensures { result ≡ way_down key p w.now }
{
    let at = 256 * p;
    way_on(p, &w[at..at + 256], key)
}

// The ten bytes of s from the offset at.
fn ten(s: &[u8], at: usize) -> [u8; 10]
    requires { at + 10 ≤ length s.now }
    ensures { result ≡ part at 10 s.now }
{
    let mut v = [0u8; 10];
    field::copy(&mut v, 0, &s[at..at + 10]);
    v
}

// A refusal.
fn missing(reply: u8) -> Found
    ensures { (result.reply ≡ reply) × (result.value ≡ zeroes 10) }
{
    Found {
        reply: reply,
        value: [0u8; 10],
    }
}

// The value of the record with this key, of n records.
fn record_with(pg: &[u8], n: u16, key: u32) -> Found
    requires { 16 + 16 * n ≤ length pg.now }
    ensures { (result.reply ≡ reply_of (record_in key (rows_of 16 n (drop 16 pg.now)))) × (result.value ≡ bytes_of (record_in key (rows_of 16 n (drop 16 pg.now)))) }
{
    let mut at: usize = 16;
    let mut left = n;
    while 0 < left {
        if field::get4(pg, at + 2) == key {
            let value = ten(pg, at + 6);
            return Found {
                reply: 0,
                value: value,
            };
        }
        at += 16;
        left -= 1;
    }
    missing(15)
}

// The value of the record with this key on the page pg, a leaf page as page p.
fn leaf_on(p: usize, pg: &[u8], key: u32) -> Found
    requires { (length pg.now ≡ 256) × (last_base < p) }
    ensures { (result.reply ≡ reply_of (leaf_in key p pg.now)) × (result.value ≡ bytes_of (leaf_in key p pg.now)) }
{
    if !form::is_leaf(pg) {
        return missing(3);
    }
    record_with(pg, view::count(pg), key)
}

// The value of the record with this key on leaf page p.
pub fn in_leaf(w: &[u8], p: usize, key: u32) -> Found
    requires { (length w.now ≡ 16384) × (last_base < p) × (p < 64) }
    ensures { (result.reply ≡ reply_of (in_leaf key p w.now)) × (result.value ≡ bytes_of (in_leaf key p w.now)) }
{
    let at = 256 * p;
    leaf_on(p, &w[at..at + 256], key)
}

// The value of the record with this key, by the way from the root.
pub fn look_up(w: &[u8], key: u32) -> Found
    requires { length w.now ≡ 16384 }
    ensures { (result.reply ≡ reply_of (look_up key w.now)) × (result.value ≡ bytes_of (look_up key w.now)) }
{
    match down(w, 0, key) {
        Way::Refused(r) => missing(r),
        Way::To(b) => match down(w, b, key) {
            Way::Refused(r) => missing(r),
            Way::To(p) => in_leaf(w, p, key),
        },
    }
}
