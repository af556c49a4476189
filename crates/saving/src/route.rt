// The way down to a key in a well-formed tree: root entry, base entry, and the place of the record in its leaf.
ghost use Rattle.std.specs.Prelude.{◌≡◌, true, [], ◌+◌, ◌*◌, ◌≤◌, ◌<◌, length, drop, get_or};
ghost use Rattle.page.specs.Page.{rows_of, key_of, to_page, count, rows};
ghost use Rattle.page.specs.Pages.{page, pages};
ghost use Rattle.tree.specs.Tree.{well_formed};
ghost use Rattle.tree.specs.Walk.{InForm, Ascending};
ghost use Rattle.saving.specs.Save.{before};
ghost use Rattle.saving.specs.Route.{leading, Rowed, Stands, Leads};

use field::PageNo;
use tree::well;

// A key; the base page and the place of its entry in the root, the leaf and the place of its entry in the base page, and in the leaf the
// place of the key's record, or where it would stand, and the place behind it.
#[derive(Clone, Copy)]
pub struct Route {
    pub key: u32,
    pub base: PageNo,
    pub over: u16,
    pub leaf: PageNo,
    pub under: u16,
    pub at: u16,
    pub past: u16,
}

// How many of n rows of sz bytes, from the offset start, stand before the first whose key is not below the bound.
fn leading(pg: &[u8], sz: usize, start: usize, n: u16, bound: u64) -> u16
    requires { (start + sz * n ≤ length pg.now) × (6 ≤ sz) }
    ensures { result ≡ leading bound (rows_of sz n (drop start pg.now)) }
{
    let mut at = start;
    let mut left = n;
    while 0 < left {
        let key = field::get4(pg, at + 2) as u64;
        if bound <= key {
            return n - left;
        }
        at += sz;
        left -= 1;
    }
    n
}

// The key of row i, of sz bytes, of page p.
pub fn key_at(w: &[u8], p: PageNo, sz: usize, i: u16) -> u32
    requires { (length w.now ≡ 16384) × Rowed sz w.now p.0 × (6 ≤ sz) × (i < count (page p.0 w.now)) }
    ensures { result ≡ key_of (get_or (rows sz (page p.0 w.now)) i []) }
{
    field::get4(w, 256 * (p.0 as usize) + (16 + sz * (i as usize) + 2))
}

// The page that entry i of page p points to.
pub fn page_at(w: &[u8], p: PageNo, i: u16) -> PageNo
    requires { (length w.now ≡ 16384) × Rowed 8 w.now p.0 × (i < count (page p.0 w.now)) }
    ensures { result.0 ≡ to_page (get_or (rows 8 (page p.0 w.now)) i []) }
{
    PageNo(field::get2(w, 256 * (p.0 as usize) + (16 + 8 * (i as usize) + 6)))
}

// The place of the entry of page p whose range has the key.
fn entry_for(w: &[u8], p: PageNo, key: u32) -> u16
    requires { (length w.now ≡ 16384) × Rowed 8 w.now p.0 }
    ensures { result ≡ length (before key (rows 8 (page p.0 w.now))) }
{
    let at = 256 * (p.0 as usize);
    let n = well::count_at(w, p.0 as usize);
    leading(&w[at..at + 256], 8, 24, n - 1, key as u64 + 1)
}

// Where the key's record stands in the leaf p, or would stand.
fn record_for(w: &[u8], p: PageNo, key: u32) -> u16
    requires { (length w.now ≡ 16384) × Rowed 16 w.now p.0 }
    ensures { result ≡ leading key (rows 16 (page p.0 w.now)) }
{
    let at = 256 * (p.0 as usize);
    let n = well::count_at(w, p.0 as usize);
    leading(&w[at..at + 256], 16, 16, n, key as u64)
}

// The place behind the key's record in the leaf p, where i is the place of the record; i where there is none.
fn past(w: &[u8], p: PageNo, key: u32, i: u16) -> u16
    requires w_len { (length w.now ≡ 16384) × Rowed 16 w.now p.0 × Ascending (rows 16 (page p.0 w.now)) }
    requires i_value { i ≡ leading key (rows 16 (page p.0 w.now)) }
    ensures { Stands w.now p.0 key i result }
{
    if well::count_at(w, p.0 as usize) <= i {
        return i;
    }
    if key_at(w, p, 16, i) != key {
        return i;
    }
    i + 1
}

// The way down to a key, where the root has entries.
pub fn route_to(w: &[u8], key: u32) -> Route
    requires { InForm w.now × (well_formed (pages w.now) ≡ true) × (0 < count (page 0 w.now)) }
    ensures { (result.key ≡ key) × Leads w.now result }
{
    let over = entry_for(w, PageNo(0), key);
    let base = page_at(w, PageNo(0), over);
    let under = entry_for(w, base, key);
    let leaf = page_at(w, base, under);
    let at = record_for(w, leaf, key);
    let end = past(w, leaf, key, at);
    Route {
        key: key,
        base: base,
        over: over,
        leaf: leaf,
        under: under,
        at: at,
        past: end,
    }
}
