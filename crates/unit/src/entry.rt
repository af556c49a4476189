// The entry that an LM takes: the lowest to a page, or where it is repeated, the one with its key and page.
ghost use Rattle.std.specs.Prelude.{◌≡◌, true, ◌+◌, ◌*◌, ◌≤◌, ◌<◌, length, drop, eqb};
ghost use Rattle.field.specs.Test.{both, when};
ghost use Rattle.page.specs.Page.{rows_of, entries, first_leaf, formed};
ghost use Rattle.page.specs.Pages.{page};
ghost use Rattle.unit.specs.Next.{is_other, lowest_to};
ghost use Rattle.unit.specs.Made.{key_in, place_of};

use field::PageNo;
use tree::well;

// The key of the lowest entry, if there is one.
#[derive(Clone, Copy)]
pub enum Lowest {
    Nothing,
    Key(u32),
}

// Whether an entry with the key k to page q is one to page p, and not the one to skip.
fn may_take(q: PageNo, k: u32, p: PageNo, skip: bool, skipped: u32) -> bool
    ensures { result ≡ both (eqb q.0 p.0) (is_other (when skip skipped) k) }
{
    if q.0 != p.0 {
        return false;
    }
    if !skip {
        return true;
    }
    k != skipped
}

// The key of the lowest of n entries of the page pg that points to page p, but for the one with the key to skip, if there is one.
pub fn lowest_to(pg: &[u8], n: u16, p: PageNo, skip: bool, skipped: u32) -> Lowest
    requires { 16 + 8 * n ≤ length pg.now }
    ensures { key_in result ≡ lowest_to (when skip skipped) p.0 (rows_of 8 n (drop 16 pg.now)) }
{
    let mut at: usize = 16;
    let mut left = n;
    while 0 < left {
        let k = field::get4(pg, at + 2);
        if may_take(PageNo(field::get2(pg, at + 6)), k, p, skip, skipped) {
            return Lowest::Key(k);
        }
        at += 8;
        left -= 1;
    }
    Lowest::Nothing
}

// Whether an entry with the key k to page q is the one with this key and page.
fn is_entry(q: PageNo, k: u32, key: u32, p: PageNo) -> bool
    ensures { result ≡ both (eqb k key) (eqb q.0 p.0) }
{
    if k != key {
        return false;
    }
    q.0 == p.0
}

// The place of the entry with this key to page p among n entries of the page pg, n where there is none.
pub fn entry_with(pg: &[u8], n: u16, key: u32, p: PageNo) -> u16
    requires { 16 + 8 * n ≤ length pg.now }
    ensures { (result ≡ place_of key p.0 (rows_of 8 n (drop 16 pg.now))) × (result ≤ n) }
{
    let mut at: usize = 16;
    let mut left = n;
    while 0 < left {
        if is_entry(
            PageNo(field::get2(pg, at + 6)),
            field::get4(pg, at + 2),
            key,
            p,
        ) {
            return n - left;
        }
        at += 8;
        left -= 1;
    }
    n
}

// The key of the lowest entry of page b, root or base, that points to page p, but for the one with the key to skip, if there is one.
pub fn lowest_at(w: &[u8], b: PageNo, p: PageNo, skip: bool, skipped: u32) -> Lowest
    requires { (length w.now ≡ 16384) × (b.0 < first_leaf) × (formed b.0 (page b.0 w.now) ≡ true) }
    ensures { key_in result ≡ lowest_to (when skip skipped) p.0 (entries (page b.0 w.now)) }
{
    let n = well::count_at(w, b.0 as usize);
    let at = 256 * (b.0 as usize);
    lowest_to(&w[at..at + 256], n, p, skip, skipped)
}
