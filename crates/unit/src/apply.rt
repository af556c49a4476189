// What one record does to its page, in a step and repeated alike, and whether it can be done. Each change is tested first: where it
// answers false, reply 5, no byte has changed.
ghost use Rattle.std.specs.Prelude.{◌≡◌, true, [], ◌∷◌, ℕ, ◌+◌, ◌*◌, ◌≤◌, ◌<◌, length, leb};
ghost use Rattle.std.proofs.Math.Option.{some};
ghost use Rattle.field.specs.Test.{both, all, pick, there};
ghost use Rattle.field.specs.Bytes.{same};
ghost use Rattle.page.specs.Page.{rows_of, joined, ascend_records, number, entries, records, is_base, is_leaf, is_empty};
ghost use Rattle.page.specs.Change.{above};
ghost use Rattle.page.specs.Pages.{page, put_page};
ghost use Rattle.logs.specs.Record.{image, length_of, LO, LI, LM};
ghost use Rattle.logs.specs.Valid.{Filed};
ghost use Rattle.logs.specs.Scan.{images_in};
ghost use Rattle.unit.specs.Next.{apply, repeat};
ghost use Rattle.unit.specs.Made.{Did, place_of, ended};

use crate::entry;
use field::{LogNo, PageNo};
use logs::kind;
use page::{form, place, view};
use tree::well;

// Whether a page is a leaf of exactly the records rs.
fn holds(pg: &[u8], rs: &[u8]) -> bool
    ensures { result ≡ both (is_leaf pg.now) (same (joined (records pg.now)) rs.now) }
{
    if !form::is_leaf(pg) {
        return false;
    }
    let end = 16 + 16 * (view::count(pg) as usize);
    field::same_bytes(&pg[16..end], rs)
}

// An LO of all its records: page org, a leaf, is made empty.
pub fn take_all(w: &mut [u8], org: PageNo, n: LogNo)
    requires { (length w.old ≡ 16384) × (org.0 < 64) × (is_leaf (page org.0 w.old) ≡ true) }
    ensures { (dest : ℕ) → apply n.0 (LO org.0 dest (records (page org.0 w.old))) w.old ≡ some w.new }
{
    place::make_empty_at(w, org, n);
}

// An LO: page org, a leaf of exactly these k records, is made empty.
pub fn take_out(w: &mut [u8], org: PageNo, rs: &[u8], k: u16, n: LogNo) -> bool
    requires { (length w.old ≡ 16384) × (org.0 < 64) × (length rs.now ≡ 16 * k) }
    ensures { (dest : ℕ) → Did (apply n.0 (LO org.0 dest (rows_of 16 k rs.now)) w.old) w.old result w.new }
{
    let at = 256 * (org.0 as usize);
    if !holds(&w[at..at + 256], rs) {
        return false;
    }
    take_all(w, org, n);
    true
}

// Whether a page is empty or a leaf.
fn open_to(pg: &[u8]) -> bool
    ensures { result ≡ pick (is_empty pg.now) true (is_leaf pg.now) }
{
    if form::is_empty(pg) {
        return true;
    }
    form::is_leaf(pg)
}

// The least key that may follow those of an empty or leaf page.
fn least_after(pg: &[u8]) -> u64
    requires { pick (is_empty pg.now) true (is_leaf pg.now) ≡ true }
    ensures { result ≡ above 0 (records pg.now) }
{
    let n = view::count(pg) as usize;
    if n == 0 {
        return 0;
    }
    view::row_key(pg, 16, n - 1) as u64 + 1
}

// Whether k records in order may be appended to a page: it is empty or a leaf that ends below their keys, with room for them.
fn takes(pg: &[u8], rs: &[u8], k: u16) -> bool
    requires { (1 ≤ k) × (k ≤ 15) × (length rs.now ≡ 16 * k) × (ascend_records 0 (rows_of 16 k rs.now) ≡ true) }
    ensures { result ≡ all (pick (is_empty pg.now) true (is_leaf pg.now) ∷ leb (length (records pg.now) + k) 15
        ∷ ascend_records (above 0 (records pg.now)) (rows_of 16 k rs.now) ∷ []) }
{
    if !open_to(pg) {
        return false;
    }
    if 15 < view::count(pg) + k {
        return false;
    }
    least_after(pg) <= field::get4(rs, 2) as u64
}

// Whether an LI can be made: the k records of its LO may be appended to page dest.
pub fn can_bring_in(w: &[u8], dest: PageNo, rs: &[u8], k: u16) -> bool
    requires w_len { (length w.now ≡ 16384) × (dest.0 < 64) }
    requires le_k { (1 ≤ k) × (k ≤ 15) × (length rs.now ≡ 16 * k) × (ascend_records 0 (rows_of 16 k rs.now) ≡ true) }
    ensures { (n org back : ℕ) → result ≡ there (apply n (LI org dest.0 back (rows_of 16 k rs.now)) w.now) }
{
    let at = 256 * (dest.0 as usize);
    takes(&w[at..at + 256], rs, k)
}

// An LI: the k records of its LO are appended to page dest, an empty page or a leaf that ends below their keys, with room to 15.
pub fn bring_in(w: &mut [u8], dest: PageNo, rs: &[u8], k: u16, n: LogNo) -> bool
    requires w_len { (length w.old ≡ 16384) × (dest.0 < 64) }
    requires le_k { (1 ≤ k) × (k ≤ 15) × (length rs.now ≡ 16 * k) × (ascend_records 0 (rows_of 16 k rs.now) ≡ true) }
    ensures { (org back : ℕ) → Did (apply n.0 (LI org dest.0 back (rows_of 16 k rs.now)) w.old) w.old result w.new }
{
    if !can_bring_in(w, dest, rs, k) {
        return false;
    }
    place::append_at(w, dest, rs, k, n);
    true
}

// The place of the entry of page base, a base page, with this key to page old; the number of its entries where there is none.
fn entry_at(w: &[u8], base: PageNo, old: PageNo, key: u32) -> u16
    requires { (length w.now ≡ 16384) × (base.0 < 64) × (is_base (page base.0 w.now) ≡ true) }
    ensures { result ≡ place_of key old.0 (entries (page base.0 w.now)) }
{
    let at = 256 * (base.0 as usize);
    let rows = well::count_at(w, base.0 as usize);
    entry::entry_with(&w[at..at + 256], rows, key, old)
}

// Whether an LM can be made: page base is a base page and has the entry with this key to page old, and where new is 0, another.
pub fn can_modify(w: &[u8], base: PageNo, old: PageNo, new: PageNo, key: u32) -> bool
    requires { (length w.now ≡ 16384) × (base.0 < 64) }
    ensures { (n : ℕ) → result ≡ there (apply n (LM base.0 old.0 new.0 key) w.now) }
{
    let at = 256 * (base.0 as usize);
    if !form::is_base(&w[at..at + 256]) {
        return false;
    }
    let rows = well::count_at(w, base.0 as usize);
    if entry_at(w, base, old, key) == rows {
        return false;
    }
    if new.0 != 0 {
        return true;
    }
    2 <= rows
}

// An LM: the entry of page base with this key to page old points to page new, or where new is 0, is removed if it is not the only one.
pub fn modify(w: &mut [u8], base: PageNo, old: PageNo, new: PageNo, key: u32, n: LogNo) -> bool
    requires { (length w.old ≡ 16384) × (base.0 < 64) }
    ensures { Did (apply n.0 (LM base.0 old.0 new.0 key) w.old) w.old result w.new }
{
    if !can_modify(w, base, old, new, key) {
        return false;
    }
    let i = entry_at(w, base, old, key) as usize;
    if new.0 != 0 {
        place::redirect_at(w, base, i, new, n);
        return true;
    }
    place::remove_at(w, base, i, n);
    true
}

// Whether page p already has the change of the record numbered n, or a later one: the record is then not repeated.
fn stamped(w: &[u8], p: PageNo, n: LogNo) -> bool
    requires { (length w.now ≡ 16384) × (p.0 < 64) }
    ensures { result ≡ leb n.0 (number (page p.0 w.now)) }
{
    n.0 <= field::get4(w, 256 * (p.0 as usize) + 4)
}

// An image of an LE numbered n: it is laid over page p, unless that page has its change, or a later one.
fn end_image(w: &mut [u8], p: PageNo, n: LogNo, image: &[u8])
    requires { (length w.old ≡ 16384) × (p.0 < 64) × (length image.now ≡ 256) }
    ensures { w.new ≡ put_page p.0 (pick (leb n.0 (number (page p.0 w.old))) (page p.0 w.old) image.now) w.old }
{
    if stamped(w, p, n) {
        return;
    }
    field::copy(w, 256 * (p.0 as usize), image);
}

// The LE of a put or delete, made and repeated alike: the images of its k LGs, which stand one behind the other at the front of m.
pub fn end_all(w: &mut [u8], m: &[u8], k: usize, n: LogNo)
    requires { (length w.old ≡ 16384) × (length_of image 1 * k ≤ length m.now) × Filed 0 (images_in k m.now) }
    ensures { w.new ≡ ended n.0 (images_in k m.now) w.old }
{
    let long = kind::size_of(kind::LG, 1);
    let from = kind::size_of(kind::LG, 0);
    let mut at: usize = 0;
    let mut left = k;
    while 0 < left {
        let p = PageNo(field::get2(m, at + 12));
        end_image(w, p, n, &m[at + from..at + long]);
        at += long;
        left -= 1;
    }
}

// An LO repeated.
pub fn repeat_out(w: &mut [u8], org: PageNo, rs: &[u8], k: u16, n: LogNo) -> bool
    requires { (length w.old ≡ 16384) × (org.0 < 64) × (length rs.now ≡ 16 * k) }
    ensures { (dest : ℕ) → Did (repeat n.0 (LO org.0 dest (rows_of 16 k rs.now)) w.old) w.old result w.new }
{
    if stamped(w, org, n) {
        return true;
    }
    take_out(w, org, rs, k, n)
}

// An LI repeated.
pub fn repeat_in(w: &mut [u8], dest: PageNo, rs: &[u8], k: u16, n: LogNo) -> bool
    requires w_len { (length w.old ≡ 16384) × (dest.0 < 64) }
    requires le_k { (1 ≤ k) × (k ≤ 15) × (length rs.now ≡ 16 * k) × (ascend_records 0 (rows_of 16 k rs.now) ≡ true) }
    ensures { (org back : ℕ) → Did (repeat n.0 (LI org dest.0 back (rows_of 16 k rs.now)) w.old) w.old result w.new }
{
    if stamped(w, dest, n) {
        return true;
    }
    bring_in(w, dest, rs, k, n)
}

// An LM repeated.
pub fn repeat_modify(
    w: &mut [u8],
    base: PageNo,
    old: PageNo,
    new: PageNo,
    key: u32,
    n: LogNo,
) -> bool
    requires { (length w.old ≡ 16384) × (base.0 < 64) }
    ensures { Did (repeat n.0 (LM base.0 old.0 new.0 key) w.old) w.old result w.new }
{
    if stamped(w, base, n) {
        return true;
    }
    modify(w, base, old, new, key, n)
}
