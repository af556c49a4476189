// Build: each page's image is made by value and copied into the lent pages.
ghost use Rattle.std.specs.Prelude.{◌≡◌, true, [], ◌+◌, ◌-◌, ◌*◌, ◌/◌, ◌%◌, ◌≤◌, ◌<◌, min, length, take, drop};
ghost use Rattle.field.specs.Bytes.{zeroes};
ghost use Rattle.page.specs.Page.{base, leaf, base_pages, rows_of, ascend_records, made};
ghost use Rattle.tree.specs.Layout.{fresh, leaf_groups, base_groups, layout};
ghost use Rattle.tree.specs.Pieces.{pieces, leaf_key, entry_run, Leaves, Buildable, nth, layout_page};

use field::PageNo;
use page::{bounds, form, image};

// How many groups of k there are of n.
fn pieces(n: usize, k: usize) -> usize
    requires { (0 < k) × (k ≤ 30) × (n ≤ 1152921504606846976) }
    ensures { result ≡ pieces n k }
{
    (n + k - 1) / k
}

// How many leaves build makes of the records, f in each.
pub fn leaf_count(records: &[u8], f: u32) -> usize
    requires { (1 ≤ f) × (f ≤ 15) }
    ensures { result ≡ length (leaf_groups f (rows_of 16 (length records.now / 16) records.now)) }
{
    pieces(records.len() / 16, f as usize)
}

// How many base pages build makes of the records, with g entries in each.
pub fn base_count(records: &[u8], f: u32, g: u32) -> usize
    requires { (1 ≤ f) × (f ≤ 15) × (1 ≤ g) × (g ≤ 30) }
    ensures { result ≡ length (base_groups f g (rows_of 16 (length records.now / 16) records.now)) }
{
    let leaves = pieces(records.len() / 16, f as usize);
    pieces(leaves, g as usize)
}

// Whether records bear their mark and their keys ascend.
pub fn ascending(records: &[u8]) -> bool
    ensures { result ≡ ascend_records 0 (rows_of 16 (length records.now / 16) records.now) }
{
    form::records_ascend(records, 0, records.len() / 16)
}

// The less of two numbers.
fn least(a: usize, b: usize) -> usize
    ensures { result ≡ min a b }
{
    if a < b {
        return a;
    }
    b
}

// The key of the entry to leaf i, of f records each.
fn leaf_key(records: &[u8], f: usize, i: usize) -> u32
    requires { 16 * (f * i) + 16 ≤ length records.now }
    ensures { result ≡ leaf_key f records.now i }
{
    if i == 0 {
        return 0;
    }
    field::get4(records, 16 * (f * i) + 2)
}

// A new page with this letter and n entries: to the pages from p on, with the keys of every step-th leaf from leaf i.
fn entries_image(
    sign: u8,
    records: &[u8],
    f: usize,
    step: usize,
    i: usize,
    p: PageNo,
    n: usize,
) -> [u8; 256]
    requires { (1 ≤ f) × (step ≤ 30) × (n ≤ 30) × (p.0 + n ≤ 64) × Leaves (length records.now) f step i n }
    ensures { result ≡ made sign 0 (zeroes 8) (entry_run f records.now step i p.0 n) }
{
    let mut image = image::blank(sign);
    let mut at = i;
    let mut k: usize = 0;
    while k < n {
        let key = leaf_key(records, f, at);
        let more = image::with_entry(image, key, PageNo(p.0 + k as u16));
        image = more;
        at += step;
        k += 1;
    }
    image
}

// Leaf i's page: its records, of f in each leaf.
fn leaf_image(records: &[u8], f: usize, i: usize) -> [u8; 256]
    requires { (1 ≤ f) × (f ≤ 15) × (f * i < length records.now / 16) }
    ensures { result ≡ fresh leaf (take f (drop (f * i) (rows_of 16 (length records.now / 16) records.now))) }
{
    let first = f * i;
    let left = records.len() / 16 - first;
    let k = least(f, left);
    let at = 16 * first;
    image::with_rows(image::blank(b'l'), 16, &records[at..at + 16 * k], k as u16)
}

// Base page j's page: the entries to its leaves, g in each base page, of so many leaves; empty where there are none.
fn base_image(records: &[u8], f: usize, g: usize, leaves: usize, j: usize) -> [u8; 256]
    requires { Buildable f g (length records.now) × (leaves ≡ pieces (length records.now / 16) f) × (j < base_pages) }
    ensures { result ≡ nth base (base_groups f g (rows_of 16 (length records.now / 16) records.now)) j }
{
    let first = g * j;
    if leaves <= first {
        return image::blank(b'e');
    }
    let n = least(g, leaves - first);
    entries_image(b'b', records, f, 1, first, bounds::place(first as u16), n)
}

// Page p of the layout.
fn image_at(records: &[u8], f: usize, g: usize, p: usize) -> [u8; 256]
    requires { Buildable f g (length records.now) × (p < 64) }
    ensures { result ≡ layout_page f g (rows_of 16 (length records.now / 16) records.now) p }
{
    let leaves = pieces(records.len() / 16, f);
    if p == 0 {
        let bases = pieces(leaves, g);
        return entries_image(b'r', records, f, g, 0, PageNo(bounds::FIRST_BASE), bases);
    }
    if p <= bounds::LAST_BASE as usize {
        return base_image(records, f, g, leaves, p - bounds::FIRST_BASE as usize);
    }
    let i = p - bounds::FIRST_LEAF as usize;
    if i < leaves {
        return leaf_image(records, f, i);
    }
    image::blank(b'e')
}

// Writes the 64 pages of a new tree over w: f records in each leaf, g entries in each base page.
pub fn build_pages(w: &mut [u8], f: u32, g: u32, records: &[u8])
    requires { (length w.old ≡ 16384) × Buildable f g (length records.now) }
    ensures { w.new ≡ layout f g (rows_of 16 (length records.now / 16) records.now) }
{
    let mut p: u16 = 0;
    while p < 64 {
        let image = image_at(records, f as usize, g as usize, p as usize);
        image::set_page(w, PageNo(p), image);
        p += 1;
    }
}
