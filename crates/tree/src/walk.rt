// All records in key order, by a position on plain numbers: the core of the range reader, and of list.
ghost use Rattle.std.specs.Prelude.{◌≡◌, [], ◌+◌, ◌*◌, ◌≤◌, ◌<◌, length, drop, get_or};
ghost use Rattle.page.specs.Page.{to_page, count, rows};
ghost use Rattle.page.specs.Pages.{page, pages};
ghost use Rattle.tree.specs.Tree.{all_records};
ghost use Rattle.tree.specs.Reader.{Sound, from_root, behind, to_come, Stands};

use crate::well;

// A position: how many entries of the root and of the base page are passed, and the record on the leaf page. Leaf page 0: none is left.
#[repr(C)]
#[derive(Clone, Copy)]
pub struct Place {
    pub root: usize,
    pub base: usize,
    pub entry: usize,
    pub leaf: usize,
    pub row: usize,
}

// The page that entry i of page p points to.
fn entry_at(w: &[u8], p: usize, i: usize) -> usize
    requires { (length w.now ≡ 16384) × (p < 64) × (16 + 8 * count (page p w.now) ≤ 256) × (i < count (page p w.now)) }
    ensures { result ≡ to_page (get_or (rows 8 (page p w.now)) i []) }
{
    field::get2(w, 256 * p + (16 + 8 * i + 6)) as usize
}

// The position behind all records.
fn end() -> Place
    ensures { (result.leaf ≡ 0) × (result.row ≡ 0) }
{
    Place {
        root: 0,
        base: 0,
        entry: 0,
        leaf: 0,
        row: 0,
    }
}

// The first record below entry i of the root.
fn below_root(w: &[u8], i: usize) -> Place
    requires { Sound w.now × (i < count (page 0 w.now)) }
    ensures { Stands w.now result × (to_come w.now result ≡ from_root w.now i) × (result.row ≡ 0) }
{
    let base = entry_at(w, 0, i);
    let leaf = entry_at(w, base, 0);
    Place {
        root: i + 1,
        base: base,
        entry: 1,
        leaf: leaf,
        row: 0,
    }
}

// The first record of all.
pub fn first(w: &[u8]) -> Place
    requires { Sound w.now }
    ensures { Stands w.now result × (to_come w.now result ≡ all_records (pages w.now)) × (result.row ≡ 0) }
{
    if well::count_at(w, 0) == 0 {
        return end();
    }
    below_root(w, 0)
}

// The first record of the next leaf page.
pub fn next_leaf(w: &[u8], at: Place) -> Place
    requires { Sound w.now × Stands w.now at × (0 < at.leaf) }
    ensures { Stands w.now result × (to_come w.now result ≡ behind w.now at) × (result.row ≡ 0) }
{
    let base = at.base;
    let entry = at.entry;
    if entry < well::count_at(w, base) as usize {
        let leaf = entry_at(w, base, entry);
        return Place {
            root: at.root,
            base: base,
            entry: entry + 1,
            leaf: leaf,
            row: 0,
        };
    }
    if at.root < well::count_at(w, 0) as usize {
        return below_root(w, at.root);
    }
    end()
}

// The next record.
pub fn next(w: &[u8], at: Place) -> Place
    requires { Sound w.now × Stands w.now at × (0 < at.leaf) }
    ensures { Stands w.now result × (to_come w.now result ≡ drop 1 (to_come w.now at)) }
{
    if at.row + 1 < well::count_at(w, at.leaf) as usize {
        return Place {
            root: at.root,
            base: at.base,
            entry: at.entry,
            leaf: at.leaf,
            row: at.row + 1,
        };
    }
    next_leaf(w, at)
}

// Where the record at a position stands in the pages.
pub fn offset(at: Place) -> usize
    requires { (at.leaf < 64) × (at.row < 15) }
    ensures { result ≡ 256 * at.leaf + (16 + 16 * at.row) }
{
    256 * at.leaf + (16 + 16 * at.row)
}
