// A changed page as a draft: a run of rows of a source page, perhaps a row that is new, and another run of that page. No byte is written.
ghost use Rattle.std.specs.Prelude.{◌≡◌, List, [], ◌++◌, ℕ, ◌-◌, ◌≤◌, ◌<◌, length, take, drop};
ghost use Rattle.page.specs.Page.{empty, rows};
ghost use Rattle.page.specs.Pages.{page, pages};
ghost use Rattle.saving.specs.Save.{sheet, rewritten, anew};
ghost use Rattle.saving.specs.Draft.{inserted, spare_of, Suits, Patch, Draws};

use field::PageNo;
use tree::well;

// The row that is new: none, the record put, or an entry with this key to this page.
#[derive(Clone, Copy)]
pub enum More {
    Nothing,
    Record,
    Entry(u32, PageNo),
}

// The page with this letter and its own spare bytes, or zeros; its rows have `size` bytes: `many` of the source page from the row `from` on,
// the new one, then `rest` from the row `next` on.
#[derive(Clone, Copy)]
pub struct Draft {
    pub page: PageNo,
    pub sign: u8,
    pub kept: bool,
    pub size: u16,
    pub source: PageNo,
    pub from: u16,
    pub many: u16,
    pub more: More,
    pub next: u16,
    pub rest: u16,
}

// The page p, empty.
pub fn emptied(p: PageNo) -> Draft
    requires { p.0 < 64 }
    ensures { (w : List ℕ) → Draws w result (λ r. anew p.0 empty.sign []) }
{
    Draft {
        page: p,
        sign: b'e',
        kept: false,
        size: 16,
        source: p,
        from: 0,
        many: 0,
        more: More::Nothing,
        next: 0,
        rest: 0,
    }
}

// The page p with one row, of `size` bytes.
pub fn sole(p: PageNo, sign: u8, kept: bool, size: u16, more: More) -> Draft
    requires { (p.0 < 64) × (size ≤ 16) × Suits size more }
    ensures { (w : List ℕ) → Draws w result (λ r. sheet p.0 sign (spare_of kept p.0 (pages w)) (inserted r more)) }
{
    Draft {
        page: p,
        sign: sign,
        kept: kept,
        size: size,
        source: p,
        from: 0,
        many: 0,
        more: more,
        next: 0,
        rest: 0,
    }
}

// The page p with its rows before the i-th and from the k-th on, and a new one between them.
pub fn patched(w: &[u8], p: PageNo, sign: u8, size: u16, i: u16, more: More, k: u16) -> Draft
    requires { (length w.now ≡ 16384) × (p.0 < 64) × Patch size w.now p.0 i more k }
    ensures { Draws w.now result (λ r. rewritten (pages w.now) p.0 sign (take i (rows size (page p.0 w.now)) ++ (inserted r more ++ drop k (rows size (page p.0 w.now))))) }
{
    let n = well::count_at(w, p.0 as usize);
    Draft {
        page: p,
        sign: sign,
        kept: true,
        size: size,
        source: p,
        from: 0,
        many: i,
        more: more,
        next: k,
        rest: n - k,
    }
}
