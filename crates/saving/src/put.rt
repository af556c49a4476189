// The pages that a put changes: the key's leaf; or root, base page and leaf of a first record; or a base page and the two halves of a full leaf.
ghost use Rattle.std.specs.Prelude.{◌≡◌, true, List, [], ℕ, ◌≤◌, length, take, drop, get_or};
ghost use Rattle.page.specs.Page.{leaf, key_of, count, rows};
ghost use Rattle.page.specs.Pages.{page, pages};
ghost use Rattle.page.specs.Places.{Leafy};
ghost use Rattle.tree.specs.Tree.{well_formed};
ghost use Rattle.tree.specs.Walk.{InForm};
ghost use Rattle.saving.specs.Save.{rewritten, anew, free_leaf, put_first, split_leaf, put_into, put_sheets};
ghost use Rattle.saving.specs.Draft.{with_at, Draws, Plans};
ghost use Rattle.saving.specs.Route.{Rowed, Leads};

use crate::draft::{Draft, More};
use crate::plan::Plan;
use crate::route::Route;
use crate::{draft, plan, route};
use field::PageNo;
use page::bounds;
use tree::well;
use unit::compact;

// The lowest empty leaf page, one past the last where there is none.
fn free_leaf(w: &[u8]) -> PageNo
    requires { InForm w.now }
    ensures { result.0 ≡ free_leaf (pages w.now) }
{
    compact::lowest_empty(w, PageNo(bounds::LAST_BASE), PageNo(bounds::LAST_LEAF + 1))
}

// A first record: root and base page with one entry each, of key 0, and its leaf.
fn put_first(w: &[u8]) -> Plan
    requires { InForm w.now }
    ensures { (r : List ℕ) → Plans w.now r result (put_first r (pages w.now)) }
{
    let p = free_leaf(w);
    if bounds::LAST_LEAF < p.0 {
        return plan::refused(18);
    }
    let first = PageNo(bounds::FIRST_BASE);
    let root = draft::sole(PageNo(0), b'r', true, 8, More::Entry(0, first));
    let base = draft::sole(first, b'b', false, 8, More::Entry(0, p));
    let leaf = draft::sole(p, b'l', false, 16, More::Record);
    plan::listed(3, root, base, leaf, leaf)
}

// The lower 8 of the 16 records that the leaf p has with the new one, which comes in place i.
fn lower_half(p: PageNo, i: u16) -> Draft
    requires { Leafy p.0 × (i ≤ 15) }
    ensures { (w : List ℕ) → count (page p.0 w) ≡ 15 → Draws w result (λ r. rewritten (pages w) p.0 leaf.sign (take 8 (with_at i r (rows 16 (page p.0 w))))) }
{
    if i < 8 {
        return Draft {
            page: p,
            sign: b'l',
            kept: true,
            size: 16,
            source: p,
            from: 0,
            many: i,
            more: More::Record,
            next: i,
            rest: 7 - i,
        };
    }
    Draft {
        page: p,
        sign: b'l',
        kept: true,
        size: 16,
        source: p,
        from: 0,
        many: 8,
        more: More::Nothing,
        next: 0,
        rest: 0,
    }
}

// The upper 8 of them, which go to page q.
fn upper_half(q: PageNo, p: PageNo, i: u16) -> Draft
    requires { Leafy q.0 × Leafy p.0 × (i ≤ 15) }
    ensures { (w : List ℕ) → count (page p.0 w) ≡ 15 → Draws w result (λ r. anew q.0 leaf.sign (drop 8 (with_at i r (rows 16 (page p.0 w))))) }
{
    if i < 8 {
        return Draft {
            page: q,
            sign: b'l',
            kept: false,
            size: 16,
            source: p,
            from: 7,
            many: 8,
            more: More::Nothing,
            next: 0,
            rest: 0,
        };
    }
    Draft {
        page: q,
        sign: b'l',
        kept: false,
        size: 16,
        source: p,
        from: 8,
        many: i - 8,
        more: More::Record,
        next: i,
        rest: 15 - i,
    }
}

// The smallest key of the upper half.
fn upper_key(w: &[u8], key: u32, p: PageNo, i: u16) -> u32
    requires { (length w.now ≡ 16384) × Rowed 16 w.now p.0 × (count (page p.0 w.now) ≡ 15) × (i ≤ 15) }
    ensures { (r : List ℕ) → key ≡ key_of r → result ≡ key_of (get_or (with_at i r (rows 16 (page p.0 w.now))) 8 []) }
{
    if i < 8 {
        return route::key_at(w, p, 16, 7);
    }
    if 8 < i {
        return route::key_at(w, p, 16, 8);
    }
    key
}

// A full leaf with a record more: the upper half goes to the lowest empty leaf page.
fn put_split(w: &[u8], x: Route) -> Plan
    requires { InForm w.now × Leads w.now x × (count (page x.leaf.0 w.now) ≡ 15) × (x.past ≡ x.at) }
    ensures { (r : List ℕ) → x.key ≡ key_of r → Plans w.now r result (split_leaf x.key x.base.0 x.leaf.0 (rows 8 (page x.base.0 w.now)) (with_at x.at r (rows 16 (page x.leaf.0 w.now))) (pages w.now)) }
{
    let q = free_leaf(w);
    if bounds::LAST_LEAF < q.0 {
        return plan::refused(18);
    }
    if 30 <= well::count_at(w, x.base.0 as usize) {
        return plan::refused(18);
    }
    let more = More::Entry(upper_key(w, x.key, x.leaf, x.at), q);
    let base = draft::patched(w, x.base, b'b', 8, x.under + 1, more, x.under + 1);
    let low = lower_half(x.leaf, x.at);
    let high = upper_half(q, x.leaf, x.at);
    if x.leaf.0 < q.0 {
        return plan::listed(3, base, low, high, high);
    }
    plan::listed(3, base, high, low, low)
}

// A put where the root has entries: into the key's leaf, or by a split where that has 15 records beside the key's own.
fn put_into(w: &[u8], x: Route) -> Plan
    requires { InForm w.now × Leads w.now x }
    ensures { (r : List ℕ) → x.key ≡ key_of r → Plans w.now r result (put_into r x.base.0 x.leaf.0 (pages w.now)) }
{
    let n = well::count_at(w, x.leaf.0 as usize);
    if 15 <= n - (x.past - x.at) {
        return put_split(w, x);
    }
    let leaf = draft::patched(w, x.leaf, b'l', 16, x.at, More::Record, x.past);
    plan::listed(1, leaf, leaf, leaf, leaf)
}

// The pages that the put of the record r changes.
pub fn put_drafts(w: &[u8], r: &[u8]) -> Plan
    requires { InForm w.now × (well_formed (pages w.now) ≡ true) × (length r.now ≡ 16) }
    ensures { Plans w.now r.now result (put_sheets r.now (pages w.now)) }
{
    if well::count_at(w, 0) == 0 {
        return put_first(w);
    }
    let x = route::route_to(w, field::get4(r, 2));
    put_into(w, x)
}
