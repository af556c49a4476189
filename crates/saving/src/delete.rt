// The pages that a delete changes: the key's leaf; or, where that has no other record, the leaf, its base page, the root and the base page to
// the right, as far as each loses its last row or takes another key.
ghost use Rattle.std.specs.Prelude.{◌≡◌, true, List, [], ℕ, ◌+◌, ◌<◌, length, take, drop, get_or};
ghost use Rattle.page.specs.Page.{count, rows};
ghost use Rattle.page.specs.Pages.{page, pages};
ghost use Rattle.tree.specs.Tree.{well_formed};
ghost use Rattle.tree.specs.Walk.{InForm};
ghost use Rattle.saving.specs.Save.{rewritten, lowered, closed, empty_out, delete_from, delete_sheets};
ghost use Rattle.saving.specs.Draft.{Draws, Plans};
ghost use Rattle.saving.specs.Route.{Rowed, Leads};

use crate::draft::{Draft, More};
use crate::plan::Plan;
use crate::route::Route;
use crate::{draft, plan, route};
use field::PageNo;
use tree::well;

// The page p with its entries from the i-th on, that one with another key.
fn lowered(w: &[u8], p: PageNo, sign: u8, i: u16, key: u32) -> Draft
    requires { (length w.now ≡ 16384) × Rowed 8 w.now p.0 × (i < count (page p.0 w.now)) }
    ensures { Draws w.now result (λ r. rewritten (pages w.now) p.0 sign (lowered key (drop i (rows 8 (page p.0 w.now))))) }
{
    let to = route::page_at(w, p, i);
    draft::patched(w, p, sign, 8, 0, More::Entry(key, to), i + 1)
}

// The page p without its entry i: its range joins the one before, else the one behind.
fn united(w: &[u8], p: PageNo, sign: u8, i: u16) -> Draft
    requires { (length w.now ≡ 16384) × Rowed 8 w.now p.0 × (i < count (page p.0 w.now)) }
    ensures { Draws w.now result (λ r. rewritten (pages w.now) p.0 sign (closed (take i (rows 8 (page p.0 w.now))) (get_or (rows 8 (page p.0 w.now)) i []) (drop (i + 1) (rows 8 (page p.0 w.now))))) }
{
    if 0 < i {
        return draft::patched(w, p, sign, 8, i, More::Nothing, i + 1);
    }
    if well::count_at(w, p.0 as usize) == 1 {
        return draft::patched(w, p, sign, 8, 0, More::Nothing, 1);
    }
    lowered(w, p, sign, 1, route::key_at(w, p, 8, 0))
}

// A base page loses its only entry, and the leaf its only record: the root loses the entry. Where it was the first of several, the base page
// to the right takes its key.
fn delete_base(w: &[u8], x: Route) -> Plan
    requires { InForm w.now × (well_formed (pages w.now) ≡ true) × Leads w.now x × (count (page x.base.0 w.now) ≡ 1) }
    ensures { (r : List ℕ) → Plans w.now r result (empty_out x.key x.base.0 x.leaf.0 (pages w.now)) }
{
    let root = united(w, PageNo(0), b'r', x.over);
    let base = draft::emptied(x.base);
    let leaf = draft::emptied(x.leaf);
    if 0 < x.over {
        return plan::listed(3, root, base, leaf, leaf);
    }
    if well::count_at(w, 0) == 1 {
        return plan::listed(3, root, base, leaf, leaf);
    }
    let q = route::page_at(w, PageNo(0), 1);
    let right = lowered(w, q, b'b', 0, route::key_at(w, PageNo(0), 8, 0));
    if x.base.0 < q.0 {
        return plan::listed(4, root, base, right, leaf);
    }
    plan::listed(4, root, right, base, leaf)
}

// The leaf loses its only record: its base page loses the entry.
fn delete_leaf(w: &[u8], x: Route) -> Plan
    requires { InForm w.now × (well_formed (pages w.now) ≡ true) × Leads w.now x }
    ensures { (r : List ℕ) → Plans w.now r result (empty_out x.key x.base.0 x.leaf.0 (pages w.now)) }
{
    if well::count_at(w, x.base.0 as usize) == 1 {
        return delete_base(w, x);
    }
    let base = united(w, x.base, b'b', x.under);
    let leaf = draft::emptied(x.leaf);
    plan::listed(2, base, leaf, leaf, leaf)
}

// A delete where the root has entries.
fn delete_from(w: &[u8], x: Route) -> Plan
    requires { InForm w.now × (well_formed (pages w.now) ≡ true) × Leads w.now x }
    ensures { (r : List ℕ) → Plans w.now r result (delete_from x.key x.base.0 x.leaf.0 (pages w.now)) }
{
    if x.past <= x.at {
        return plan::refused(15);
    }
    if well::count_at(w, x.leaf.0 as usize) == 1 {
        return delete_leaf(w, x);
    }
    let leaf = draft::patched(w, x.leaf, b'l', 16, x.at, More::Nothing, x.past);
    plan::listed(1, leaf, leaf, leaf, leaf)
}

// The pages that the delete of a key changes.
pub fn delete_drafts(w: &[u8], key: u32) -> Plan
    requires { InForm w.now × (well_formed (pages w.now) ≡ true) }
    ensures { (r : List ℕ) → Plans w.now r result (delete_sheets key (pages w.now)) }
{
    if well::count_at(w, 0) == 0 {
        return plan::refused(15);
    }
    let x = route::route_to(w, key);
    delete_from(w, x)
}
