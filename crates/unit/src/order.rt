// The choice of an order unit: the leaves are walked in key order by the root's entries and the base pages' entries, to the first that is
// not on its place.
ghost use Rattle.std.specs.Prelude.{◌≡◌, true, ◌+◌, ◌*◌, ◌≤◌, ◌<◌, length, drop};
ghost use Rattle.page.specs.Page.{rows_of};
ghost use Rattle.page.specs.Pages.{pages};
ghost use Rattle.tree.specs.Tree.{leaves_of, well_formed};
ghost use Rattle.tree.specs.Walk.{InForm};
ghost use Rattle.unit.specs.Choice.{base_of, order_unit};
ghost use Rattle.unit.specs.Chosen.{Picks, stray_in, stray, points_to};

use crate::choice;
use crate::choice::Choice;
use field::PageNo;
use page::bounds;
use tree::well;

// The first misplaced leaf: the page where it belongs, its base page and its own page.
#[derive(Clone, Copy)]
pub enum Stray {
    Nowhere,
    At {
        want: PageNo,
        base: PageNo,
        page: PageNo,
    },
}

// The first misplaced leaf below n entries of the base page b, whose bytes are pg; the first of them is the i-th leaf in key order.
fn stray_in(pg: &[u8], n: u16, b: PageNo, first: u16) -> Stray
    requires { (16 + 8 * n ≤ length pg.now) × (first + n < 1000) }
    ensures { result ≡ stray_in first b.0 (rows_of 8 n (drop 16 pg.now)) }
{
    let mut i = first;
    let mut at: usize = 16;
    let mut left = n;
    while 0 < left {
        let p = PageNo(field::get2(pg, at + 6));
        let want = bounds::place(i);
        if p.0 != want.0 {
            return Stray::At {
                want: want,
                base: b,
                page: p,
            };
        }
        i += 1;
        at += 8;
        left -= 1;
    }
    Stray::Nowhere
}

// Whether one of n entries of the page pg points to page p.
fn points_to(pg: &[u8], n: u16, p: PageNo) -> bool
    requires { 16 + 8 * n ≤ length pg.now }
    ensures { result ≡ points_to p.0 (rows_of 8 n (drop 16 pg.now)) }
{
    let mut at: usize = 16;
    let mut left = n;
    while 0 < left {
        if field::get2(pg, at + 6) == p.0 {
            return true;
        }
        at += 8;
        left -= 1;
    }
    false
}

// The first misplaced leaf of all.
fn stray_leaf(w: &[u8]) -> Stray
    requires { InForm w.now }
    ensures { result ≡ stray 0 (leaves_of (pages w.now)) }
{
    let mut i: u16 = 0;
    let mut at: usize = 16;
    let mut left = well::count_at(w, 0);
    while 0 < left {
        let q = PageNo(field::get2(w, at + 6));
        let n = well::count_at(w, q.0 as usize);
        let o = 256 * (q.0 as usize);
        let found = stray_in(&w[o..o + 256], n, q, i);
        if let Stray::At {
            want: _,
            base: _,
            page: _,
        } = found
        {
            return found;
        }
        i += n;
        at += 8;
        left -= 1;
    }
    Stray::Nowhere
}

// The base page of the leaf on page p, 0 where there is no leaf.
fn base_of(w: &[u8], p: PageNo) -> PageNo
    requires { InForm w.now }
    ensures { result.0 ≡ base_of p.0 (leaves_of (pages w.now)) }
{
    let mut at: usize = 16;
    let mut left = well::count_at(w, 0);
    while 0 < left {
        let q = PageNo(field::get2(w, at + 6));
        let n = well::count_at(w, q.0 as usize);
        let o = 256 * (q.0 as usize);
        if points_to(&w[o..o + 256], n, p) {
            return q;
        }
        at += 8;
        left -= 1;
    }
    PageNo(0)
}

// The order unit: the first misplaced leaf is moved to its place, or swapped with the leaf there.
pub fn choose_order(w: &[u8]) -> Choice
    requires { InForm w.now × (well_formed (pages w.now) ≡ true) }
    ensures { Picks result (λ u. order_unit u (pages w.now)) }
{
    let Stray::At { want, base, page } = stray_leaf(w) else {
        return choice::nothing();
    };
    if choice::empty_at(w, want) {
        return choice::moving(base, page, want);
    }
    let other = base_of(w, want);
    choice::swapping(base, page, want, other)
}
