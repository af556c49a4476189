// A chosen unit by value: all that its begin record says but its number.
ghost use Rattle.std.specs.Prelude.{◌≡◌, ◌+◌, ◌*◌};
ghost use Rattle.std.proofs.Math.Option.{none, some};
ghost use Rattle.page.specs.Pages.{page};
ghost use Rattle.page.specs.Places.{Leafy, empty_leaf};
ghost use Rattle.tree.specs.Walk.{InForm};
ghost use Rattle.unit.specs.Choice.{move_of, swap_of};
ghost use Rattle.unit.specs.Chosen.{Picks, leaf_of};

use field::PageNo;

// The unit's type and fill, its base pages and leaves, of which the first base_count and leaf_count are listed and the others are zero,
// and its destination.
#[derive(Clone, Copy)]
pub struct Choice {
    pub found: bool,
    pub kind: u8,
    pub fill: u8,
    pub base_count: u8,
    pub leaf_count: u8,
    pub bases: [u16; 2],
    pub leaves: [u16; 8],
    pub dest: PageNo,
}

// No unit.
pub fn nothing() -> Choice
    ensures { Picks result (λ u. none) }
{
    Choice {
        found: false,
        kind: 0,
        fill: 0,
        base_count: 0,
        leaf_count: 0,
        bases: [0; 2],
        leaves: [0; 8],
        dest: PageNo(0),
    }
}

// The move of a leaf under a base page to an empty page.
pub fn moving(base: PageNo, page: PageNo, dest: PageNo) -> Choice
    ensures { Picks result (λ u. some (move_of u (leaf_of base.0 page.0) dest.0)) }
{
    Choice {
        found: true,
        kind: 3,
        fill: 0,
        base_count: 1,
        leaf_count: 1,
        bases: [base.0, 0],
        leaves: [page.0, 0, 0, 0, 0, 0, 0, 0],
        dest: dest,
    }
}

// The swap of the leaf on page a, under another base page or the same, with the leaf on the page given.
pub fn swapping(base: PageNo, page: PageNo, a: PageNo, other: PageNo) -> Choice
    ensures { Picks result (λ u. some (swap_of u (leaf_of base.0 page.0) a.0 other.0)) }
{
    let leaves = [a.0, page.0, 0, 0, 0, 0, 0, 0];
    if other.0 == base.0 {
        return Choice {
            found: true,
            kind: 2,
            fill: 0,
            base_count: 1,
            leaf_count: 2,
            bases: [other.0, 0],
            leaves: leaves,
            dest: PageNo(0),
        };
    }
    Choice {
        found: true,
        kind: 2,
        fill: 0,
        base_count: 2,
        leaf_count: 2,
        bases: [other.0, base.0],
        leaves: leaves,
        dest: PageNo(0),
    }
}

// Whether page p, one of the leaf pages, is empty: its letter says so.
pub fn empty_at(w: &[u8], p: PageNo) -> bool
    requires { InForm w.now × Leafy p.0 }
    ensures { result ≡ empty_leaf p.0 (page p.0 w.now) }
{
    w[256 * (p.0 as usize) + 1] == b'e'
}
