// Where the kinds of page stand: page 0 is the root, base pages follow it, then leaf pages; how many there are of each; and where a leaf
// belongs.
ghost use Rattle.std.specs.Prelude.{◌≡◌, ◌<◌};
ghost use Rattle.page.specs.Places.{place};

use field::PageNo;

pub const FIRST_BASE: u16 = 1;

pub const LAST_BASE: u16 = 7;

pub const BASE_PAGES: usize = 7;

pub const FIRST_LEAF: u16 = 8;

pub const LAST_LEAF: u16 = 63;

pub const LEAF_PAGES: usize = 56;

// The page where the i-th leaf in key order belongs.
pub fn place(i: u16) -> PageNo
    requires { i < 1000 }
    ensures { result.0 ≡ place i }
{
    PageNo(FIRST_LEAF + i)
}
