// The LO of an LI to come, by numbers: where it stands and how many records it carried. It is the record before the LI, or the unit's
// first, which stands behind LB.
ghost use Rattle.std.specs.Prelude.{◌≡◌, ◌+◌, ◌<◌};
ghost use Rattle.logs.specs.Record.{begin};
ghost use Rattle.logs.specs.Source.{source_at, source_rows};

use crate::kind;
use crate::scan::Walk;

// Where the LO stands that is `back` records before.
pub fn source_at(w: Walk, back: u32) -> usize
    requires { w.begin + begin.fixed < 18446744073709551616 }
    ensures { result ≡ source_at w back }
{
    if back == 1 {
        return w.last;
    }
    w.begin + kind::size_of(kind::LB, 0)
}

// How many records it carried.
pub fn source_rows(w: Walk, back: u32) -> u16
    ensures { result ≡ source_rows w back }
{
    if back == 1 {
        return w.rows;
    }
    w.first
}
