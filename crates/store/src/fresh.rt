// A log begun anew, by build and by checkpoint.
ghost use Rattle.std.specs.Prelude.{◌≡◌, length};
ghost use Rattle.logs.specs.Write.{check_of};
ghost use Rattle.store.specs.Calls.{new_log};

use field::{LogNo, UnitNo};
use logs::kind;

// Where a new log ends.
pub const END: u32 = kind::LC_LONG as u32;

// A new log: a check record with this number, the last unit and LK, if it is there; then zeros.
pub fn new_log(log: &mut [u8], n: LogNo, unit: UnitNo, there: bool, lk: u32)
    requires { length log.old ≡ 8192 }
    ensures { log.new ≡ new_log (check_of n.0 unit.0 there lk) }
{
    field::clear(log, 0, 8192);
    logs::writing::put_check(log, n, unit, there, lk);
}
