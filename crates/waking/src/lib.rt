// What recovery answers, and the parts of it that want no unit: its refusals, the test of the pages' numbers, and the accepted answer.
#![tactic(auto)]

ghost use Rattle.std.specs.Prelude.{◌≡◌, ◌-◌, ◌≤◌, length};
ghost use Rattle.field.specs.Bytes.{put, zeroes};
ghost use Rattle.page.specs.Pages.{pages};
ghost use Rattle.store.specs.Calls.{none_newer};

use field::LogNo;
use logs::scan::Walk;
use store::Numbers;

// The reply, and how many records were appended.
#[repr(C)]
#[derive(Clone, Copy)]
pub struct Recovered {
    pub reply: u8,
    pub count: u32,
}

// What recovery returns, and the numbers as they are afterwards.
#[derive(Clone, Copy)]
pub struct RecoverAnswer {
    pub recovered: Recovered,
    pub numbers: Numbers,
}

// A refusal: the numbers stay.
pub fn declined(n: Numbers, reply: u8) -> RecoverAnswer
    ensures { (result.recovered.reply ≡ reply) × (result.recovered.count ≡ 0) × (result.numbers.used ≡ n.used) × (result.numbers.forced ≡ n.forced) }
{
    RecoverAnswer {
        recovered: Recovered { reply, count: 0 },
        numbers: n,
    }
}

// A refusal past test 1: all work pages are zeroed.
pub fn blanked(n: Numbers, work: &mut [u8], reply: u8) -> RecoverAnswer
    requires { length work.old ≡ 16384 }
    ensures { (work.new ≡ zeroes 16384) × (result.recovered.reply ≡ reply) × (result.recovered.count ≡ 0) × (result.numbers.used ≡ n.used) × (result.numbers.forced ≡ n.forced) }
{
    field::clear(work, 0, 16384);
    declined(n, reply)
}

// Test 4: no page has a number above the log's last.
pub fn none_newer(store: &[u8], last: LogNo) -> bool
    requires { length store.now ≡ 16384 }
    ensures { result ≡ none_newer last.0 (pages store.now) }
{
    let mut p = 0;
    while p < 64 {
        if last.0 < field::get4(store, 256 * p + 4) {
            return false;
        }
        p += 1;
    }
    true
}

// A refusal after records may have been appended: they are taken back, so that the log is as it was found.
pub fn taken_back(
    n: Numbers,
    work: &mut [u8],
    log: &mut [u8],
    end: usize,
    reply: u8,
) -> RecoverAnswer
    requires { (length work.old ≡ 16384) × (length log.old ≡ 8192) × (end ≤ 8192) }
    ensures { (log.new ≡ put end (zeroes (8192 - end)) log.old) × (work.new ≡ zeroes 16384)
        × (result.recovered.reply ≡ reply) × (result.recovered.count ≡ 0) × (result.numbers.used ≡ n.used) × (result.numbers.forced ≡ n.forced) }
{
    field::clear(log, end, 8192 - end);
    blanked(n, work, reply)
}

// Accepted: used is the log's end after finishing, forced its end as found, and the count is that of the records between.
pub fn accepted(found: Walk, end: Walk) -> RecoverAnswer
    requires { (found.at ≤ 8192) × (end.at ≤ 8192) × (found.number.0 ≤ end.number.0) }
    ensures { (result.recovered.reply ≡ 0) × (result.recovered.count ≡ end.number.0 - found.number.0) × (result.numbers.used ≡ end.at) × (result.numbers.forced ≡ found.at) }
{
    RecoverAnswer {
        recovered: Recovered {
            reply: 0,
            count: end.number.0 - found.number.0,
        },
        numbers: Numbers {
            used: end.at as u32,
            forced: found.at as u32,
        },
    }
}
