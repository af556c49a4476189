// List, which answers from the pages and changes nothing.
#![tactic(auto)]

ghost use Rattle.std.specs.Prelude.{◌≡◌, [], ◌∷◌};
ghost use Rattle.field.specs.Test.{pick};
ghost use Rattle.store.specs.Calls.{lent, left, list};

use store::known;
use store::known::Numbers;

// How many records were written, and whether more remain.
#[repr(C)]
#[derive(Clone, Copy)]
pub struct Listed {
    pub reply: u8,
    pub count: u32,
    pub more: bool,
}

// What list returns, and the numbers, which stay.
#[derive(Clone, Copy)]
pub struct ListAnswer {
    pub listed: Listed,
    pub numbers: Numbers,
}

// An answer.
fn told(n: Numbers, reply: u8, count: u32, more: bool) -> ListAnswer
    ensures { (result.listed.reply ≡ reply) × (result.listed.count ≡ count) × (result.listed.more ≡ more) × (result.numbers.used ≡ n.used) × (result.numbers.forced ≡ n.forced) }
{
    ListAnswer {
        listed: Listed { reply, count, more },
        numbers: n,
    }
}

// The records whose keys are low to high, both included, written to out as far as they fit whole.
pub fn list(n: Numbers, work: &[u8], log: &[u8], low: u32, high: u32, out: &mut [u8]) -> ListAnswer
    ensures listed { left result.listed.reply (result.listed.count ∷ pick result.listed.more 1 0 ∷ [])
        (lent result.numbers.used result.numbers.forced work.now [] log.now out.new)
        ≡ list low high (lent n.used n.forced work.now [] log.now out.old) }
{
    if work.len() != 16384 {
        return told(n, 1, 0, false);
    }
    if log.len() != 8192 {
        return told(n, 1, 0, false);
    }
    let s = logs::scan::scan_log(log, n.forced);
    if !known::knows(s, n.used) {
        return told(n, 2, 0, false);
    }
    let w = s.walk;
    if w.opened {
        return told(n, 9, 0, false);
    }
    if !page::form::all_formed(work) {
        return told(n, 3, 0, false);
    }
    if !tree::well::well_formed(work) {
        return told(n, 8, 0, false);
    }
    let l = tree::list::list_into(work, low, high, out);
    told(n, 0, l.count, l.more)
}
