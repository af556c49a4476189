// Recovery: the work pages are made anew from the store and the log. Its tests come in the order 1, 2, 3, 4, then 5, 6 and 7 as met record by
// record, then 8. A refusal past test 1 zeroes the work pages, and one that comes after records were appended takes them back first.
#![tactic(auto)]

ghost use Rattle.std.specs.Prelude.{◌≡◌, ℕ, List, [], ◌∷◌};
ghost use Rattle.store.specs.Calls.{lent, left, recover};
ghost use Rattle.recovering.specs.Finishes.{Found, finishing, Finishes, completing};

use logs::scan::Walk;
use store::Numbers;
pub use waking::{RecoverAnswer, Recovered};

// Where finishing has led: reply 0 and the log's end, or the reply that stopped it.
#[derive(Clone, Copy)]
struct Finished {
    reply: u8,
    walk: Walk,
}

// Appends the steps to come of the unit that is open at the log's end, if there is one. Where one is refused, those before it stay appended.
fn finish(work: &mut [u8], log: &mut [u8], found: Walk) -> Finished
    requires { Found work.old log.old found }
    ensures { Finishes (finishing work.old log.old) log.old found result.reply result.walk work.new log.new }
{
    let mut w = found;
    while w.opened {
        let reply = forward::append(work, log, w);
        if reply != 0 {
            return Finished { reply, walk: w };
        }
        w = logs::past::past(log, w);
    }
    Finished { reply: 0, walk: w }
}

// From the repeated pages on: an open unit is finished, and the tree tested.
fn complete(n: Numbers, work: &mut [u8], log: &mut [u8], found: Walk) -> RecoverAnswer
    requires { Found work.old log.old found }
    ensures { (w s : List ℕ) → left result.recovered.reply (result.recovered.count ∷ []) (lent result.numbers.used result.numbers.forced work.new s log.new [])
        ≡ completing (lent n.used n.forced w s log.old []) work.old }
{
    let f = finish(work, log, found);
    if f.reply != 0 {
        return waking::taken_back(n, work, log, found.at, f.reply);
    }
    if !tree::well::well_formed(work) {
        return waking::taken_back(n, work, log, found.at, 8);
    }
    waking::accepted(found, f.walk)
}

// The work pages from the store and the log: what the log holds is repeated, an open unit finished.
pub fn recover(n: Numbers, work: &mut [u8], store: &[u8], log: &mut [u8]) -> RecoverAnswer
    ensures recovered { left result.recovered.reply (result.recovered.count ∷ []) (lent result.numbers.used result.numbers.forced work.new store.now log.new [])
        ≡ recover (lent n.used n.forced work.old store.now log.old []) }
{
    if work.len() != 16384 {
        return waking::declined(n, 1);
    }
    if store.len() != 16384 {
        return waking::declined(n, 1);
    }
    if log.len() != 8192 {
        return waking::declined(n, 1);
    }
    let s = logs::scan::scan_log(log, 0);
    let w = s.walk;
    if !w.ok {
        return waking::blanked(n, work, 2);
    }
    if !page::form::all_formed(store) {
        return waking::blanked(n, work, 3);
    }
    if !waking::none_newer(store, w.number) {
        return waking::blanked(n, work, 4);
    }
    field::copy(work, 0, store);
    if !unit::again::repeat_log(work, log) {
        return waking::blanked(n, work, 5);
    }
    complete(n, work, log, w)
}
