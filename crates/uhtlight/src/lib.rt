// The public calls as documents 01 and 02 have them: bytes used and bytes forced are one small record that each call is lent and updates. A call hands
// its core a copy of that record, puts what comes back in its place and returns the rest; so its contract is the core's, with the record at
// entry and at exit for the numbers. Beside them stand the range reader's two, lent the work pages alone. C has them, by the same names, from
// `uhtlight_c`.
#![tactic(auto)]

ghost use Rattle.std.specs.Prelude.{◌≡◌, [], ◌∷◌};
ghost use Rattle.field.specs.Test.{pick};
ghost use Rattle.ranging.specs.Reading.{start_from, next_from};
ghost use Rattle.store.specs.Calls.{lent, left, build, recover, begin_compact, begin_order, begin_put, begin_delete, step, flush, force, checkpoint, find, list};

use answering::Listed;
use ranging::{Reached, Step};
use recovering::Recovered;
use store::Numbers;
use tree::find::Found;
use tree::walk::Place;

// A tree of these records, in work and store alike, and a new log.
pub fn uhtlight_build(
    n: &mut Numbers,
    work: &mut [u8],
    store: &mut [u8],
    log: &mut [u8],
    records: &[u8],
    f: u32,
    g: u32,
) -> u8
    ensures built { left result [] (lent n.new.used n.new.forced work.new store.new log.new records.now)
        ≡ build f g (lent n.old.used n.old.forced work.old store.old log.old records.now) }
{
    let a = building::build(*n, work, store, log, records, f, g);
    *n = a.numbers;
    a.reply
}

// The work pages from the store and the log: what the log holds is repeated, an open unit finished.
pub fn uhtlight_recover(n: &mut Numbers, work: &mut [u8], store: &[u8], log: &mut [u8]) -> Recovered
    ensures recovered { left result.reply (result.count ∷ []) (lent n.new.used n.new.forced work.new store.now log.new [])
        ≡ recover (lent n.old.used n.old.forced work.old store.now log.old []) }
{
    let a = recovering::recover(*n, work, store, log);
    *n = a.numbers;
    a.recovered
}

// A compact unit is begun, of leaves that hold at most `fill` records together; 0 means 12.
pub fn uhtlight_begin_compact(n: &mut Numbers, work: &[u8], log: &mut [u8], fill: u32) -> u8
    ensures begun { left result [] (lent n.new.used n.new.forced work.now [] log.new [])
        ≡ begin_compact fill (lent n.old.used n.old.forced work.now [] log.old []) }
{
    let a = beginning::begin_compact(*n, work, log, fill);
    *n = a.numbers;
    a.reply
}

// A move or a swap is begun, of the first leaf that is not on its place.
pub fn uhtlight_begin_order(n: &mut Numbers, work: &[u8], log: &mut [u8]) -> u8
    ensures begun { left result [] (lent n.new.used n.new.forced work.now [] log.new [])
        ≡ begin_order (lent n.old.used n.old.forced work.now [] log.old []) }
{
    let a = beginning::begin_order(*n, work, log);
    *n = a.numbers;
    a.reply
}

// A put of this record is begun: it replaces the one with its key, or is added.
pub fn uhtlight_begin_put(n: &mut Numbers, work: &[u8], log: &mut [u8], r: &[u8]) -> u8
    ensures begun { left result [] (lent n.new.used n.new.forced work.now [] log.new r.now)
        ≡ begin_put (lent n.old.used n.old.forced work.now [] log.old r.now) }
{
    let a = putting::begin_put(*n, work, log, r);
    *n = a.numbers;
    a.reply
}

// A delete of the record with this key is begun.
pub fn uhtlight_begin_delete(n: &mut Numbers, work: &[u8], log: &mut [u8], key: u32) -> u8
    ensures begun { left result [] (lent n.new.used n.new.forced work.now [] log.new [])
        ≡ begin_delete key (lent n.old.used n.old.forced work.now [] log.old []) }
{
    let a = putting::begin_delete(*n, work, log, key);
    *n = a.numbers;
    a.reply
}

// The next step of the open unit: its record is appended to the log, and its page change made.
pub fn uhtlight_step(n: &mut Numbers, work: &mut [u8], log: &mut [u8]) -> u8
    ensures stepped { left result [] (lent n.new.used n.new.forced work.new [] log.new [])
        ≡ step (lent n.old.used n.old.forced work.old [] log.old []) }
{
    let a = stepping::step(*n, work, log);
    *n = a.numbers;
    a.reply
}

// One work page is written to the store, where its last change is forced.
pub fn uhtlight_flush(n: &mut Numbers, work: &[u8], store: &mut [u8], log: &[u8], p: u32) -> u8
    ensures flushed { left result [] (lent n.new.used n.new.forced work.now store.new log.now [])
        ≡ flush p (lent n.old.used n.old.forced work.now store.old log.now []) }
{
    let a = flushing::flush(*n, work, store, log, p);
    *n = a.numbers;
    a.reply
}

// All bytes used are forced.
pub fn uhtlight_force(n: &mut Numbers, log: &[u8]) -> u8
    ensures forced { left result [] (lent n.new.used n.new.forced [] [] log.now [])
        ≡ force (lent n.old.used n.old.forced [] [] log.now []) }
{
    let a = forcing::force(*n, log);
    *n = a.numbers;
    a.reply
}

// The log is replaced by one check record with the next number, where the store holds all that the work pages do.
pub fn uhtlight_checkpoint(
    n: &mut Numbers,
    work: &[u8],
    store: &[u8],
    log: &mut [u8],
    clear: bool,
) -> u8
    ensures replaced { left result [] (lent n.new.used n.new.forced work.now store.now log.new [])
        ≡ checkpoint clear (lent n.old.used n.old.forced work.now store.now log.old []) }
{
    let a = checkpointing::checkpoint(*n, work, store, log, clear);
    *n = a.numbers;
    a.reply
}

// The value of the record with this key.
pub fn uhtlight_find(n: &mut Numbers, work: &[u8], log: &[u8], key: u32) -> Found
    ensures found { left result.reply result.value (lent n.new.used n.new.forced work.now [] log.now [])
        ≡ find key (lent n.old.used n.old.forced work.now [] log.now []) }
{
    let a = finding::find(*n, work, log, key);
    *n = a.numbers;
    a.found
}

// The records whose keys are low to high, both included, written to out as far as they fit whole.
pub fn uhtlight_list(
    n: &mut Numbers,
    work: &[u8],
    log: &[u8],
    low: u32,
    high: u32,
    out: &mut [u8],
) -> Listed
    ensures listed { left result.reply (result.count ∷ pick result.more 1 0 ∷ []) (lent n.new.used n.new.forced work.now [] log.now out.new)
        ≡ list low high (lent n.old.used n.old.forced work.now [] log.now out.old) }
{
    let a = answering::list(*n, work, log, low, high, out);
    *n = a.numbers;
    a.listed
}

// Where the range reader starts that is to give the records from this key on.
pub fn uhtlight_range_start(work: &[u8], key: u32) -> Reached
    ensures started { result ≡ start_from work.now key }
{
    range::start_from(work, key)
}

// The record at a position of the range reader, and the position after it. The caller keeps the position and lends the same pages again.
pub fn uhtlight_range_next(work: &[u8], at: Place) -> Step
    ensures found { result ≡ next_from work.now at }
{
    range::next_from(work, at)
}
