// The lent calls with the numbers by value: each call lends the numbers that it is handed to its namesake in `uhtlight` and answers with what came
// back. The lending stands here, once, so that the service bench calls these as it would call `store`, and through them the very calls that
// `uhtlight_c` makes for C. Each contract is that of the same call in `store`.
#![tactic(auto)]

ghost use Rattle.std.specs.Prelude.{◌≡◌, [], ◌∷◌};
ghost use Rattle.field.specs.Test.{pick};
ghost use Rattle.store.specs.Calls.{lent, left, build, recover, begin_compact, begin_order, begin_put, begin_delete, step, flush, force, checkpoint, find, list};

use answering::ListAnswer;
use finding::FindAnswer;
use recovering::RecoverAnswer;
use store::{Answer, Numbers};

// A tree of these records, in work and store alike, and a new log.
pub fn build(
    n: Numbers,
    work: &mut [u8],
    store: &mut [u8],
    log: &mut [u8],
    records: &[u8],
    f: u32,
    g: u32,
) -> Answer
    ensures built { left result.reply [] (lent result.numbers.used result.numbers.forced work.new store.new log.new records.now)
        ≡ build f g (lent n.used n.forced work.old store.old log.old records.now) }
{
    let mut m = n;
    let reply = uhtlight::uhtlight_build(&mut m, work, store, log, records, f, g);
    let numbers = m;
    Answer { reply, numbers }
}

// The work pages from the store and the log: what the log holds is repeated, an open unit finished.
pub fn recover(n: Numbers, work: &mut [u8], store: &[u8], log: &mut [u8]) -> RecoverAnswer
    ensures recovered { left result.recovered.reply (result.recovered.count ∷ []) (lent result.numbers.used result.numbers.forced work.new store.now log.new [])
        ≡ recover (lent n.used n.forced work.old store.now log.old []) }
{
    let mut m = n;
    let recovered = uhtlight::uhtlight_recover(&mut m, work, store, log);
    let numbers = m;
    RecoverAnswer { recovered, numbers }
}

// A compact unit is begun, of leaves that hold at most `fill` records together; 0 means 12.
pub fn begin_compact(n: Numbers, work: &[u8], log: &mut [u8], fill: u32) -> Answer
    ensures begun { left result.reply [] (lent result.numbers.used result.numbers.forced work.now [] log.new [])
        ≡ begin_compact fill (lent n.used n.forced work.now [] log.old []) }
{
    let mut m = n;
    let reply = uhtlight::uhtlight_begin_compact(&mut m, work, log, fill);
    let numbers = m;
    Answer { reply, numbers }
}

// A move or a swap is begun, of the first leaf that is not on its place.
pub fn begin_order(n: Numbers, work: &[u8], log: &mut [u8]) -> Answer
    ensures begun { left result.reply [] (lent result.numbers.used result.numbers.forced work.now [] log.new [])
        ≡ begin_order (lent n.used n.forced work.now [] log.old []) }
{
    let mut m = n;
    let reply = uhtlight::uhtlight_begin_order(&mut m, work, log);
    let numbers = m;
    Answer { reply, numbers }
}

// A put of this record is begun: it replaces the one with its key, or is added.
pub fn begin_put(n: Numbers, work: &[u8], log: &mut [u8], r: &[u8]) -> Answer
    ensures begun { left result.reply [] (lent result.numbers.used result.numbers.forced work.now [] log.new r.now)
        ≡ begin_put (lent n.used n.forced work.now [] log.old r.now) }
{
    let mut m = n;
    let reply = uhtlight::uhtlight_begin_put(&mut m, work, log, r);
    let numbers = m;
    Answer { reply, numbers }
}

// A delete of the record with this key is begun.
pub fn begin_delete(n: Numbers, work: &[u8], log: &mut [u8], key: u32) -> Answer
    ensures begun { left result.reply [] (lent result.numbers.used result.numbers.forced work.now [] log.new [])
        ≡ begin_delete key (lent n.used n.forced work.now [] log.old []) }
{
    let mut m = n;
    let reply = uhtlight::uhtlight_begin_delete(&mut m, work, log, key);
    let numbers = m;
    Answer { reply, numbers }
}

// The next step of the open unit: its record is appended to the log, and its page change made.
pub fn step(n: Numbers, work: &mut [u8], log: &mut [u8]) -> Answer
    ensures stepped { left result.reply [] (lent result.numbers.used result.numbers.forced work.new [] log.new [])
        ≡ step (lent n.used n.forced work.old [] log.old []) }
{
    let mut m = n;
    let reply = uhtlight::uhtlight_step(&mut m, work, log);
    let numbers = m;
    Answer { reply, numbers }
}

// One work page is written to the store, where its last change is forced.
pub fn flush(n: Numbers, work: &[u8], store: &mut [u8], log: &[u8], p: u32) -> Answer
    ensures flushed { left result.reply [] (lent result.numbers.used result.numbers.forced work.now store.new log.now [])
        ≡ flush p (lent n.used n.forced work.now store.old log.now []) }
{
    let mut m = n;
    let reply = uhtlight::uhtlight_flush(&mut m, work, store, log, p);
    let numbers = m;
    Answer { reply, numbers }
}

// All bytes used are forced.
pub fn force(n: Numbers, log: &[u8]) -> Answer
    ensures forced { left result.reply [] (lent result.numbers.used result.numbers.forced [] [] log.now [])
        ≡ force (lent n.used n.forced [] [] log.now []) }
{
    let mut m = n;
    let reply = uhtlight::uhtlight_force(&mut m, log);
    let numbers = m;
    Answer { reply, numbers }
}

// The log is replaced by one check record with the next number, where the store holds all that the work pages do.
pub fn checkpoint(n: Numbers, work: &[u8], store: &[u8], log: &mut [u8], clear: bool) -> Answer
    ensures replaced { left result.reply [] (lent result.numbers.used result.numbers.forced work.now store.now log.new [])
        ≡ checkpoint clear (lent n.used n.forced work.now store.now log.old []) }
{
    let mut m = n;
    let reply = uhtlight::uhtlight_checkpoint(&mut m, work, store, log, clear);
    let numbers = m;
    Answer { reply, numbers }
}

// The value of the record with this key.
pub fn find(n: Numbers, work: &[u8], log: &[u8], key: u32) -> FindAnswer
    ensures found { left result.found.reply result.found.value (lent result.numbers.used result.numbers.forced work.now [] log.now [])
        ≡ find key (lent n.used n.forced work.now [] log.now []) }
{
    let mut m = n;
    let found = uhtlight::uhtlight_find(&mut m, work, log, key);
    let numbers = m;
    FindAnswer { found, numbers }
}

// The records whose keys are low to high, both included, written to out as far as they fit whole.
pub fn list(n: Numbers, work: &[u8], log: &[u8], low: u32, high: u32, out: &mut [u8]) -> ListAnswer
    ensures listed { left result.listed.reply (result.listed.count ∷ pick result.listed.more 1 0 ∷ [])
        (lent result.numbers.used result.numbers.forced work.now [] log.now out.new)
        ≡ list low high (lent n.used n.forced work.now [] log.now out.old) }
{
    let mut m = n;
    let listed = uhtlight::uhtlight_list(&mut m, work, log, low, high, out);
    let numbers = m;
    ListAnswer { listed, numbers }
}
