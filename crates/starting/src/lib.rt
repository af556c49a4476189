// What both begins have in common: tests 9, 3 and 8, then, for a chosen unit, tests 6 and 7 and its LB.
#![tactic(auto)]

ghost use Rattle.std.specs.Prelude.{◌≡◌, [], ◌+◌, ◌≤◌, length};
ghost use Rattle.field.specs.Bytes.{put};
ghost use Rattle.logs.specs.Record.{begin, LB, encode};
ghost use Rattle.logs.specs.Plan.{plan};
ghost use Rattle.logs.specs.Log.{State};
ghost use Rattle.logs.specs.Scan.{shown};
ghost use Rattle.unit.specs.Next.{room};
ghost use Rattle.store.specs.Calls.{lent, left, begun};
ghost use Rattle.starting.specs.Begins.{unready, record_of, Writable};

use field::{LogNo, UnitNo};
use logs::kind;
use logs::scan::Walk;
use store::known;
use store::known::{Answer, Numbers};
use unit::choice::Choice;
use unit::room::Rest;

// Tests 9, 3 and 8: the reply, 0 where all are passed.
pub fn unready(opened: bool, work: &[u8]) -> u8
    requires { length work.now ≡ 16384 }
    ensures { result ≡ unready opened work.now }
{
    if opened {
        return 9;
    }
    if !page::form::all_formed(work) {
        return 3;
    }
    if !tree::well::well_formed(work) {
        return 8;
    }
    0
}

// The LB of a chosen unit. Its lists stand beside it, since of an array that is a parameter the places in use can be lent.
fn put_lists(
    s: &mut [u8],
    at: usize,
    n: LogNo,
    unit: UnitNo,
    c: Choice,
    bases: [u16; 2],
    leaves: [u16; 8],
)
    requires { Writable c × (at + begin.fixed ≤ length s.old) × (bases ≡ c.bases) × (leaves ≡ c.leaves) }
    ensures { s.new ≡ put at (encode n.0 (LB (record_of c unit.0))) s.old }
{
    let i = c.base_count as usize;
    let j = c.leaf_count as usize;
    let dest = c.dest;
    logs::writing::put_begin(
        s,
        at,
        n,
        unit,
        c.kind,
        c.fill,
        &bases[..i],
        &leaves[..j],
        dest,
    );
}

// The LB of a chosen unit.
fn put_record(s: &mut [u8], at: usize, n: LogNo, unit: UnitNo, c: Choice)
    requires { Writable c × (at + begin.fixed ≤ length s.old) }
    ensures { s.new ≡ put at (encode n.0 (LB (record_of c unit.0))) s.old }
{
    let bases = c.bases;
    let leaves = c.leaves;
    put_lists(s, at, n, unit, c, bases, leaves);
}

// What a chosen unit needs after its LB, whatever its number: it is counted off an LB that stands in no log.
fn needed(work: &[u8], c: Choice) -> Rest
    requires { (length work.now ≡ 16384) × Writable c }
    ensures { (result.bytes ≡ room work.now (plan (record_of c 0))) × (result.steps ≡ length (plan (record_of c 0))) }
{
    let mut m = [0u8; kind::LB_LONG];
    put_record(&mut m, 0, LogNo(0), UnitNo(0), c);
    unit::room::remaining(work, &m, UnitNo(0), 0)
}

// Tests 6 and 7 for the whole unit, then its LB.
pub fn begun(n: Numbers, work: &[u8], log: &mut [u8], w: Walk, c: Choice) -> Answer
    requires { (length work.now ≡ 16384) × (length log.old ≡ 8192) × (w.at ≤ 8192) × Writable c }
    ensures { (s : State) → w ≡ shown s → left result.reply [] (lent result.numbers.used result.numbers.forced work.now [] log.new [])
        ≡ begun (lent n.used n.forced work.now [] log.old []) s (record_of c (s.unit + 1)) }
{
    let rest = needed(work, c);
    let end = w.at + kind::size_of(kind::LB, 0);
    if 8192 < end + rest.bytes {
        return known::kept(n, 6);
    }
    if 4294967295 < w.number.0 as usize + 1 + rest.steps {
        return known::kept(n, 7);
    }
    if 4294967295 <= w.unit.0 {
        return known::kept(n, 7);
    }
    put_record(log, w.at, LogNo(w.number.0 + 1), UnitNo(w.unit.0 + 1), c);
    Answer {
        reply: 0,
        numbers: Numbers {
            used: end as u32,
            forced: n.forced,
        },
    }
}
