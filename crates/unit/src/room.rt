// What remains of a unit: its steps are read off its begin record, and an LO to come is counted by its work page.
ghost use Rattle.std.specs.Prelude.{◌≡◌, true, false, ◌+◌, ◌*◌, ◌≤◌, ◌<◌, length, drop};
ghost use Rattle.logs.specs.Record.{length_of, out};
ghost use Rattle.logs.specs.Plan.{plan};
ghost use Rattle.logs.specs.Log.{begin_ok, saves_at, read_begin};
ghost use Rattle.logs.specs.Steps.{step_of};
ghost use Rattle.unit.specs.Next.{step_size, room};
ghost use Rattle.unit.specs.Room.{is_close, Inside};

use field::UnitNo;
use logs::steps::Planned;
use logs::{kind, steps};
use tree::well;

// The bytes of the records to come, and how many records these are.
#[derive(Clone, Copy)]
pub struct Rest {
    pub bytes: usize,
    pub steps: usize,
}

// The bytes of an LO of k records, however many a page claims to have.
fn out_size(k: u16) -> usize
    ensures { (result ≡ length_of out k) × (result ≤ 1048580) }
{
    let fixed = kind::size_of(kind::LO, 0);
    let each = kind::size_of(kind::LO, 1) - fixed;
    fixed + each * (k as usize)
}

// The bytes of a step's record.
fn step_size(w: &[u8], s: Planned) -> usize
    requires { (length w.now ≡ 16384) × Inside (step_of s) }
    ensures { (result ≡ step_size w.now (step_of s)) × (result ≤ 1048580) }
{
    match s {
        Planned::Out { org, dest: _ } => out_size(well::count_at(w, org.0 as usize)),
        Planned::In {
            org: _,
            dest: _,
            back: _,
        } => kind::size_of(kind::LI, 0),
        Planned::Point {
            base: _,
            old: _,
            new: _,
            other: _,
        } => kind::size_of(kind::LM, 0),
        Planned::Close { unit: _ } => kind::size_of(kind::LE, 0),
    }
}

// Whether a step is the unit's end.
fn closes(s: Planned) -> bool
    ensures { result ≡ is_close (step_of s) }
{
    match s {
        Planned::Out { org: _, dest: _ } => false,
        Planned::In {
            org: _,
            dest: _,
            back: _,
        } => false,
        Planned::Point {
            base: _,
            old: _,
            new: _,
            other: _,
        } => false,
        Planned::Close { unit: _ } => true,
    }
}

// What remains of the unit whose begin record stands at the front of m, where `done` of its steps are done.
pub fn remaining(w: &[u8], m: &[u8], unit: UnitNo, done: usize) -> Rest
    requires { (length w.now ≡ 16384) × (44 ≤ length m.now) × (begin_ok (read_begin unit.0 m.now) ≡ true) × (done < length (plan (read_begin unit.0 m.now))) × (saves_at m.now ≡ false) }
    ensures { (result.bytes ≡ room w.now (drop done (plan (read_begin unit.0 m.now)))) × (result.steps ≡ length (drop done (plan (read_begin unit.0 m.now)))) }
{
    let mut bytes: usize = 0;
    let mut i = done;
    loop {
        let s = steps::step_at(m, unit, i);
        bytes += step_size(w, s);
        i += 1;
        if closes(s) {
            return Rest {
                bytes: bytes,
                steps: i - done,
            };
        }
    }
}
