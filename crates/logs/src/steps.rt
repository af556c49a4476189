// The steps of a unit, read off its begin record. Each function is lent the log's bytes from the begin record on.
ghost use Rattle.std.specs.Prelude.{◌≡◌, true, false, [], ◌∷◌, ◌++◌, ◌+◌, ◌-◌, ◌*◌, ◌%◌, ◌≤◌, ◌<◌, length, drop, get_or, eqb};
ghost use Rattle.field.specs.Test.{pick};
ghost use Rattle.field.specs.Bytes.{le2};
ghost use Rattle.logs.specs.Record.{begin, type_at, base_count_at, leaf_count_at, bases_at, leaves_at, dest_at};
ghost use Rattle.logs.specs.Plan.{take_out, bring_in, close, compact_plan, swap_plan, move_plan, plan};
ghost use Rattle.logs.specs.Log.{begin_ok, read_fields, saves_at, read_begin};
ghost use Rattle.logs.specs.Steps.{step_of};

use crate::opening;
use field::{PageNo, UnitNo};

// A step: LO, LI (its LO stands `back` records before), LM (`other`: not the entry that the LM before changed), LE.
#[derive(Clone, Copy)]
pub enum Planned {
    Out {
        org: PageNo,
        dest: PageNo,
    },
    In {
        org: PageNo,
        dest: PageNo,
        back: u32,
    },
    Point {
        base: PageNo,
        old: PageNo,
        new: PageNo,
        other: bool,
    },
    Close {
        unit: UnitNo,
    },
}

// The step i of a move.
fn move_step(base: PageNo, org: PageNo, dest: PageNo, unit: UnitNo, i: usize) -> Planned
    ensures { step_of result ≡ get_or (move_plan base.0 org.0 dest.0 ++ (close unit.0 ∷ [])) i (close unit.0) }
{
    if i == 0 {
        return Planned::Out { org, dest };
    }
    if i == 1 {
        return Planned::In { org, dest, back: 1 };
    }
    if i == 2 {
        return Planned::Point {
            base,
            old: org,
            new: dest,
            other: false,
        };
    }
    Planned::Close { unit }
}

// The step i of a swap of the leaves a and b, whose base pages are p and q.
fn swap_step(p: PageNo, q: PageNo, a: PageNo, b: PageNo, unit: UnitNo, i: usize) -> Planned
    ensures { step_of result ≡ get_or (swap_plan p.0 q.0 a.0 b.0 ++ (close unit.0 ∷ [])) i (close unit.0) }
{
    if i == 0 {
        return Planned::Out { org: a, dest: b };
    }
    if i == 1 {
        return Planned::Out { org: b, dest: a };
    }
    if i == 2 {
        return Planned::In {
            org: b,
            dest: a,
            back: 1,
        };
    }
    if i == 3 {
        return Planned::In {
            org: a,
            dest: b,
            back: 3,
        };
    }
    if i == 4 {
        return Planned::Point {
            base: q,
            old: b,
            new: a,
            other: false,
        };
    }
    if i == 5 {
        return Planned::Point {
            base: p,
            old: a,
            new: b,
            other: p.0 == q.0,
        };
    }
    Planned::Close { unit }
}

// The first of two steps for a page that is gathered, or the second.
fn gather_step(p: PageNo, dest: PageNo, i: usize) -> Planned
    ensures { step_of result ≡ pick (eqb (i % 2) 0) (take_out p.0 dest.0) (bring_in p.0 dest.0 1) }
{
    if i % 2 == 0 {
        return Planned::Out { org: p, dest };
    }
    Planned::In {
        org: p,
        dest,
        back: 1,
    }
}

// How many listed leaves are not gathered: the first, where it is the destination.
fn skipped(first: PageNo, dest: PageNo) -> usize
    ensures { (result ≡ pick (eqb first.0 dest.0) 1 0) × (result ≤ 1) }
{
    if first.0 == dest.0 {
        return 1;
    }
    0
}

// The step i of a compact.
pub fn compact_step(m: &[u8], unit: UnitNo, i: usize) -> Planned
    requires { (begin.fixed ≤ length m.now) × (begin_ok (read_begin unit.0 m.now) ≡ true) × (get_or m.now type_at 0 ≡ 1) }
    ensures { step_of result ≡ get_or (compact_plan (le2 m.now bases_at) (le2 m.now dest_at) (read_fields (get_or m.now leaf_count_at 0) (drop leaves_at m.now))
        ++ (close unit.0 ∷ [])) i (close unit.0) }
{
    let base = PageNo(field::get2(m, opening::BASES_AT));
    let first = PageNo(field::get2(m, opening::LEAVES_AT));
    let dest = PageNo(field::get2(m, opening::DEST_AT));
    let leaves = opening::byte_at(m, opening::LEAF_COUNT_AT);
    let skip = skipped(first, dest);
    let pairs = 2 * (leaves - skip);
    if i < pairs {
        return gather_step(
            PageNo(field::get2(m, opening::LEAVES_AT + 2 * (i / 2 + skip))),
            dest,
            i,
        );
    }
    let j = i - pairs + skip;
    if j == 0 {
        return Planned::Point {
            base,
            old: first,
            new: dest,
            other: false,
        };
    }
    if j < leaves {
        return Planned::Point {
            base,
            old: PageNo(field::get2(m, opening::LEAVES_AT + 2 * j)),
            new: PageNo(0),
            other: false,
        };
    }
    Planned::Close { unit }
}

// The base page of a swap's second leaf.
fn second_base(m: &[u8]) -> PageNo
    requires { (begin.fixed ≤ length m.now) × (1 ≤ get_or m.now base_count_at 0) }
    ensures { result.0 ≡ get_or (read_fields (get_or m.now base_count_at 0) (drop bases_at m.now)) 1 (le2 m.now bases_at) }
{
    if opening::byte_at(m, opening::BASE_COUNT_AT) < 2 {
        return PageNo(field::get2(m, opening::BASES_AT));
    }
    PageNo(field::get2(m, opening::BASES_AT + 2))
}

// The step i of a swap or a move.
pub fn other_step(m: &[u8], unit: UnitNo, i: usize) -> Planned
    requires { (begin.fixed ≤ length m.now) × (begin_ok (read_begin unit.0 m.now) ≡ true) × (saves_at m.now ≡ false) × (eqb (get_or m.now type_at 0) 1 ≡ false) }
    ensures { step_of result ≡ get_or (plan (read_begin unit.0 m.now)) i (close unit.0) }
{
    let base = PageNo(field::get2(m, opening::BASES_AT));
    let org = PageNo(field::get2(m, opening::LEAVES_AT));
    if opening::byte_at(m, opening::TYPE_AT) == 2 {
        return swap_step(
            base,
            second_base(m),
            org,
            PageNo(field::get2(m, opening::LEAVES_AT + 2)),
            unit,
            i,
        );
    }
    move_step(base, org, PageNo(field::get2(m, opening::DEST_AT)), unit, i)
}

// The step i of the unit whose begin record stands at the front of m; past its end, the end.
pub fn step_at(m: &[u8], unit: UnitNo, i: usize) -> Planned
    requires { (begin.fixed ≤ length m.now) × (begin_ok (read_begin unit.0 m.now) ≡ true) × (saves_at m.now ≡ false) }
    ensures { step_of result ≡ get_or (plan (read_begin unit.0 m.now)) i (close unit.0) }
{
    if opening::byte_at(m, opening::TYPE_AT) == 1 {
        return compact_step(m, unit, i);
    }
    other_step(m, unit, i)
}
