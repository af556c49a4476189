// Step.
#![tactic(auto)]

ghost use Rattle.std.specs.Prelude.{◌≡◌, [], ℕ, ◌<◌, length};
ghost use Rattle.std.proofs.Math.Option.{some};
ghost use Rattle.page.specs.Page.{formed};
ghost use Rattle.page.specs.Pages.{page};
ghost use Rattle.logs.specs.Steps.{step_of};
ghost use Rattle.unit.specs.Next.{target_of};
ghost use Rattle.forward.specs.Appends.{Opened};
ghost use Rattle.store.specs.Calls.{lent, left, formed_at, step};
ghost use Rattle.stepping.specs.Formed.{next_formed};

use field::PageNo;
use logs::scan::Walk;
use logs::steps::Planned;
use logs::{opening, steps};
use page::form;
use store::{Answer, Numbers, known};

// Whether page p is in form.
fn formed_at(work: &[u8], p: PageNo) -> bool
    requires { (length work.now ≡ 16384) × (p.0 < 64) }
    ensures { result ≡ formed p.0 (page p.0 work.now) }
{
    let at = 256 * (p.0 as usize);
    form::formed(p.0 as usize, &work[at..at + 256])
}

// Test 3: the page that a step changes, if it changes one, is in form.
fn target_formed(work: &[u8], x: Planned) -> bool
    requires { (length work.now ≡ 16384) × ((p : ℕ) → target_of (step_of x) ≡ some p → p < 64) }
    ensures { result ≡ formed_at (target_of (step_of x)) work.now }
{
    match x {
        Planned::Out { org, dest: _ } => formed_at(work, org),
        Planned::In {
            org: _,
            dest,
            back: _,
        } => formed_at(work, dest),
        Planned::Point {
            base,
            old: _,
            new: _,
            other: _,
        } => formed_at(work, base),
        Planned::Close { unit: _ } => true,
    }
}

// Test 3 of the open unit's next record: the page that it changes, if the unit tidies. A put or delete tests all pages as it is worked out.
fn next_formed(work: &[u8], log: &[u8], w: Walk) -> bool
    requires { (length work.now ≡ 16384) × Opened log.now w }
    ensures { result ≡ next_formed work.now log.now }
{
    let begin = w.begin;
    if opening::saves(&log[begin..]) {
        return true;
    }
    target_formed(work, steps::step_at(&log[begin..], w.unit, w.done))
}

// The next record of the open unit, appended to the log, and its page changes made.
pub fn step(n: Numbers, work: &mut [u8], log: &mut [u8]) -> Answer
    ensures stepped { left result.reply [] (lent result.numbers.used result.numbers.forced work.new [] log.new [])
        ≡ step (lent n.used n.forced work.old [] log.old []) }
{
    if work.len() != 16384 {
        return known::kept(n, 1);
    }
    if log.len() != 8192 {
        return known::kept(n, 1);
    }
    let s = logs::scan::scan_log(log, n.forced);
    if !known::knows(s, n.used) {
        return known::kept(n, 2);
    }
    let w = s.walk;
    if !w.opened {
        return known::kept(n, 10);
    }
    if !next_formed(work, log, w) {
        return known::kept(n, 3);
    }
    let reply = forward::append(work, log, w);
    if reply != 0 {
        return known::kept(n, reply);
    }
    let after = logs::past::past(log, w);
    Answer {
        reply: 0,
        numbers: Numbers {
            used: after.at as u32,
            forced: n.forced,
        },
    }
}
