// A plan by value: the drafts of the pages that a put or a delete changes, in number order, or the reply that refuses it.
ghost use Rattle.std.specs.Prelude.{◌≡◌, List, [], ◌∷◌, ℕ, ◌≤◌, take};
ghost use Rattle.page.specs.Pages.{pages};
ghost use Rattle.saving.specs.Save.{cannot, sheets};
ghost use Rattle.saving.specs.Draft.{sheet_of, Ready, draft_at, Plans};

use crate::draft;
use crate::draft::Draft;
use field::PageNo;

// The first `count` drafts are listed; the reply is 0 where the pages can be changed.
#[derive(Clone, Copy)]
pub struct Plan {
    pub reply: u8,
    pub count: u8,
    pub first: Draft,
    pub second: Draft,
    pub third: Draft,
    pub fourth: Draft,
}

// A refusal.
pub fn refused(reply: u8) -> Plan
    requires { 1 ≤ reply }
    ensures { (w r : List ℕ) → Plans w r result (cannot reply) }
{
    let d = draft::emptied(PageNo(0));
    Plan {
        reply: reply,
        count: 0,
        first: d,
        second: d,
        third: d,
        fourth: d,
    }
}

// The first n of four drafts; those behind them stand for nothing.
pub fn listed(n: u8, a: Draft, b: Draft, c: Draft, d: Draft) -> Plan
    requires { n ≤ 4 }
    ensures { (w r : List ℕ) → Ready w a → Ready w b → Ready w c → Ready w d → Plans w r result (sheets (take n (sheet_of (pages w) r a ∷ sheet_of (pages w) r b ∷ sheet_of (pages w) r c ∷ sheet_of (pages w) r d ∷ []))) }
{
    Plan {
        reply: 0,
        count: n,
        first: a,
        second: b,
        third: c,
        fourth: d,
    }
}

// The draft in place i.
pub fn draft_at(x: Plan, i: u8) -> Draft
    ensures { result ≡ draft_at x i }
{
    if i == 0 {
        return x.first;
    }
    if i == 1 {
        return x.second;
    }
    if i == 2 {
        return x.third;
    }
    x.fourth
}
