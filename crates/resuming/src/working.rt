// The pages that a put or a delete changes, worked out from all work pages: tests 3, 8, 18 or 15. Those of all pages stand apart from the plan, so
// that what each takes of the stack is not added up.
ghost use Rattle.std.specs.Prelude.{◌≡◌, [], ℕ, length, get_or};
ghost use Rattle.logs.specs.Record.{Begin};
ghost use Rattle.saving.specs.Draft.{Plans};
ghost use Rattle.saving.specs.Rest.{resumed};
ghost use Rattle.resuming.specs.Lacking.{readied, worked, Needs};

use page::form;
use saving::plan::Plan;
use saving::{delete, put};
use tree::well;

// The reply, 0 where the unit can begin, and how many pages it changes.
#[derive(Clone, Copy)]
pub struct Extent {
    pub reply: u8,
    pub count: u8,
}

// Tests 3 and 8: the reply, 0 where all pages are in form and a well-formed tree.
pub fn readied(work: &[u8]) -> u8
    requires { length work.now ≡ 16384 }
    ensures { result ≡ readied work.now }
{
    if !form::all_formed(work) {
        return 3;
    }
    if !well::well_formed(work) {
        return 8;
    }
    0
}

// The pages changed with the record r, by a put (type 4) or a delete, where these tests hold.
pub fn worked(work: &[u8], r: &[u8], kind: u8) -> Plan
    requires { (length work.now ≡ 16384) × (length r.now ≡ 16) × (readied work.now ≡ 0) }
    ensures { Plans work.now r.now result (worked kind r.now work.now) }
{
    if kind == 4 {
        return put::put_drafts(work, r);
    }
    delete::delete_drafts(work, field::get4(r, 2))
}

// What a put or a delete that is not begun yet needs.
pub fn needed(work: &[u8], r: &[u8], kind: u8) -> Extent
    requires { (length work.now ≡ 16384) × (length r.now ≡ 16) }
    ensures { (g : Begin) (n : ℕ) → g.type ≡ kind → get_or g.saved 0 [] ≡ r.now → Needs (resumed g n [] work.now) result.reply result.count }
{
    let reply = readied(work);
    if reply != 0 {
        return Extent {
            reply: reply,
            count: 0,
        };
    }
    let x = worked(work, r, kind);
    Extent {
        reply: x.reply,
        count: x.count,
    }
}
