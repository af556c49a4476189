// What the put or delete lacks that is open at the log's end: its changed pages, worked out anew, of which the first must be those logged. Each
// function is lent the log whole, or from the first image on, and w is what one pass over it knows at its end.
ghost use Rattle.std.specs.Prelude.{◌≡◌, map, ◌+◌, ◌*◌, ◌≤◌, length, eqb};
ghost use Rattle.field.specs.Test.{both};
ghost use Rattle.field.specs.Bytes.{part, same, le2};
ghost use Rattle.page.specs.Pages.{pages};
ghost use Rattle.logs.specs.Record.{image, length_of};
ghost use Rattle.logs.specs.Scan.{images_in, images_on};
ghost use Rattle.saving.specs.Save.{sheets, drawn};
ghost use Rattle.saving.specs.Draft.{sheet_of, Ready, Plans};
ghost use Rattle.saving.specs.Rest.{image_of, begins};
ghost use Rattle.resuming.specs.Lacking.{drafted, Unfinished, record_on, last_number, lacked};

use crate::working;
use field::LogNo;
use logs::scan::Walk;
use logs::{kind, opening};
use page::image;
use saving::draft::Draft;
use saving::plan::Plan;
use saving::{draw, plan};

// Whether the LG at the front of m has the page that a draft stands for, with this number; r is the record put.
fn same_image(work: &[u8], r: &[u8], d: Draft, n: LogNo, m: &[u8]) -> bool
    requires { (length work.now ≡ 16384) × (length r.now ≡ 16) × Ready work.now d × (length_of image 1 ≤ length m.now) }
    ensures { result ≡ both (eqb (le2 m.now 12) d.page.0) (same (part 16 256 m.now) (drawn n.0 (sheet_of (pages work.now) r.now d))) }
{
    if field::get2(m, 12) != d.page.0 {
        return false;
    }
    let mut page = image::blank(d.sign);
    draw::draw(&mut page, work, r, d, n);
    field::same_bytes(&m[kind::LG_LONG..kind::LG_LONG + 256], &page)
}

// Whether the images of k LGs that stand one behind the other at the front of m are the first pages that the plan x lists, with this number.
fn same_images(work: &[u8], r: &[u8], x: Plan, n: LogNo, m: &[u8], k: u8) -> bool
    requires work_len { (length work.now ≡ 16384) × (length r.now ≡ 16) × Plans work.now r.now x (sheets (drafted (pages work.now) r.now x)) }
    requires k_le_count { (k ≤ x.count) × (length_of image 1 * k ≤ length m.now) }
    ensures { result ≡ begins n.0 (images_in k m.now) (map (image_of n.0) (drafted (pages work.now) r.now x)) }
{
    let mut at: usize = 0;
    let mut i: u8 = 0;
    while i < k {
        let d = plan::draft_at(x, i);
        if !same_image(work, r, d, n, &m[at..]) {
            return false;
        }
        at += kind::LG_LONG + 256;
        i += 1;
    }
    true
}

// LE's number where k pages are changed.
pub fn last_number(w: Walk, k: u8) -> usize
    requires { w.done ≤ w.number.0 }
    ensures { result ≡ last_number w k }
{
    w.number.0 as usize - w.done + k as usize + 1
}

// Whether the images logged are the first pages that the plan x lists, with LE's number. Where no four bytes can bear that, they are not.
fn agrees(work: &[u8], log: &[u8], w: Walk, x: Plan) -> bool
    requires { (length work.now ≡ 16384) × Unfinished log.now w × Plans work.now (record_on log.now w) x (sheets (drafted (pages work.now) (record_on log.now w) x)) }
    ensures { result ≡ begins (last_number w x.count) (images_on log.now w) (map (image_of (last_number w x.count)) (drafted (pages work.now) (record_on log.now w) x)) }
{
    if w.done == 0 {
        return true;
    }
    if (x.count as usize) < w.done {
        return false;
    }
    let end = last_number(w, x.count);
    if 4294967295 < end {
        return false;
    }
    let at = w.begin + kind::LB_LONG;
    let from = at + 16;
    same_images(
        work,
        &log[at..at + 16],
        x,
        LogNo(end as u32),
        &log[from..],
        w.done as u8,
    )
}

// The pages changed, or the reply that refuses them: 3, 8, 18 or 15, and 5 where an image logged is another.
pub fn lacked(work: &[u8], log: &[u8], w: Walk) -> Plan
    requires { (length work.now ≡ 16384) × Unfinished log.now w }
    ensures { Plans work.now (record_on log.now w) result (lacked log.now w work.now) }
{
    let reply = working::readied(work);
    if reply != 0 {
        return plan::refused(reply);
    }
    let at = w.begin + kind::LB_LONG;
    let x = working::worked(work, &log[at..at + 16], log[w.begin + opening::TYPE_AT]);
    if x.reply != 0 {
        return x;
    }
    if !agrees(work, log, w, x) {
        return plan::refused(5);
    }
    x
}
