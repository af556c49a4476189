// The put or delete that is open at the log's end, carried on by the first record that it lacks, or a reply of its tests and nothing changed.
// Each function is lent the log whole, and w is what one pass over it knows at its end.
ghost use Rattle.std.specs.Prelude.{◌≡◌, ◌+◌, ◌≤◌, ◌<◌, length};
ghost use Rattle.field.specs.Bytes.{put};
ghost use Rattle.page.specs.Pages.{pages};
ghost use Rattle.logs.specs.Record.{image, end, length_of, LG, LE, encode};
ghost use Rattle.logs.specs.Scan.{images_on};
ghost use Rattle.unit.specs.Made.{ended};
ghost use Rattle.saving.specs.Draft.{sheet_of, Ready};
ghost use Rattle.saving.specs.Rest.{image_of};
ghost use Rattle.resuming.specs.Lacking.{Unfinished, record_on, last_number};
ghost use Rattle.resuming.specs.Concluded.{outcome, concluded_on, tested};

use crate::lacking;
use field::LogNo;
use logs::scan::Walk;
use logs::{kind, writing};
use page::image;
use saving::draft::Draft;
use saving::{draw, plan};
use unit::apply;

// Tests 6 and 7 where k LGs and the LE are lacked: the reply, 0 where both hold.
fn admitted(w: Walk, k: usize) -> u8
    requires { (w.at ≤ 8192) × (k ≤ 4) }
    ensures { result ≡ tested w.at w.number.0 k }
{
    if 8192 < w.at + ((kind::LG_LONG + 256) * k + kind::LE_LONG) {
        return 6;
    }
    if 4294967295 < w.number.0 as usize + (k + 1) {
        return 7;
    }
    0
}

// The LG of the page that a draft stands for, where k pages are changed.
fn append_image(work: &[u8], log: &mut [u8], w: Walk, d: Draft, k: u8)
    requires { (length work.now ≡ 16384) × Unfinished log.old w × Ready work.now d × (w.at + length_of image 1 ≤ length log.old) × (w.number.0 < 4294967295) × (last_number w k ≤ 4294967295) }
    ensures { log.new ≡ put w.at (encode (w.number.0 + 1) (LG (image_of (last_number w k) (sheet_of (pages work.now) (record_on log.old w) d)))) log.old }
{
    let at = w.begin + kind::LB_LONG;
    let end = lacking::last_number(w, k);
    let mut page = image::blank(d.sign);
    draw::draw(&mut page, work, &log[at..at + 16], d, LogNo(end as u32));
    writing::put_image(log, w.at, LogNo(w.number.0 + 1), d.page, &page);
}

// The LE, and the images logged laid over their pages.
fn append_end(work: &mut [u8], log: &mut [u8], w: Walk)
    requires { (length work.old ≡ 16384) × Unfinished log.old w × (w.at + length_of end 0 ≤ length log.old) × (w.number.0 < 4294967295) }
    ensures { (work.new ≡ ended (w.number.0 + 1) (images_on log.old w) work.old)
        × (log.new ≡ put w.at (encode (w.number.0 + 1) (LE w.unit.0 (images_on log.old w))) log.old) }
{
    let n = LogNo(w.number.0 + 1);
    let from = w.begin + kind::LB_LONG + 16;
    apply::end_all(work, &log[from..], w.done, n);
    writing::put_end(log, w.at, n, w.unit);
}

// The first record lacked.
pub fn append_saved(work: &mut [u8], log: &mut [u8], w: Walk) -> u8
    requires { (length work.old ≡ 16384) × (length log.old ≡ 8192) × Unfinished log.old w }
    ensures { outcome result work.new log.new ≡ concluded_on w work.old log.old }
{
    let x = lacking::lacked(work, log, w);
    if x.reply != 0 {
        return x.reply;
    }
    let left = x.count as usize - w.done;
    let reply = admitted(w, left);
    if reply != 0 {
        return reply;
    }
    if left == 0 {
        append_end(work, log, w);
        return 0;
    }
    let d = plan::draft_at(x, w.done as u8);
    append_image(work, log, w, d, x.count);
    0
}
