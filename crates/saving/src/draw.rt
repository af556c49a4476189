// Drawing: the bytes of a changed page, from its draft.
ghost use Rattle.std.specs.Prelude.{◌≡◌, [], ℕ, ◌+◌, ◌*◌, ◌≤◌, ◌<◌, length};
ghost use Rattle.field.specs.Bytes.{put, zeroes};
ghost use Rattle.page.specs.Page.{joined, entry, made};
ghost use Rattle.page.specs.Pages.{pages};
ghost use Rattle.saving.specs.Save.{drawn};
ghost use Rattle.saving.specs.Draft.{run, inserted, spare_of, sheet_of, Run, Ready};

use crate::draft::{Draft, More};
use field::{LogNo, PageNo};
use page::change;

// Writes this log number over a blank image and, where they are kept, the spare bytes of page p.
fn begin(image: &mut [u8], w: &[u8], p: PageNo, kept: bool, n: LogNo)
    requires { (length w.now ≡ 16384) × (p.0 < 64) × (length image.old ≡ 256) }
    ensures { (sign : ℕ) → image.old ≡ made sign 0 (zeroes 8) [] → image.new ≡ made sign n.0 (spare_of kept p.0 (pages w.now)) [] }
{
    change::stamp(image, n);
    if !kept {
        return;
    }
    let at = 256 * (p.0 as usize) + 8;
    field::copy(image, 8, &w[at..at + 8]);
}

// Writes k rows of `size` bytes each over the image, from the offset at: those of page q from the i-th on.
fn add_run(image: &mut [u8], at: usize, w: &[u8], q: PageNo, size: usize, i: u16, k: u16)
    requires { (length w.now ≡ 16384) × (q.0 < 64) × Run size w.now q.0 i k × (at + size * k ≤ length image.old) }
    ensures { image.new ≡ put at (joined (run size q.0 i k (pages w.now))) image.old }
{
    let from = 256 * (q.0 as usize) + (16 + size * (i as usize));
    let long = size * (k as usize);
    field::copy(image, at, &w[from..from + long]);
}

// Writes an entry with this key and page over the image, from the offset at.
fn add_entry(image: &mut [u8], at: usize, key: u32, to: PageNo)
    requires { at + 8 ≤ length image.old }
    ensures { image.new ≡ put at (entry key to.0) image.old }
{
    image[at] = b'e';
    image[at + 1] = b'n';
    field::put4(image, at + 2, key);
    field::put2(image, at + 6, to.0);
}

// Writes the new row, if there is one, over the image, from the offset at, and counts it; r is the record put.
fn add_more(image: &mut [u8], at: usize, r: &[u8], more: More) -> u16
    requires { at + length (joined (inserted r.now more)) ≤ length image.old }
    ensures { (image.new ≡ put at (joined (inserted r.now more)) image.old) × (result ≡ length (inserted r.now more)) }
{
    match more {
        More::Nothing => 0,
        More::Record => {
            field::copy(image, at, r);
            1
        }
        More::Entry(key, to) => {
            add_entry(image, at, key, to);
            1
        }
    }
}

// Draws the page that a draft stands for, with this log number, over a blank image with its letter; r is the record put.
pub fn draw(image: &mut [u8], w: &[u8], r: &[u8], d: Draft, n: LogNo)
    requires { (length w.now ≡ 16384) × (length r.now ≡ 16) × Ready w.now d × (length image.old ≡ 256) × (image.old ≡ made d.sign 0 (zeroes 8) []) }
    ensures { image.new ≡ drawn n.0 (sheet_of (pages w.now) r.now d) }
{
    let size = d.size as usize;
    let behind = 16 + size * (d.many as usize);
    begin(image, w, d.page, d.kept, n);
    add_run(image, 16, w, d.source, size, d.from, d.many);
    let more = d.more;
    let m = add_more(image, behind, r, more);
    add_run(
        image,
        behind + size * (m as usize),
        w,
        d.source,
        size,
        d.next,
        d.rest,
    );
    field::put2(image, 2, d.many + m + d.rest);
}
