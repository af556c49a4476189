// The page changes on page p of 64 pages side by side: the page is lent as a part of the whole.
ghost use Rattle.std.specs.Prelude.{◌≡◌, true, ◌+◌, ◌*◌, ◌≤◌, ◌<◌, length};
ghost use Rattle.field.specs.Test.{pick};
ghost use Rattle.field.specs.Bytes.{put, bytes4};
ghost use Rattle.page.specs.Page.{count, rows_of, is_base, is_leaf, is_empty};
ghost use Rattle.page.specs.Pages.{page, put_page};
ghost use Rattle.page.specs.Results.{made_empty, made_longer, made_pointing, made_shorter};

use crate::change;
use field::{LogNo, PageNo};

// Writes the log number n as that of page p's last change.
pub fn stamp_at(w: &mut [u8], p: PageNo, n: LogNo)
    requires { (length w.old ≡ 16384) × (p.0 < 64) }
    ensures { w.new ≡ put_page p.0 (put 4 (bytes4 n.0) (page p.0 w.old)) w.old }
{
    let at = 256 * (p.0 as usize);
    change::stamp(&mut w[at..at + 256], n);
}

// Makes page p, a leaf page, empty.
pub fn make_empty_at(w: &mut [u8], p: PageNo, n: LogNo)
    requires w_len { (length w.old ≡ 16384) × (p.0 < 64) }
    requires w_value { is_leaf (page p.0 w.old) ≡ true }
    ensures { w.new ≡ put_page p.0 (made_empty n.0 (page p.0 w.old)) w.old }
{
    let at = 256 * (p.0 as usize);
    change::make_empty(&mut w[at..at + 256], n);
}

// Appends k records to page p, an empty page or a leaf page with room for them.
pub fn append_at(w: &mut [u8], p: PageNo, rs: &[u8], k: u16, n: LogNo)
    requires w_len { (length w.old ≡ 16384) × (p.0 < 64) }
    requires w_value { pick (is_empty (page p.0 w.old)) true (is_leaf (page p.0 w.old)) ≡ true }
    requires rs_len { (length rs.now ≡ 16 * k) × (count (page p.0 w.old) + k ≤ 15) }
    ensures { w.new ≡ put_page p.0 (made_longer n.0 (rows_of 16 k rs.now) (page p.0 w.old)) w.old }
{
    let at = 256 * (p.0 as usize);
    change::append(&mut w[at..at + 256], rs, k, n);
}

// Points entry i of page p, a base page, to another leaf page.
pub fn redirect_at(w: &mut [u8], p: PageNo, i: usize, new: PageNo, n: LogNo)
    requires w_len { (length w.old ≡ 16384) × (p.0 < 64) }
    requires w_value { (is_base (page p.0 w.old) ≡ true) × (i < count (page p.0 w.old)) }
    ensures { w.new ≡ put_page p.0 (made_pointing n.0 i new.0 (page p.0 w.old)) w.old }
{
    let at = 256 * (p.0 as usize);
    change::redirect(&mut w[at..at + 256], i, new, n);
}

// Removes entry i of page p, a base page that has another.
pub fn remove_at(w: &mut [u8], p: PageNo, i: usize, n: LogNo)
    requires w_len { (length w.old ≡ 16384) × (p.0 < 64) }
    requires w_value { (is_base (page p.0 w.old) ≡ true) × (i < count (page p.0 w.old)) × (2 ≤ count (page p.0 w.old)) }
    ensures { w.new ≡ put_page p.0 (made_shorter n.0 i (page p.0 w.old)) w.old }
{
    let at = 256 * (p.0 as usize);
    change::remove(&mut w[at..at + 256], i, n);
}
