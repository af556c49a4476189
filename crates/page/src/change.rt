// What a log record does to a page of 256 bytes: each change stamps it with the record's number and keeps its spare bytes.
ghost use Rattle.std.specs.Prelude.{◌≡◌, true, [], ◌∷◌, ◌+◌, ◌*◌, ◌≤◌, ◌<◌, length};
ghost use Rattle.field.specs.Test.{pick};
ghost use Rattle.field.specs.Bytes.{put, bytes2, bytes4};
ghost use Rattle.page.specs.Page.{count, rows_of, is_base, is_leaf, is_empty};
ghost use Rattle.page.specs.Results.{made_empty, made_longer, made_pointing, made_shorter};

use crate::view;
use field::{LogNo, PageNo};

// Writes the log number n as that of the page's last change.
pub fn stamp(pg: &mut [u8], n: LogNo)
    requires { length pg.old ≡ 256 }
    ensures { pg.new ≡ put 4 (bytes4 n.0) pg.old }
{
    field::put4(pg, 4, n.0);
}

// Writes the header: the letter, the count of rows and the log number.
fn set_head(pg: &mut [u8], sign: u8, rows: u16, n: LogNo)
    requires { length pg.old ≡ 256 }
    ensures { pg.new ≡ put 4 (bytes4 n.0) (put 2 (bytes2 rows) (put 1 (sign ∷ []) pg.old)) }
{
    pg[1] = sign;
    field::put2(pg, 2, rows);
    stamp(pg, n);
}

// Makes a leaf page empty.
pub fn make_empty(pg: &mut [u8], n: LogNo)
    requires { is_leaf pg.old ≡ true }
    ensures { pg.new ≡ made_empty n.0 pg.old }
{
    set_head(pg, b'e', 0, n);
    field::clear(pg, 16, 240);
}

// Appends k records to an empty page or a leaf page with room for them.
pub fn append(pg: &mut [u8], rs: &[u8], k: u16, n: LogNo)
    requires pg_value { pick (is_empty pg.old) true (is_leaf pg.old) ≡ true }
    requires rs_len { (length rs.now ≡ 16 * k) × (count pg.old + k ≤ 15) }
    ensures { pg.new ≡ made_longer n.0 (rows_of 16 k rs.now) pg.old }
{
    let old = view::count(pg);
    set_head(pg, b'l', old + k, n);
    field::copy(pg, 16 + 16 * (old as usize), rs);
}

// Points entry i of a base page to another leaf page.
pub fn redirect(pg: &mut [u8], i: usize, new: PageNo, n: LogNo)
    requires { (is_base pg.old ≡ true) × (i < count pg.old) }
    ensures { pg.new ≡ made_pointing n.0 i new.0 pg.old }
{
    let rows = view::count(pg);
    set_head(pg, b'b', rows, n);
    field::put2(pg, 16 + (8 * i + 6), new.0);
}

// Removes entry i of a base page that has another.
pub fn remove(pg: &mut [u8], i: usize, n: LogNo)
    requires { (is_base pg.old ≡ true) × (i < count pg.old) × (2 ≤ count pg.old) }
    ensures { pg.new ≡ made_shorter n.0 i pg.old }
{
    let rows = view::count(pg);
    let at = 16 + 8 * i;
    let behind = 8 * (rows as usize - 1 - i);
    set_head(pg, b'b', rows - 1, n);
    field::shift(pg, at, at + 8, behind);
    field::clear(pg, at + behind, 8);
}
