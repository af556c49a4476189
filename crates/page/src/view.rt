// What stands in a page, by its place.
ghost use Rattle.std.specs.Prelude.{◌≡◌, [], ◌+◌, ◌*◌, ◌≤◌, ◌<◌, length, get_or};
ghost use Rattle.page.specs.Page.{key_of, to_page, value_of, letter, count, number, rows};

use field::LogNo;

// The mark's second letter.
pub fn letter(pg: &[u8]) -> u8
    requires { length pg.now ≡ 256 }
    ensures { result ≡ letter pg.now }
{
    pg[1]
}

// How many rows the page has.
pub fn count(pg: &[u8]) -> u16
    requires { length pg.now ≡ 256 }
    ensures { result ≡ count pg.now }
{
    field::get2(pg, 2)
}

// The log number of the page's last change.
pub fn number(pg: &[u8]) -> LogNo
    requires { length pg.now ≡ 256 }
    ensures { result.0 ≡ number pg.now }
{
    LogNo(field::get4(pg, 4))
}

// The key of row i, where a row is sz bytes.
pub fn row_key(pg: &[u8], sz: usize, i: usize) -> u32
    requires { (6 ≤ sz) × (16 + sz * i + sz ≤ length pg.now) × (i < count pg.now) }
    ensures { result ≡ key_of (get_or (rows sz pg.now) i []) }
{
    field::get4(pg, 16 + sz * i + 2)
}

// The page that entry i points to.
pub fn entry_page(pg: &[u8], i: usize) -> u16
    requires { (16 + 8 * i + 8 ≤ length pg.now) × (i < count pg.now) }
    ensures { result ≡ to_page (get_or (rows 8 pg.now) i []) }
{
    field::get2(pg, 16 + 8 * i + 6)
}

// The value of record i.
pub fn record_value(pg: &[u8], i: usize) -> [u8; 10]
    requires { (16 + 16 * i + 16 ≤ length pg.now) × (i < count pg.now) }
    ensures { result ≡ value_of (get_or (rows 16 pg.now) i []) }
{
    let at = 16 + 16 * i + 6;
    let mut value = [0u8; 10];
    field::copy(&mut value, 0, &pg[at..at + 10]);
    value
}
