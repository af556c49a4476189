// Writing a record over lent bytes: the very bytes that `encode` gives.
ghost use Rattle.std.specs.Prelude.{◌≡◌, [], ◌∷◌, ◌+◌, ◌-◌, ◌*◌, ◌≤◌, ◌<◌, length, get_or};
ghost use Rattle.field.specs.Test.{pick};
ghost use Rattle.field.specs.Bytes.{put};
ghost use Rattle.page.specs.Page.{rows_of};
ghost use Rattle.logs.specs.Record.{letter, check, begin, out, into, modify, image, end, length_of, LB, LO, LM, LG, LE, header, fields, new_key, encode, encode_check};
ghost use Rattle.logs.specs.Table.{kind_at};
ghost use Rattle.logs.specs.Write.{unit_head, paged, in_bytes, check_of, begin_of, save_of, start_of, image_of, image_head};

use crate::{kind, opening};
use field::{LogNo, PageNo, UnitNo};

// The mark of the kind k.
fn put_mark(s: &mut [u8], at: usize, k: usize)
    requires { (k < 7) × (at + 2 ≤ length s.old) }
    ensures { s.new ≡ put at (letter ∷ (kind_at k).sign ∷ []) s.old }
{
    let first = kind::lead(k);
    let second = kind::sign(k);
    s[at] = first;
    s[at + 1] = second;
}

// The header of a record of the kind k: mark, whole length, log number, previous log number.
fn put_header(s: &mut [u8], at: usize, k: usize, long: u16, n: LogNo, prior: LogNo)
    requires { (k < 7) × (at + 12 ≤ length s.old) }
    ensures { s.new ≡ put at (header (kind_at k) long n.0 prior.0) s.old }
{
    put_mark(s, at, k);
    field::put2(s, at + 2, long);
    field::put4(s, at + 4, n.0);
    field::put4(s, at + 8, prior.0);
}

// A header and a unit number: all of an LE, and the front of an LB that carries `rows` records.
pub fn put_unit(s: &mut [u8], at: usize, k: usize, rows: u16, n: LogNo, prior: LogNo, unit: UnitNo)
    requires { (k < 7) × (rows ≤ 15) × (at + end.fixed ≤ length s.old) }
    ensures { s.new ≡ put at (unit_head (kind_at k) rows n.0 prior.0 unit.0) s.old }
{
    put_header(s, at, k, kind::length_of(k, rows), n, prior);
    field::put4(s, at + 12, unit.0);
}

// A header, two pages, a number of two bytes and zero: the front of an LO, an LI and an LM.
pub fn put_paged(
    s: &mut [u8],
    at: usize,
    k: usize,
    rows: u16,
    n: LogNo,
    a: PageNo,
    b: PageNo,
    c: u16,
)
    requires { (k < 7) × (rows ≤ 15) × (1 ≤ n.0) × (at + out.fixed ≤ length s.old) }
    ensures { s.new ≡ put at (paged (kind_at k) rows n.0 a.0 b.0 c) s.old }
{
    put_header(s, at, k, kind::length_of(k, rows), n, LogNo(n.0 - 1));
    field::put2(s, at + 12, a.0);
    field::put2(s, at + 14, b.0);
    field::put2(s, at + 16, c);
    field::put2(s, at + 18, 0);
}

// The log number of the record `back` records before, 0 where there is none.
fn earlier(n: LogNo, back: u32) -> LogNo
    ensures { result.0 ≡ n.0 - back }
{
    if n.0 < back {
        return LogNo(0);
    }
    LogNo(n.0 - back)
}

// An LI whose LO stands `back` records before and carried `rows` records.
pub fn put_in(s: &mut [u8], at: usize, n: LogNo, org: PageNo, dest: PageNo, rows: u16, back: u32)
    requires { (1 ≤ n.0) × (at + into.fixed ≤ length s.old) }
    ensures { s.new ≡ put at (in_bytes n.0 org.0 dest.0 back rows) s.old }
{
    put_paged(s, at, kind::LI, 0, n, org, dest, rows);
    field::put4(s, at + 20, earlier(n, back).0);
}

// The new key of an LM.
fn new_key(new: PageNo, key: u32) -> u32
    ensures { result ≡ new_key new.0 key }
{
    if new.0 == 0 {
        return 0;
    }
    key
}

// An LM; a new page 0 removes, and the new key is then 0.
pub fn put_modify(
    s: &mut [u8],
    at: usize,
    n: LogNo,
    base: PageNo,
    old: PageNo,
    new: PageNo,
    key: u32,
)
    requires { (1 ≤ n.0) × (at + modify.fixed ≤ length s.old) }
    ensures { s.new ≡ put at (encode n.0 (LM base.0 old.0 new.0 key)) s.old }
{
    put_paged(s, at, kind::LM, 0, n, base, old, new.0);
    field::put4(s, at + 20, key);
    field::put4(s, at + 24, new_key(new, key));
}

// An LE.
pub fn put_end(s: &mut [u8], at: usize, n: LogNo, unit: UnitNo)
    requires { (1 ≤ n.0) × (at + end.fixed ≤ length s.old) }
    ensures { s.new ≡ put at (encode n.0 (LE unit.0 [])) s.old }
{
    put_unit(s, at, kind::LE, 0, n, LogNo(n.0 - 1), unit);
}

// An LO of the records rs, 16 bytes each.
pub fn put_out(s: &mut [u8], at: usize, n: LogNo, org: PageNo, dest: PageNo, k: u16, rs: &[u8])
    requires k_bound { (k ≤ 15) × (1 ≤ n.0) × (at + out.fixed + out.each * k ≤ length s.old) }
    requires rs_len { length rs.now ≡ out.each * k }
    ensures { s.new ≡ put at (encode n.0 (LO org.0 dest.0 (rows_of 16 k rs.now))) s.old }
{
    put_paged(s, at, kind::LO, k, n, org, dest, k);
    field::copy(s, at + kind::size_of(kind::LO, 0), rs);
}

// The number where the test holds, else 0.
pub fn number_if(there: bool, v: u32) -> u32
    ensures { result ≡ pick there v 0 }
{
    if there {
        return v;
    }
    0
}

// A check record at the log's front.
pub fn put_check(s: &mut [u8], n: LogNo, unit: UnitNo, there: bool, key: u32)
    requires { check.fixed ≤ length s.old }
    ensures { s.new ≡ put 0 (encode_check (check_of n.0 unit.0 there key)) s.old }
{
    put_header(s, 0, kind::LC, kind::length_of(kind::LC, 0), n, LogNo(0));
    field::put4(s, 12, unit.0);
    field::put4(s, 16, number_if(there, 1));
    field::put4(s, 20, number_if(there, key));
}

// Four bytes, one after the other.
fn put_counts(s: &mut [u8], at: usize, a: u8, b: u8, c: u8, d: u8)
    requires { at + 4 ≤ length s.old }
    ensures { s.new ≡ put at (a ∷ b ∷ c ∷ d ∷ []) s.old }
{
    s[at] = a;
    s[at + 1] = b;
    s[at + 2] = c;
    s[at + 3] = d;
}

// The page listed at a place, 0 where none is.
fn listed_at(ps: &[u16], i: usize) -> u16
    ensures { result ≡ get_or ps.now i 0 }
{
    if i < ps.len() {
        return ps[i];
    }
    0
}

// n fields of two bytes: the pages listed, then zeros.
fn put_fields(s: &mut [u8], at: usize, ps: &[u16], n: usize)
    requires { at + 2 * n ≤ length s.old }
    ensures { s.new ≡ put at (fields n ps.now) s.old }
{
    let mut i = 0;
    while i < n {
        field::put2(s, at + 2 * i, listed_at(ps, i));
        i += 1;
    }
}

// All of an LB but the record that it carries, of which there are `rows`.
fn put_start(
    s: &mut [u8],
    at: usize,
    rows: u16,
    n: LogNo,
    unit: UnitNo,
    kind: u8,
    fill: u8,
    bases: &[u16],
    leaves: &[u16],
    dest: PageNo,
)
    requires { (rows ≤ 15) × (length bases.now ≤ 2) × (length leaves.now ≤ 8) × (at + begin.fixed ≤ length s.old) }
    ensures { s.new ≡ put at (start_of rows n.0 unit.0 kind fill bases.now leaves.now dest.0) s.old }
{
    put_unit(s, at, kind::LB, rows, n, LogNo(0), unit);
    put_counts(
        s,
        at + opening::TYPE_AT,
        kind,
        fill,
        bases.len() as u8,
        leaves.len() as u8,
    );
    put_fields(s, at + opening::BASES_AT, bases, 2);
    put_fields(s, at + opening::LEAVES_AT, leaves, 8);
    field::put2(s, at + opening::DEST_AT, dest.0);
    field::put2(s, at + opening::ZERO_AT, 0);
}

// An LB of these base pages and leaves.
pub fn put_begin(
    s: &mut [u8],
    at: usize,
    n: LogNo,
    unit: UnitNo,
    kind: u8,
    fill: u8,
    bases: &[u16],
    leaves: &[u16],
    dest: PageNo,
)
    requires { (length bases.now ≤ 2) × (length leaves.now ≤ 8) × (at + begin.fixed ≤ length s.old) }
    ensures { s.new ≡ put at (encode n.0 (LB (begin_of unit.0 kind fill bases.now leaves.now dest.0 []))) s.old }
{
    put_start(s, at, 0, n, unit, kind, fill, bases, leaves, dest);
}

// The LB of a put or delete with the record r: it lists nothing.
pub fn put_save(s: &mut [u8], at: usize, n: LogNo, unit: UnitNo, kind: u8, r: &[u8])
    requires { (length r.now ≡ begin.each) × (at + length_of begin 1 ≤ length s.old) }
    ensures { s.new ≡ put at (encode n.0 (LB (save_of unit.0 kind r.now))) s.old }
{
    let bases = [0u16; 1];
    let leaves = [0u16; 1];
    put_start(
        s,
        at,
        1,
        n,
        unit,
        kind,
        0,
        &bases[..0],
        &leaves[..0],
        PageNo(0),
    );
    field::copy(s, at + kind::size_of(kind::LB, 0), r);
}

// All of an LG but its image: header, page, zero.
pub fn put_image_head(s: &mut [u8], at: usize, n: LogNo, p: PageNo)
    requires { (1 ≤ n.0) × (at + image.fixed ≤ length s.old) }
    ensures { s.new ≡ put at (image_head n.0 p.0) s.old }
{
    put_header(
        s,
        at,
        kind::LG,
        kind::length_of(kind::LG, 1),
        n,
        LogNo(n.0 - 1),
    );
    field::put2(s, at + 12, p.0);
    field::put2(s, at + 14, 0);
}

// An LG of page p with this image.
pub fn put_image(s: &mut [u8], at: usize, n: LogNo, p: PageNo, page: &[u8])
    requires { (1 ≤ n.0) × (length page.now ≡ image.each) × (at + length_of image 1 ≤ length s.old) }
    ensures { s.new ≡ put at (encode n.0 (LG (image_of p.0 page.now))) s.old }
{
    put_image_head(s, at, n, p);
    field::copy(s, at + kind::size_of(kind::LG, 0), page);
}
