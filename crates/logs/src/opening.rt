// Whether a begin record keeps the rules of its type. Each function is lent the log's bytes from the record on.
ghost use Rattle.std.specs.Prelude.{◌≡◌, true, false, [], ◌∷◌, ◌+◌, ◌-◌, ◌*◌, ◌≤◌, ◌<◌, length, drop, get_or};
ghost use Rattle.field.specs.Bytes.{part, all_zero};
ghost use Rattle.logs.specs.Record.{begin, type_at, base_count_at, leaf_count_at};
ghost use Rattle.logs.specs.Stand.{Whole, spare_zero};
ghost use Rattle.logs.specs.Log.{within, on_bases, on_leaves, listed, differ, compact_ok, swap_ok, move_ok, carries_ok, save_ok, type_ok, begin_ok, saves_at, read_fields, read_begin};

use crate::kind;
use field::PageNo;
use page::{bounds, form};

// Where the fields of a begin record stand: type, fill, the two counts, base pages, leaf pages, destination, zero.
pub const TYPE_AT: usize = 16;

pub const FILL_AT: usize = 17;

pub const BASE_COUNT_AT: usize = 18;

pub const LEAF_COUNT_AT: usize = 19;

pub const BASES_AT: usize = 20;

pub const LEAVES_AT: usize = 24;

pub const DEST_AT: usize = 40;

pub const ZERO_AT: usize = 42;

// Where the value of a carried record stands, behind its mark and its key.
const VALUE_AT: usize = 50;

// The byte at an offset, as a count.
pub fn byte_at(m: &[u8], i: usize) -> usize
    requires { i < length m.now }
    ensures { (result ≡ get_or m.now i 0) × (result < 256) }
{
    m[i] as usize
}

// Whether n listed pages lie in from .. to.
fn within(m: &[u8], from: PageNo, to: PageNo, start: usize, n: usize) -> bool
    requires { start + 2 * n ≤ length m.now }
    ensures { result ≡ within from.0 to.0 (read_fields n (drop start m.now)) }
{
    let mut at = start;
    let mut left = n;
    while 0 < left {
        let p = field::get2(m, at);
        if p < from.0 {
            return false;
        }
        if to.0 < p {
            return false;
        }
        at += 2;
        left -= 1;
    }
    true
}

// Whether n listed pages are base pages.
fn on_bases(m: &[u8], start: usize, n: usize) -> bool
    requires { start + 2 * n ≤ length m.now }
    ensures { result ≡ on_bases (read_fields n (drop start m.now)) }
{
    within(
        m,
        PageNo(bounds::FIRST_BASE),
        PageNo(bounds::LAST_BASE),
        start,
        n,
    )
}

// Whether n listed pages are leaf pages.
fn on_leaves(m: &[u8], start: usize, n: usize) -> bool
    requires { start + 2 * n ≤ length m.now }
    ensures { result ≡ on_leaves (read_fields n (drop start m.now)) }
{
    within(
        m,
        PageNo(bounds::FIRST_LEAF),
        PageNo(bounds::LAST_LEAF),
        start,
        n,
    )
}

// Whether the page p is among n listed pages.
fn listed(m: &[u8], p: PageNo, start: usize, n: usize) -> bool
    requires { start + 2 * n ≤ length m.now }
    ensures { result ≡ listed p.0 (read_fields n (drop start m.now)) }
{
    let mut at = start;
    let mut left = n;
    while 0 < left {
        if p.0 == field::get2(m, at) {
            return true;
        }
        at += 2;
        left -= 1;
    }
    false
}

// Whether n listed pages differ.
fn differ(m: &[u8], start: usize, n: usize) -> bool
    requires { start + 2 * n ≤ length m.now }
    ensures { result ≡ differ (read_fields n (drop start m.now)) }
{
    let mut at = start;
    let mut left = n;
    while 0 < left {
        let p = PageNo(field::get2(m, at));
        if listed(m, p, at + 2, left - 1) {
            return false;
        }
        at += 2;
        left -= 1;
    }
    true
}

// Whether a compact lists 2 to 8 leaves and one base, its fill is 1..15, and its destination is the first listed or unlisted.
fn compact_ok(m: &[u8]) -> bool
    requires { begin.fixed ≤ length m.now }
    ensures { result ≡ compact_ok (read_begin 0 m.now) }
{
    if byte_at(m, BASE_COUNT_AT) != 1 {
        return false;
    }
    let leaves = byte_at(m, LEAF_COUNT_AT);
    if leaves < 2 {
        return false;
    }
    if 8 < leaves {
        return false;
    }
    let fill = byte_at(m, FILL_AT);
    if fill < 1 {
        return false;
    }
    if 15 < fill {
        return false;
    }
    if !on_leaves(m, DEST_AT, 1) {
        return false;
    }
    let dest = PageNo(field::get2(m, DEST_AT));
    if dest.0 == field::get2(m, LEAVES_AT) {
        return true;
    }
    !listed(m, dest, LEAVES_AT, leaves)
}

// Whether a swap lists two leaves and one base or two, no fill, destination 0.
fn swap_ok(m: &[u8]) -> bool
    requires { begin.fixed ≤ length m.now }
    ensures { result ≡ swap_ok (read_begin 0 m.now) }
{
    let bases = byte_at(m, BASE_COUNT_AT);
    if bases < 1 {
        return false;
    }
    if 2 < bases {
        return false;
    }
    if byte_at(m, LEAF_COUNT_AT) != 2 {
        return false;
    }
    if byte_at(m, FILL_AT) != 0 {
        return false;
    }
    field::get2(m, DEST_AT) == 0
}

// Whether a move lists one leaf and one base, no fill, and its destination is another leaf page.
fn move_ok(m: &[u8]) -> bool
    requires { begin.fixed ≤ length m.now }
    ensures { result ≡ move_ok (read_begin 0 m.now) }
{
    if byte_at(m, BASE_COUNT_AT) != 1 {
        return false;
    }
    if byte_at(m, LEAF_COUNT_AT) != 1 {
        return false;
    }
    if byte_at(m, FILL_AT) != 0 {
        return false;
    }
    if !on_leaves(m, DEST_AT, 1) {
        return false;
    }
    let dest = PageNo(field::get2(m, DEST_AT));
    !listed(m, dest, LEAVES_AT, 1)
}

// Whether the begin record is a put's or a delete's.
pub fn saves(m: &[u8]) -> bool
    requires { begin.fixed ≤ length m.now }
    ensures { result ≡ saves_at m.now }
{
    4 <= byte_at(m, TYPE_AT)
}

// Whether the record that a put or delete carries bears its mark; that of a delete has no value.
fn carries_ok(m: &[u8]) -> bool
    requires { Whole m.now × (saves_at m.now ≡ true) }
    ensures { result ≡ carries_ok (get_or m.now type_at 0) (part begin.fixed begin.each m.now ∷ []) }
{
    if !form::records_ascend(m, kind::LB_LONG, 1) {
        return false;
    }
    if byte_at(m, TYPE_AT) != 5 {
        return true;
    }
    field::zeros(&m[VALUE_AT..kind::LB_LONG + 16])
}

// Whether a put or delete lists nothing, and carries a record in form.
pub fn save_ok(m: &[u8]) -> bool
    requires { Whole m.now × (saves_at m.now ≡ true) }
    ensures { result ≡ save_ok (read_begin 0 m.now) }
{
    if 5 < byte_at(m, TYPE_AT) {
        return false;
    }
    if byte_at(m, BASE_COUNT_AT) != 0 {
        return false;
    }
    if byte_at(m, LEAF_COUNT_AT) != 0 {
        return false;
    }
    if byte_at(m, FILL_AT) != 0 {
        return false;
    }
    if field::get2(m, DEST_AT) != 0 {
        return false;
    }
    carries_ok(m)
}

// Whether the rules of the record's type hold, where the unit tidies.
fn type_ok(m: &[u8]) -> bool
    requires { (begin.fixed ≤ length m.now) × (saves_at m.now ≡ false) }
    ensures { result ≡ type_ok (read_begin 0 m.now) }
{
    let kind = byte_at(m, TYPE_AT);
    if kind == 1 {
        return compact_ok(m);
    }
    if kind == 2 {
        return swap_ok(m);
    }
    if kind == 3 {
        return move_ok(m);
    }
    false
}

// Whether the begin record of a unit that tidies keeps all rules but those of its header, its unit number and its unused fields.
pub fn begin_ok(m: &[u8]) -> bool
    requires { (begin.fixed ≤ length m.now) × (saves_at m.now ≡ false) }
    ensures { result ≡ begin_ok (read_begin 0 m.now) }
{
    let bases = byte_at(m, BASE_COUNT_AT);
    let leaves = byte_at(m, LEAF_COUNT_AT);
    if !type_ok(m) {
        return false;
    }
    if !on_bases(m, BASES_AT, bases) {
        return false;
    }
    if !differ(m, BASES_AT, bases) {
        return false;
    }
    if !on_leaves(m, LEAVES_AT, leaves) {
        return false;
    }
    differ(m, LEAVES_AT, leaves)
}

// Whether n fields of two bytes from the offset start are zero.
fn unused(m: &[u8], start: usize, n: usize) -> bool
    requires { start + 2 * n ≤ length m.now }
    ensures { result ≡ all_zero (part start (2 * n) m.now) }
{
    let mut i = 0;
    while i < n {
        if field::get2(m, start + 2 * i) != 0 {
            return false;
        }
        i += 1;
    }
    true
}

// Whether the fields that a begin record leaves unused are zero.
pub fn spare_zero(m: &[u8]) -> bool
    requires { (begin.fixed ≤ length m.now) × (get_or m.now base_count_at 0 ≤ 2) × (get_or m.now leaf_count_at 0 ≤ 8) }
    ensures { result ≡ spare_zero m.now }
{
    let bases = byte_at(m, BASE_COUNT_AT);
    let leaves = byte_at(m, LEAF_COUNT_AT);
    if !unused(m, BASES_AT + 2 * bases, 2 - bases) {
        return false;
    }
    if !unused(m, LEAVES_AT + 2 * leaves, 8 - leaves) {
        return false;
    }
    unused(m, ZERO_AT, 1)
}
