// Little-endian numbers in lent bytes, runs of zeros, copying, and the paper's three counters.
#![tactic(auto)]

ghost use Rattle.std.specs.Prelude.{◌≡◌, ◌+◌, ◌*◌, ◌≤◌, ◌<◌, length, eqb};
ghost use Rattle.field.specs.Bytes.{part, put, zeroes, all_zero, same, le2, le4, bytes2, bytes4};

// The number of a page, of a log record and of a unit: none may stand where another is meant. A page's is as wide as pages and log have it.
#[derive(Clone, Copy)]
pub struct PageNo(pub u16);

#[derive(Clone, Copy)]
pub struct LogNo(pub u32);

#[derive(Clone, Copy)]
pub struct UnitNo(pub u32);

// The number of two bytes, the lower first.
pub fn num2(a: u8, b: u8) -> u16
    ensures { result ≡ a + 256 * b }
{
    a as u16 + 256 * (b as u16)
}

// The number of four bytes, the lower first.
pub fn num4(a: u8, b: u8, c: u8, d: u8) -> u32
    ensures { result ≡ a + 256 * b + 65536 * c + 16777216 * d }
{
    a as u32 + 256 * (b as u32) + 65536 * (c as u32) + 16777216 * (d as u32)
}

// The number in two bytes of s, from the offset i.
pub fn get2(s: &[u8], i: usize) -> u16
    requires { i + 2 ≤ length s.now }
    ensures { result ≡ le2 s.now i }
{
    num2(s[i], s[i + 1])
}

// The number in four bytes of s, from the offset i.
pub fn get4(s: &[u8], i: usize) -> u32
    requires { i + 4 ≤ length s.now }
    ensures { result ≡ le4 s.now i }
{
    num4(s[i], s[i + 1], s[i + 2], s[i + 3])
}

// Writes v as two bytes of s, from the offset i.
pub fn put2(s: &mut [u8], i: usize, v: u16)
    requires { i + 2 ≤ length s.old }
    ensures { s.new ≡ put i (bytes2 v) s.old }
{
    s[i] = (v % 256) as u8;
    s[i + 1] = (v / 256 % 256) as u8;
}

// Writes v as four bytes of s, from the offset i.
pub fn put4(s: &mut [u8], i: usize, v: u32)
    requires { i + 4 ≤ length s.old }
    ensures { s.new ≡ put i (bytes4 v) s.old }
{
    s[i] = (v % 256) as u8;
    s[i + 1] = (v / 256 % 256) as u8;
    s[i + 2] = (v / 65536 % 256) as u8;
    s[i + 3] = (v / 16777216 % 256) as u8;
}

// Whether every byte of s is zero. No byte ends the loop early, so that many bytes are looked at in one instruction.
pub fn zeros(s: &[u8]) -> bool
    ensures { result ≡ all_zero s.now }
{
    let mut seen: u8 = 0;
    let mut i = 0;
    while i < s.len() {
        seen = seen | s[i];
        i += 1;
    }
    seen == 0
}

// Eight bytes of s, from the offset i, in one number, which is zero where they all are.
fn word(s: &[u8], i: usize) -> u64
    requires { i + 8 ≤ length s.now }
    ensures { eqb result 0 ≡ all_zero (part i 8 s.now) }
{
    get4(s, i) as u64 + 4294967296 * (get4(s, i + 4) as u64)
}

// 1,024 bytes of s, from the offset at, gathered in one number, which is zero where they all are. Their count is fixed, so that the
// compiler writes the loop out.
fn block(s: &[u8], at: usize) -> u64
    requires { at + 1024 ≤ length s.now }
    ensures { eqb result 0 ≡ all_zero (part at 1024 s.now) }
{
    let mut seen: u64 = 0;
    let mut k = 0;
    while k < 128 {
        seen = seen | word(s, at + 8 * k);
        k += 1;
    }
    seen
}

// The same as zeros, for long runs: blocks from the front, and one at the end, which may lie over the last of them.
pub fn zeros_long(s: &[u8]) -> bool
    ensures { result ≡ all_zero s.now }
{
    if s.len() < 1024 {
        return zeros(s);
    }
    let last = s.len() - 1024;
    let mut seen = block(s, last);
    let mut at = 0;
    while at < last {
        seen = seen | block(s, at);
        at += 1024;
    }
    seen == 0
}

// Whether two runs of bytes are the same. No byte ends the loop early, as in zeros.
pub fn same_bytes(a: &[u8], b: &[u8]) -> bool
    ensures { result ≡ same a.now b.now }
{
    if a.len() != b.len() {
        return false;
    }
    let mut ok = true;
    let mut i = 0;
    while i < a.len() {
        ok = ok & (a[i] == b[i]);
        i += 1;
    }
    ok
}

// Writes the bytes of rs over s, from the offset at.
pub fn copy(s: &mut [u8], at: usize, rs: &[u8])
    requires { at + length rs.now ≤ length s.old }
    ensures { s.new ≡ put at rs.now s.old }
{
    let mut i = 0;
    while i < rs.len() {
        s[at + i] = rs[i];
        i += 1;
    }
}

// Writes n zeros over s, from the offset at.
pub fn clear(s: &mut [u8], at: usize, n: usize)
    requires { at + n ≤ length s.old }
    ensures { s.new ≡ put at (zeroes n) s.old }
{
    let mut i = 0;
    while i < n {
        s[at + i] = 0;
        i += 1;
    }
}

// Writes n bytes of s, those from the offset from, over s from the offset at, which is no higher.
pub fn shift(s: &mut [u8], at: usize, from: usize, n: usize)
    requires { (at ≤ from) × (from + n ≤ length s.old) }
    ensures { s.new ≡ put at (part from n s.old) s.old }
{
    let mut i = 0;
    while i < n {
        s[at + i] = s[from + i];
        i += 1;
    }
}
