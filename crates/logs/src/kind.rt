// The constant table of the seven record kinds: what every mark and every length of a record comes from.
ghost use Rattle.std.specs.Prelude.{◌≡◌, ◌≤◌, ◌<◌, get_or};
ghost use Rattle.logs.specs.Record.{letter, length_of};
ghost use Rattle.logs.specs.Table.{kinds, kind_at, tabled};

// The places of the kinds in the table: check, begin, out, in, modify, end, image.
pub const LC: usize = 0;

pub const LB: usize = 1;

pub const LO: usize = 2;

pub const LI: usize = 3;

pub const LM: usize = 4;

pub const LE: usize = 5;

pub const LG: usize = 6;

// The fixed lengths of the kinds: of an LO, what stands before its records; of an LG, what stands before its image.
pub const LC_LONG: usize = 24;

pub const LB_LONG: usize = 44;

pub const LO_LONG: usize = 20;

pub const LI_LONG: usize = 24;

pub const LM_LONG: usize = 28;

pub const LE_LONG: usize = 16;

pub const LG_LONG: usize = 16;

// Four numbers a kind: the mark, the fixed length, the bytes of each record or image carried.
pub const KINDS: [u16; 28] = [
    b'L' as u16,
    b'C' as u16,
    LC_LONG as u16,
    0,
    b'L' as u16,
    b'B' as u16,
    LB_LONG as u16,
    16,
    b'L' as u16,
    b'O' as u16,
    LO_LONG as u16,
    16,
    b'L' as u16,
    b'I' as u16,
    LI_LONG as u16,
    0,
    b'L' as u16,
    b'M' as u16,
    LM_LONG as u16,
    0,
    b'L' as u16,
    b'E' as u16,
    LE_LONG as u16,
    0,
    b'L' as u16,
    b'G' as u16,
    LG_LONG as u16,
    256,
];

// A number of the table, by its place.
fn cell(i: usize) -> u16
    requires { i < 28 }
    ensures { result ≡ get_or (tabled kinds) i 0 }
{
    KINDS[i]
}

// The mark's first letter of a kind.
pub fn lead(k: usize) -> u8
    requires { k < 7 }
    ensures { result ≡ letter }
{
    cell(4 * k) as u8
}

// The mark's second letter of a kind.
pub fn sign(k: usize) -> u8
    requires { k < 7 }
    ensures { result ≡ (kind_at k).sign }
{
    cell(4 * k + 1) as u8
}

// The whole length of a record of a kind that carries n records or images.
pub fn length_of(k: usize, n: u16) -> u16
    requires { (k < 7) × (n ≤ 15) }
    ensures { result ≡ length_of (kind_at k) n }
{
    let fixed = cell(4 * k + 2);
    let each = cell(4 * k + 3);
    fixed + each * n
}

// The same as a count of bytes in a buffer.
pub fn size_of(k: usize, n: u16) -> usize
    requires { (k < 7) × (n ≤ 15) }
    ensures { result ≡ length_of (kind_at k) n }
{
    length_of(k, n) as usize
}
