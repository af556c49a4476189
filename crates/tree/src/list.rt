// List: the records whose keys are in bounds, in key order, as many as fit whole into the lent bytes.
ghost use Rattle.std.specs.Prelude.{◌≡◌, [], ◌∷◌, ◌+◌, ◌*◌, ◌/◌, ◌≤◌, ◌<◌, length, drop, leb};
ghost use Rattle.field.specs.Test.{both, pick};
ghost use Rattle.field.specs.Bytes.{put};
ghost use Rattle.page.specs.Page.{rows_of, count, rows};
ghost use Rattle.tree.specs.Answer.{between, in_bounds, room_for};
ghost use Rattle.tree.specs.Reader.{Sound, Ran, Lists};
ghost use Rattle.tree.specs.Walk.{Ascending, keys_within};

use crate::{walk, well};

// How many records are written, and whether a further one did not fit.
#[derive(Clone, Copy)]
struct Run {
    count: usize,
    more: bool,
}

// What list returns beside its reply.
#[derive(Clone, Copy)]
pub struct Listed {
    pub count: u32,
    pub more: bool,
}

// Writes a record over out behind n others. It goes by an array: then all its bytes are read before one is written, in one move each way.
fn put_record(rc: &[u8], out: &mut [u8], n: usize)
    requires { (length rc.now ≡ 16) × (16 * n + 16 ≤ length out.old) }
    ensures { out.new ≡ put (16 * n) rc.now out.old }
{
    let mut record = [0u8; 16];
    field::copy(&mut record, 0, rc);
    field::copy(out, 16 * n, &record);
}

// Writes a record behind n others, if its key is in bounds and it fits.
fn list_one(rc: &[u8], low: u32, high: u32, out: &mut [u8], n: usize) -> Run
    requires { (length rc.now ≡ 16) × (n ≤ room_for out.old) }
    ensures { Ran n (between low high (rc.now ∷ [])) out.old out.new result.count result.more }
{
    let key = field::get4(rc, 2);
    if key < low {
        return Run {
            count: n,
            more: false,
        };
    }
    if high < key {
        return Run {
            count: n,
            more: false,
        };
    }
    if out.len() / 16 <= n {
        return Run {
            count: n,
            more: true,
        };
    }
    put_record(rc, out, n);
    Run {
        count: n + 1,
        more: false,
    }
}

// Writes those of m records of the page pg whose keys are in bounds behind n others, while they fit.
fn list_leaf(pg: &[u8], m: u16, low: u32, high: u32, out: &mut [u8], n: usize) -> Run
    requires { (16 + 16 * m ≤ length pg.now) × (n ≤ room_for out.old) }
    ensures { Ran n (between low high (rows_of 16 m (drop 16 pg.now))) out.old out.new result.count result.more }
{
    let mut k = n;
    let mut at: usize = 16;
    let mut left = m;
    while 0 < left {
        let run = list_one(&pg[at..at + 16], low, high, out, k);
        if run.more {
            return run;
        }
        k = run.count;
        at += 16;
        left -= 1;
    }
    Run {
        count: k,
        more: false,
    }
}

// Whether all m records of the page pg, whose keys ascend, are in bounds and fit into this room.
fn whole(pg: &[u8], m: u16, low: u32, high: u32, room: usize) -> bool
    requires { (length pg.now ≡ 256) × (m ≡ count pg.now) × (16 + 16 * m ≤ 256) × (0 < m) × Ascending (rows 16 pg.now) }
    ensures { result ≡ both (leb m room) (keys_within low (high + 1) (rows 16 pg.now)) }
{
    if room < m as usize {
        return false;
    }
    well::within(pg, 16, low, high as u64 + 1)
}

// The same as list_leaf, for a page whose keys ascend: all its records in one run where they are in bounds and fit.
fn list_page(pg: &[u8], m: u16, low: u32, high: u32, out: &mut [u8], n: usize) -> Run
    requires pg_len { (length pg.now ≡ 256) × (m ≡ count pg.now) × (16 + 16 * m ≤ 256) × (0 < m) × Ascending (rows 16 pg.now) }
    requires n_bound { n ≤ room_for out.old }
    ensures { Ran n (between low high (rows_of 16 m (drop 16 pg.now))) out.old out.new result.count result.more }
{
    if !whole(pg, m, low, high, out.len() / 16 - n) {
        return list_leaf(pg, m, low, high, out, n);
    }
    let k = m as usize;
    field::copy(out, 16 * n, &pg[16..16 + 16 * k]);
    Run {
        count: n + k,
        more: false,
    }
}

// Writes the records with keys low to high, both included, into out.
pub fn list_into(w: &[u8], low: u32, high: u32, out: &mut [u8]) -> Listed
    requires { Sound w.now }
    ensures { Lists (in_bounds low high w.now) out.old out.new result.count result.more }
{
    let mut k: usize = 0;
    let mut at = walk::first(w);
    while at.leaf != 0 {
        let p = 256 * at.leaf;
        let run = list_page(
            &w[p..p + 256],
            well::count_at(w, at.leaf),
            low,
            high,
            out,
            k,
        );
        k = run.count;
        if run.more {
            return Listed {
                count: k as u32,
                more: true,
            };
        }
        let next = walk::next_leaf(w, at);
        at = next;
    }
    Listed {
        count: k as u32,
        more: false,
    }
}
