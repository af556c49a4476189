// Build.
#![tactic(auto)]

ghost use Rattle.std.specs.Prelude.{◌≡◌, []};
ghost use Rattle.store.specs.Calls.{lent, left, build};
ghost use Rattle.building.specs.Ranges.{in_range};

use field::{LogNo, UnitNo};
use page::bounds;
use store::known::{Answer, Numbers};
use store::{fresh, known};

// Test 12: the two fills, and whole records.
fn in_range(f: u32, g: u32, long: usize) -> bool
    ensures { result ≡ in_range f g long }
{
    if f < 1 {
        return false;
    }
    if 15 < f {
        return false;
    }
    if g < 1 {
        return false;
    }
    if 30 < g {
        return false;
    }
    long % 16 == 0
}

// A tree of these records, in work and store alike, and a new log.
pub fn build(
    n: Numbers,
    work: &mut [u8],
    store: &mut [u8],
    log: &mut [u8],
    records: &[u8],
    f: u32,
    g: u32,
) -> Answer
    ensures built { left result.reply [] (lent result.numbers.used result.numbers.forced work.new store.new log.new records.now)
        ≡ build f g (lent n.used n.forced work.old store.old log.old records.now) }
{
    if work.len() != 16384 {
        return known::kept(n, 1);
    }
    if store.len() != 16384 {
        return known::kept(n, 1);
    }
    if log.len() != 8192 {
        return known::kept(n, 1);
    }
    if !in_range(f, g, records.len()) {
        return known::kept(n, 12);
    }
    if !tree::build::ascending(records) {
        return known::kept(n, 16);
    }
    if bounds::LEAF_PAGES < tree::build::leaf_count(records, f) {
        return known::kept(n, 17);
    }
    if bounds::BASE_PAGES < tree::build::base_count(records, f, g) {
        return known::kept(n, 17);
    }
    tree::build::build_pages(work, f, g, records);
    field::copy(store, 0, work);
    fresh::new_log(log, LogNo(1), UnitNo(0), false, 0);
    Answer {
        reply: 0,
        numbers: Numbers {
            used: fresh::END,
            forced: fresh::END,
        },
    }
}
