// The range reader: it carries the lent work pages along while it walks through the records in key order. The work is done in `ranging`, on the
// pages and a position; the functions here take the reader apart, call that and put it together again. A reader of pages that list would
// refuse has list's reply and gives no record; one that is made up, of any pages and any position, gives a record or none and reads
// nothing outside the pages.
#![tactic(auto)]

ghost use Rattle.std.specs.Prelude.{◌≡◌};
ghost use Rattle.ranging.specs.Reading.{start_from, next_from};

use ranging::{Reached, Step};
use tree::walk::Place;

// The lent work pages, list's reply of them, and the position of the next record.
#[derive(Clone, Copy)]
pub struct RangeReader<'a> {
    pub pages: &'a [u8],
    pub reply: u8,
    pub at: Place,
}

// A reader of these pages, at the first record whose key is at least this one.
pub fn start<'a>(pages: &'a [u8], key: u32) -> RangeReader<'a>
    ensures started { (result.pages ≡ pages.entry) × (result.reply ≡ (start_from pages.now key).reply) × (result.at ≡ (start_from pages.now key).at) }
{
    let s = ranging::start_at(pages, key);
    RangeReader {
        pages: pages,
        reply: s.reply,
        at: s.at,
    }
}

// The record at the reader's position; the reader then stands at the next.
pub fn advance<'s, 'a>(r: &'s mut RangeReader<'a>) -> Step
    ensures advanced { (result ≡ next_from r.old.pages.now r.old.at) × (r.new.pages ≡ r.old.pages)
        × (r.new.reply ≡ r.old.reply) × (r.new.at ≡ result.next) }
{
    let s = ranging::step_at(r.pages, r.at);
    r.at = s.next;
    s
}

// Where a reader of these pages starts, as numbers that a caller can keep: `start`, taken apart.
pub fn start_from(pages: &[u8], key: u32) -> Reached
    ensures started { result ≡ start_from pages.now key }
{
    let r = start(pages, key);
    Reached {
        reply: r.reply,
        at: r.at,
    }
}

// The record at a kept position and the position after it: a reader of the pages lent again goes on from there.
pub fn next_from(pages: &[u8], at: Place) -> Step
    ensures found { result ≡ next_from pages.now at }
{
    let mut r = RangeReader {
        pages: pages,
        reply: 0,
        at: at,
    };
    advance(&mut r)
}
