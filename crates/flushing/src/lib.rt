// Flush.
#![tactic(auto)]

ghost use Rattle.std.specs.Prelude.{◌≡◌, [], ◌<◌, length};
ghost use Rattle.page.specs.Page.{number};
ghost use Rattle.page.specs.Pages.{page, put_page};
ghost use Rattle.store.specs.Calls.{lent, left, flush};

use field::{LogNo, PageNo};
use store::known;
use store::known::{Answer, Numbers};

// The log number of page p's last change.
fn number_at(w: &[u8], p: PageNo) -> LogNo
    requires { (length w.now ≡ 16384) × (p.0 < 64) }
    ensures { result.0 ≡ number (page p.0 w.now) }
{
    let at = 256 * (p.0 as usize);
    page::view::number(&w[at..at + 256])
}

// Copies page p of the work pages to the store.
fn copy_page(work: &[u8], store: &mut [u8], p: PageNo)
    requires { (length work.now ≡ 16384) × (length store.old ≡ 16384) × (p.0 < 64) }
    ensures { store.new ≡ put_page p.0 (page p.0 work.now) store.old }
{
    let at = 256 * (p.0 as usize);
    field::copy(store, at, &work[at..at + 256]);
}

// One work page is written to the store, where its last change is forced; p may be no page's number, which test 12 says.
pub fn flush(n: Numbers, work: &[u8], store: &mut [u8], log: &[u8], p: u32) -> Answer
    ensures flushed { left result.reply [] (lent result.numbers.used result.numbers.forced work.now store.new log.now [])
        ≡ flush p (lent n.used n.forced work.now store.old log.now []) }
{
    if work.len() != 16384 {
        return known::kept(n, 1);
    }
    if store.len() != 16384 {
        return known::kept(n, 1);
    }
    if log.len() != 8192 {
        return known::kept(n, 1);
    }
    let s = logs::scan::scan_log(log, n.forced);
    if !known::knows(s, n.used) {
        return known::kept(n, 2);
    }
    if 64 <= p {
        return known::kept(n, 12);
    }
    let page = PageNo(p as u16);
    let last = number_at(work, page);
    if s.forced.0 < last.0 {
        return known::kept(n, 13);
    }
    copy_page(work, store, page);
    known::kept(n, 0)
}
