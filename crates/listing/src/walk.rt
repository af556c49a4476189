// The walk over the work pages, from the root by its entries and those of the base pages to the leaves, in key order. Recovery has found
// the tree well formed; nothing here depends on it. A page number, a count or a number of leaves that no tree has ends the walk.
ghost use Rattle.std.specs.Prelude.{◌≤◌, ◌*◌, IfOk};
ghost use Rattle.page.specs.Page.{count};

use crate::text::Line;
use page::view;
use std::io;
use std::io::Write;

// Why the walk ends before the last leaf.
#[derive(Drop)]
enum Stop {
    // By what no tree has.
    Tree,
    // By a write that failed.
    Io(io::Error),
}

impl From<io::Error> for Stop {
    fn from(e: io::Error) -> Stop {
        Stop::Io(e)
    }
}

// How many leaves and records have been passed: a store has at most 56 leaves, and each at most 15 records.
#[derive(Drop)]
struct Passed {
    leaves: u32,
    records: u32,
    ghost few: { leaves ≤ 56 },
    ghost each: { records ≤ 15 * leaves },
}

impl Passed {
    // One leaf more, with n records.
    fn pass(&mut self, n: u16) -> Result<(), Stop>
        requires { n ≤ 15 }
    {
        if self.leaves >= 56 {
            return Err(Stop::Tree);
        }
        self.leaves += 1;
        self.records += n as u32;
        Ok(())
    }
}

// Where the lines go, the pages, and what has been passed.
#[derive(Drop)]
struct Walk<'a, W> {
    to: &'a mut W,
    pages: &'a [[u8; 256]],
    passed: Passed,
}

// Prints all leaves; how many records they hold.
pub fn leaves(to: &mut impl Write, work: &[u8; 16384]) -> io::Result<u32> {
    let (pages, _) = work.as_chunks::<256>();
    let passed = Passed {
        leaves: 0,
        records: 0,
    };
    let mut walk = Walk { to, pages, passed };
    match walk.root() {
        Err(Stop::Io(e)) => Err(e),
        _ => Ok(walk.passed.records),
    }
}

impl<'a, W: Write> Walk<'a, W> {
    // Prints the leaves under the root.
    fn root(&mut self) -> Result<(), Stop> {
        let root = self.page(0)?;
        for i in 0..entries(root)? {
            self.base(view::entry_page(root, i))?;
        }
        Ok(())
    }

    // Prints the leaves under base page p.
    fn base(&mut self, p: u16) -> Result<(), Stop> {
        let base = self.page(p)?;
        for i in 0..entries(base)? {
            self.leaf(p, view::entry_page(base, i))?;
        }
        Ok(())
    }

    // Prints leaf page p.
    fn leaf(&mut self, base: u16, p: u16) -> Result<(), Stop> {
        let leaf = self.page(p)?;
        let n = view::count(leaf);
        if n == 0 || n > 15 {
            return Err(Stop::Tree);
        }
        let line = Line {
            order: self.passed.leaves,
            page: p,
            base,
            count: n,
            first: view::row_key(leaf, 16, 0),
            last: view::row_key(leaf, 16, n as usize - 1),
            number: view::number(leaf).0,
        };
        writeln!(self.to, "{line}")?;
        self.passed.pass(n)
    }

    // Page p.
    fn page(&self, p: u16) -> Result<&'a [u8; 256], Stop> {
        self.pages.get(p as usize).ok_or(Stop::Tree)
    }
}

// How many entries the root or a base page has: 1 to 30.
fn entries(page: &[u8; 256]) -> Result<usize, Stop>
    ensures few { IfOk result (λ n. n ≤ 30) }
    ensures there { IfOk result (λ n. n ≤ count page.now) }
{
    let n = view::count(page);
    if n == 0 || n > 30 {
        return Err(Stop::Tree);
    }
    Ok(n as usize)
}
