// What is printed.
use std::fmt;

// A leaf.
#[derive(Drop)]
pub struct Line {
    pub order: u32,
    pub page: u16,
    pub base: u16,
    pub count: u16,
    pub first: u32,
    pub last: u32,
    pub number: u32,
}

impl fmt::Display for Line {
    fn fmt<W: fmt::Write>(&self, f: &mut fmt::Formatter<W>) -> fmt::Result {
        write!(
            f,
            "{} {} {} {} {} {} {}",
            self.order, self.page, self.base, self.count, self.first, self.last, self.number
        )
    }
}

// How many records the tree has. One without records has the root alone.
#[derive(Drop)]
pub struct Totals(pub u32);

impl fmt::Display for Totals {
    fn fmt<W: fmt::Write>(&self, f: &mut fmt::Formatter<W>) -> fmt::Result {
        let levels = if self.0 == 0 { 1 } else { 3 };
        write!(f, "records {} levels {}", self.0, levels)
    }
}
