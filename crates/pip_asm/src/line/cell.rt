//! What a line says. Names are parts of the text.
use pip_base::Plan;

/// What a word takes from a name: its whole address, the low or the high half of it, or the distance to it.
#[derive(Clone, Copy, Debug, PartialEq, Eq)]
pub enum NameUse<'a> {
    Nothing,
    Address(&'a [u8]),
    Low(&'a [u8]),
    High(&'a [u8]),
    Distance(&'a [u8]),
}

/// A word as far as its line tells it, and what it takes from a name.
#[derive(Clone, Copy, Debug, PartialEq, Eq)]
pub struct Cell<'a> {
    pub number: u32,
    pub takes: NameUse<'a>,
}

/// What a line says.
#[derive(Clone, Copy, Debug, PartialEq, Eq)]
pub enum Statement<'a> {
    /// An empty line, or a remark.
    Blank,
    /// `.frames`, with 16 to 4096.
    Frames(u32),
    /// `.cpus`, with 1 to 4.
    Cpus(u32),
    /// `.line`, whose line is below 16.
    Plans(Plan),
    /// `.page`: a page begins at this vpage, which is below 2^20.
    Begins(u32),
    /// One word more of the page.
    Holds(Cell<'a>),
    /// That many zero words more, at most 1024.
    Zeros(u32),
    /// The next place of the page has this name.
    Names(&'a [u8]),
}
