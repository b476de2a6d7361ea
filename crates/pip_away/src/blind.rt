//! The words that are left out.
ghost use Rattle.std.specs.Prelude.{◌≡◌, ◌+◌, ◌≤◌, ◌==◌, ◌&&◌, [], is_none};
ghost use Rattle.pip_guests.specs.Sights.{each_from};
ghost use Rattle.pip_model.specs.Lists.{has};
ghost use Rattle.pip_away.specs.Blind as defined;
ghost use Rattle.pip_away.specs.Blind.{entry_owner, kept_of, leaves_out, left_out, sight_of};

use arrayvec::ArrayVec;
use pip_base::{Frame, Size};

/// How many partitions may be named at most.
pub const MAX_OWN: usize = 64;

/// How many pages may have words that are left out at most.
pub const MAX_FREE: usize = 256;

/// How many words of them may be seen at most.
pub const MAX_SEEN: usize = 256;

/// How many entries may be seen by their class at most.
pub const MAX_ENTRIES: usize = 256;

/// How many rows may be named at most.
pub const MAX_ROWS: usize = 256;

/// A word of a page.
#[derive(Clone, Copy, Default)]
pub struct PageWord {
    pub page: u32,
    /// Below 1024.
    pub index: u32,
}

/// An entry of a handler table.
#[derive(Clone, Copy, Default)]
pub struct TableEntry {
    /// The partition whose table it is.
    pub name: u32,
    pub vector: u32,
}

/// A row of a partition.
#[derive(Clone, Copy, Default)]
pub struct OwnRow {
    /// The partition that has it.
    pub name: u32,
    /// Its virtual page, an address divided by 4096.
    pub at: u32,
    /// The page that is mapped.
    pub page: u32,
    /// 1 to read, 2 to write, 4 to fetch, added up.
    pub rights: u32,
}

/// The page of addresses in which a handler table is.
const TABLE_PAGE: u32 = 0xfffff;

/// Partitions whose programs may be any, and the words that are left out: those of these pages, but for the words that
/// are seen. Of these entries of their handler tables the class is seen, where the partition has exactly these rows.
#[derive(Drop)]
pub struct Blind {
    pub own: ArrayVec<u32, MAX_OWN>,
    pub pages: ArrayVec<u32, MAX_FREE>,
    pub seen: ArrayVec<PageWord, MAX_SEEN>,
    pub entries: ArrayVec<TableEntry, MAX_ENTRIES>,
    pub rows: ArrayVec<OwnRow, MAX_ROWS>,
}

impl Blind {
    /// None, and no partition.
    pub fn new() -> Blind
        ensures own { result.own.items ≡ [] }
        ensures pages { result.pages.items ≡ [] }
        ensures seen { result.seen.items ≡ [] }
        ensures entries { result.entries.items ≡ [] }
        ensures rows { result.rows.items ≡ [] }
    {
        Blind {
            own: ArrayVec::new(),
            pages: ArrayVec::new(),
            seen: ArrayVec::new(),
            entries: ArrayVec::new(),
            rows: ArrayVec::new(),
        }
    }

    /// Whether it names a partition, a page, a word, an entry or a row.
    pub fn is_asked(&self) -> bool
        ensures { result ≡ leaves_out (left_out self.now) }
    {
        let words = self.pages.is_empty() && self.seen.is_empty();
        let classes = self.entries.is_empty() && self.rows.is_empty();
        !(self.own.is_empty() && words && classes)
    }

    /// Whether a partition is one of these.
    pub(crate) fn is_own(&self, part: Frame) -> bool
        ensures { result ≡ has self.now.own.items part }
    {
        let name = part.number();
        self.own.contains(&name)
    }

    // Whether a page has words that are left out.
    fn has_page(&self, page: Frame) -> bool
        ensures { result ≡ has self.now.pages.items page }
    {
        let number = page.number();
        self.pages.contains(&number)
    }

    // Whether a word of a page is seen.
    fn is_seen(&self, page: Frame, index: u32) -> bool
        ensures { result ≡ defined.is_seen_word self.now.seen.items page index }
    {
        let number = page.number();
        self.seen
            .iter()
            .any(|seen| seen.page == number && seen.index == index)
    }

    /// Whether a word of these pages isn't one of those that are seen.
    pub(crate) fn is_blind(&self, page: Frame, index: u32) -> bool
        ensures { result ≡ defined.is_left_out (left_out self.now) page index }
    {
        self.has_page(page) && !self.is_seen(page, index)
    }

    // Whether a partition has its handler table in a page.
    fn is_table(&self, name: u32, page: Frame) -> bool
        ensures { result ≡ defined.is_table self.now.rows.items name page }
    {
        let number = page.number();
        self.rows.iter().any(|row| row.name == name && row.at == TABLE_PAGE && row.page == number)
    }

    /// The partition of which a word is an entry whose class is seen.
    pub(crate) fn entry_owner(&self, page: Frame, index: u32) -> Option<u32>
        ensures { result ≡ entry_owner (left_out self.now) page index }
    {
        for k in 0..self.entries.len() {
            let entry = self.entries[k];
            if entry.vector == index && self.is_table(entry.name, page) {
                return Some(entry.name);
            }
        }
        None
    }

    // Whether a word isn't such an entry.
    fn is_plain(&self, page: Frame, index: u32) -> bool
        ensures { result ≡ is_none (kept_of (left_out self.now) page index) }
    {
        match self.entry_owner(page, index) {
            Some(_) => false,
            None => true,
        }
    }

    /// Whether all of a word is seen.
    pub(crate) fn sees(&self, page: Frame, index: u32) -> bool
        ensures { result ≡ (sight_of self.now).seen page index }
    {
        self.is_plain(page, index) && !self.is_blind(page, index)
    }

    // Whether nothing of a word is.
    fn has(&self, page: Frame, index: u32) -> bool
        ensures { result ≡ (sight_of self.now).blind page index }
    {
        self.is_plain(page, index) && self.is_blind(page, index)
    }

    /// Whether what is seen of a word after a store depends on what was before.
    pub(crate) fn stores(&self, page: Frame, index: u32, size: Size) -> bool
        ensures { result ≡ (sight_of self.now).stores size page index }
    {
        match size {
            Size::Word => true,
            Size::Byte => self.is_plain(page, index),
        }
    }

    /// Whether all of each word of a block is seen.
    pub(crate) fn sees_block(&self, page: Frame, index: u32) -> bool
        requires { index ≤ 1024 }
        ensures { result ≡ each_from (λ j. (sight_of self.now).seen page j) 17 index }
    {
        for j in 0..17 {
            if !self.sees(page, index + j) {
                return false;
            }
        }
        true
    }

    /// Whether nothing of any is.
    pub(crate) fn has_block(&self, page: Frame, index: u32) -> bool
        requires { index ≤ 1024 }
        ensures { result ≡ each_from (λ j. (sight_of self.now).blind page j) 17 index }
    {
        for j in 0..17 {
            if !self.has(page, index + j) {
                return false;
            }
        }
        true
    }
}
