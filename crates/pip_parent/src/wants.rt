//! What a child is to have, and how many pages that takes.
ghost use Rattle.std.specs.Prelude.{◌≡◌, ◌≤◌, ◌<◌, length};
ghost use Rattle.pip_parent.specs.Wants.{need as needed, opened_before, is_malformed as malformed, FirstBad};

use crate::addresses::WantsByAddress;
use crate::directories::Directories;
use pip_model::lists;

/// A page that the child is to have at an address, with its rights: READ, which is 1, with WRITE 2 or EXEC 4 or both.
#[derive(Clone, Copy, Debug, PartialEq, Eq)]
pub struct Want {
    pub va: u32,
    pub rights: u32,
}

/// The first want that no child can have: its address is 0 or no page's, its rights lack READ or are above 7, or an
/// earlier want has its address.
pub fn first_bad(wants: &[Want]) -> Option<u32>
    requires { length wants.now ≤ 4096 }
    ensures { FirstBad wants.now result }
{
    let mut addresses = WantsByAddress::new();
    for i in 0..wants.len() {
        if is_malformed(wants[i]) || addresses.has(wants, i) {
            return Some(i as u32);
        }
        addresses.add(wants, i);
    }
    None
}

// Whether a want is one that no child can have, whatever the others are.
fn is_malformed(want: Want) -> bool
    ensures { result ≡ malformed want }
{
    want.va == 0 || want.va % 4096 != 0 || 1 & want.rights != 1 || 7 < want.rights
}

/// How many pages a child with these wants takes: five of its own, one for each want, three for each table, and the
/// list pages beyond the first, which is one of the five. There are at most 4096 wants, each in one of 1024
/// directories.
pub fn need(wants: &[Want]) -> u32
    requires { length wants.now ≤ 4096 }
    ensures { result ≡ needed wants.now }
{
    let tables = tables_of(wants);
    5 + wants.len() as u32 + 3 * tables + lists(tables) - 1
}

// How many tables the wants take.
fn tables_of(wants: &[Want]) -> u32
    requires { length wants.now ≤ 4096 }
    ensures tables { result ≡ opened_before wants.now (length wants.now) }
    ensures most { result ≤ length wants.now }
{
    let mut directories = Directories::new();
    let mut tables = 0u32;
    for i in 0..wants.len() {
        tables += u32::from(directories.opens(wants, i));
    }
    tables
}
