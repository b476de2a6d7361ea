//! Words of first and second shadows.
ghost use Rattle.std.specs.Prelude.{◌≡◌, IfSome, Some};
ghost use Rattle.pip_entry.specs.declared.shadows.Sh1.{Sh1};
ghost use Rattle.pip_entry.specs.declared.shadows.Sh2.{Sh2};
ghost use Rattle.pip_entry.specs.Sh1.{packed_sh1, IsSh1};
ghost use Rattle.pip_entry.specs.Sh2.{packed_sh2, IsSh2};

use pip_base::VPage;

/// What a word of a first shadow says: docs/FORMATS.md, "First shadow word". A page that isn't free is given to a
/// child, which is named by the vpage at which this partition has the child's descriptor, never 0.
#[derive(Clone, Copy, Debug, PartialEq, Eq)]
pub enum Sh1 {
    /// There is no row at the vpage, or its page is free.
    Free,
    /// The page is the descriptor of the child.
    Descriptor(VPage),
    /// The page is other configuration of the child.
    Config(VPage),
    /// The page is lent to the child: it is in a row of the child.
    Lent(VPage),
}

/// What a word of a second shadow says: docs/FORMATS.md, "Second shadow word".
#[derive(Clone, Copy, Debug, PartialEq, Eq)]
pub enum Sh2 {
    /// There is no row at the vpage, or the partition is the root.
    Empty,
    /// The parent maps the page at this vpage.
    Of(VPage),
}

/// The word of a first shadow that says this. The vpage of a kind other than `Free` isn't 0.
pub fn pack_sh1(s: Sh1) -> u32
    requires { IsSh1 s }
    ensures { result ≡ packed_sh1 s }
{
    match s {
        Sh1::Free => 0,
        Sh1::Descriptor(page) => page.number() * 4096 + 1,
        Sh1::Config(page) => page.number() * 4096 + 2,
        Sh1::Lent(page) => page.number() * 4096 + 3,
    }
}

/// What a word of a first shadow says. None exactly where no value whose vpage isn't 0 packs to the word.
pub fn unpack_sh1(w: u32) -> Option<Sh1>
    ensures packs { IfSome result (λ s. IsSh1 s × (packed_sh1 s ≡ w)) }
    ensures each { (s : Sh1) → IsSh1 s → packed_sh1 s ≡ w → result ≡ Some s }
{
    if w == 0 {
        return Some(Sh1::Free);
    }
    if w < 4096 {
        return None;
    }
    let page = VPage::new(w / 4096);
    match w % 4096 {
        1 => Some(Sh1::Descriptor(page)),
        2 => Some(Sh1::Config(page)),
        3 => Some(Sh1::Lent(page)),
        _ => None,
    }
}

/// The word of a second shadow that says this.
pub fn pack_sh2(s: Sh2) -> u32
    ensures { result ≡ packed_sh2 s }
{
    match s {
        Sh2::Empty => 0,
        Sh2::Of(page) => page.number() * 4096 + 1,
    }
}

/// What a word of a second shadow says. None where it is the word of no value, and only there.
pub fn unpack_sh2(w: u32) -> Option<Sh2>
    ensures packs { IfSome result (λ s. IsSh2 s × (packed_sh2 s ≡ w)) }
    ensures each { (s : Sh2) → IsSh2 s → packed_sh2 s ≡ w → result ≡ Some s }
{
    if w == 0 {
        Some(Sh2::Empty)
    } else if w % 4096 == 1 {
        Some(Sh2::Of(VPage::new(w / 4096)))
    } else {
        None
    }
}
