//! Words of MMU tables.
ghost use Rattle.std.specs.Prelude.{◌≡◌, IfSome, Some};
ghost use Rattle.pip_entry.specs.declared.leaf.Leaf.{Leaf};
ghost use Rattle.pip_entry.specs.Leaf.{packed_leaf, IsLeaf};

use bitflags::Flags;
use pip_base::{Frame, Rights};

/// What a word of an MMU table says: docs/FORMATS.md, "Table word".
#[derive(Clone, Copy, Debug, PartialEq, Eq)]
pub enum Leaf {
    /// The partition has no row at the vpage.
    Empty,
    /// The page in this frame. `user` is off where the page is configuration of a partition.
    Page {
        frame: Frame,
        user: bool,
        rights: Rights,
    },
}

/// The word of an MMU table that says this. READ is among the rights of a page, and none is but READ, WRITE and EXEC.
pub fn pack_leaf(l: Leaf) -> u32
    requires { IsLeaf l }
    ensures { result ≡ packed_leaf l }
{
    match l {
        Leaf::Empty => 0,
        Leaf::Page {
            frame,
            user,
            rights,
        } => {
            let user_bit = if user { 2 } else { 0 };
            frame.number() * 4096 + 1 + user_bit + 4 * rights.bits()
        }
    }
}

/// What a word of an MMU table says. None exactly where no value with READ among its rights packs to the word.
pub fn unpack_leaf(w: u32) -> Option<Leaf>
    ensures packs { IfSome result (λ l. IsLeaf l × (packed_leaf l ≡ w)) }
    ensures each { (l : Leaf) → IsLeaf l → packed_leaf l ≡ w → result ≡ Some l }
{
    if w == 0 {
        return Some(Leaf::Empty);
    }
    let bits = w % 4096;
    if bits >= 32 || bits % 2 == 0 || bits / 4 % 2 == 0 {
        return None;
    }
    Some(Leaf::Page {
        frame: Frame::new(w / 4096),
        user: bits / 2 % 2 == 1,
        rights: Rights::from_bits_retain(bits / 4),
    })
}
