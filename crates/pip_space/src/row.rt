//! Rows as the kernel reads and writes them.
ghost use Rattle.std.specs.Prelude.{◌≡◌, Option, Some, option_map};
ghost use Rattle.pip_model.specs.FullRows.{FullRow, row_word};
ghost use Rattle.pip_model.specs.declared.level.Level.TheVariants.{Mmu, Shadow1, Shadow2};
ghost use Rattle.pip_model.specs.NodeIn.{IsFullRow};
ghost use Rattle.pip_space.specs.Rows.{IsPacked, IsRowWord, full_of};

use pip_base::{Frame, Rights, never};
use pip_entry::{Leaf, Sh1, Sh2, pack_leaf, unpack_leaf, unpack_sh1, unpack_sh2};

/// A row of a partition: what its tables say of one virtual page.
#[derive(Clone, Copy, Debug, PartialEq, Eq)]
pub struct Row {
    /// The page that is mapped.
    pub frame: Frame,
    /// What the partition may do with it. READ is among the rights.
    pub rights: Rights,
    /// Off where the page is configuration of a partition.
    pub user: bool,
    /// To which child the page is given.
    pub given: Sh1,
    /// Where the parent maps the page.
    pub from: Sh2,
}

/// The row that three words say, one of each level. None if they say none.
pub(crate) fn row_from(word: u32, given: u32, from: u32) -> Option<Row>
    ensures { (r : Option FullRow) → IsPacked r → word ≡ row_word Mmu r → given ≡ row_word Shadow1 r →
        from ≡ row_word Shadow2 r → option_map full_of result ≡ r }
{
    match unpack_leaf(word)? {
        Leaf::Empty => None,
        Leaf::Page {
            frame,
            user,
            rights,
        } => Some(Row {
            frame,
            rights,
            user,
            given: unpack_sh1(given)?,
            from: unpack_sh2(from)?,
        }),
    }
}

/// The same word of an MMU table, but for the user bit. It is that of a page.
pub(crate) fn with_user(word: u32, user: bool) -> u32
    requires { IsRowWord word }
    ensures { (r : FullRow) → IsFullRow r → word ≡ row_word Mmu (Some r) →
        result ≡ row_word Mmu (Some (record r { user = user })) }
{
    match unpack_leaf(word) {
        None => never!(),
        Some(leaf) => match leaf {
            Leaf::Empty => never!(),
            Leaf::Page { frame, rights, .. } => pack_leaf(Leaf::Page {
                frame,
                user,
                rights,
            }),
        },
    }
}
