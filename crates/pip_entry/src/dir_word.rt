//! Words of directories.
ghost use Rattle.std.specs.Prelude.{◌≡◌, IfSome, Some};
ghost use Rattle.pip_entry.specs.declared.dir_word.DirWord.{DirWord};
ghost use Rattle.pip_entry.specs.DirWord.{packed_dir, IsDirWord};

use pip_base::Frame;

/// What a word of a directory says: docs/FORMATS.md, "Directory word".
#[derive(Clone, Copy, Debug, PartialEq, Eq)]
pub enum DirWord {
    /// The directory index has no table.
    Empty,
    /// The directory index has a table in this frame.
    Table(Frame),
}

/// The word of a directory that says this.
pub fn pack_dir(d: DirWord) -> u32
    ensures { result ≡ packed_dir d }
{
    match d {
        DirWord::Empty => 0,
        DirWord::Table(frame) => frame.number() * 4096 + 1,
    }
}

/// What a word of a directory says. None where it is the word of no value, and only there.
pub fn unpack_dir(w: u32) -> Option<DirWord>
    ensures packs { IfSome result (λ d. IsDirWord d × (packed_dir d ≡ w)) }
    ensures each { (d : DirWord) → IsDirWord d → packed_dir d ≡ w → result ≡ Some d }
{
    if w == 0 {
        Some(DirWord::Empty)
    } else if w % 4096 == 1 {
        Some(DirWord::Table(Frame::new(w / 4096)))
    } else {
        None
    }
}
