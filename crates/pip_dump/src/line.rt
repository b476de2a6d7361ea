//! The lines of the text of a tree.
ghost use Rattle.std.specs.Prelude.{◌≡◌, ℕ, ◌+◌, ◌*◌, ◌≤◌, ◌++◌, codes, decimal, length};
ghost use Rattle.arrayvec.specs.ArrayString.{array_string_len};
ghost use Rattle.pip_base.specs.Rights.{rights_number};
ghost use Rattle.pip_entry.specs.Sh1.{packed_sh1};
ghost use Rattle.pip_model.specs.Dump.{part_line, rights_text, row_text, use_text};
ghost use Rattle.pip_model.specs.FullRows.{given_word};
ghost use Rattle.pip_model.specs.Sound.{IsSound};
ghost use Rattle.pip_model.specs.Text.{word_text};
ghost use Rattle.pip_model.specs.Tree.{Node, Row as TreeRow, Tree, holder};
ghost use Rattle.pip_dump.specs.Lines.{ShowsRow, view_between};

use arrayvec::ArrayString;
use bitflags::Flags;
use pip_base::{Frame, Rights, VPage};
use pip_entry::{Leaf, Sh1, unpack_leaf, unpack_sh1};
use pip_script::{push_decimal, push_word};

/// What the line of a partition tells.
#[derive(Clone, Copy, Debug)]
pub(crate) struct Head {
    pub name: u32,
    pub depth: u32,
    pub up: u32,
    pub born: u32,
    pub tables: u32,
    pub rows: u32,
}

/// The line of a partition, with its newline.
pub(crate) fn part_line(head: &Head) -> ArrayString<128>
    ensures { result.bytes ≡ part_line head.now.name head.now.depth head.now.up head.now.born head.now.tables
        head.now.rows }
{
    let mut text = ArrayString::new();
    text.push_str("part ");
    push_decimal(&mut text, head.name);
    text.push_str(" depth ");
    push_decimal(&mut text, head.depth);
    text.push_str(" up ");
    push_decimal(&mut text, head.up);
    text.push_str(" born ");
    push_word(&mut text, head.born);
    text.push_str(" tables ");
    push_decimal(&mut text, head.tables);
    text.push_str(" rows ");
    push_decimal(&mut text, head.rows);
    text.push_str("\n");
    text
}

/// Writes the line of a row, with its newline, at the end of a text with room for it, by the words that an MMU table
/// and its first shadow have for it. Words that are no row's have no line.
pub(crate) fn push_row(text: &mut ArrayString<64>, v: VPage, leaf: u32, given: u32)
    requires { array_string_len text.old + 53 ≤ 64 }
    ensures { (t : Tree) (x : Node) (q : TreeRow) → IsSound t → v ≡ q.at → ShowsRow t x q leaf given →
        text.new.bytes ≡ text.old.bytes ++ row_text t x q }
{
    let Some(given) = unpack_sh1(given) else {
        return;
    };
    let Some(leaf) = unpack_leaf(leaf) else {
        return;
    };
    match leaf {
        Leaf::Empty => {}
        Leaf::Page {
            frame,
            user,
            rights,
        } => {
            push_page(text, 4096 * v.number(), frame, user, rights);
            push_use(text, given);
            text.push_str("\n");
        }
    }
}

// What the line of a row says of its page: the address, the page, the rights, and whether the user may use it.
fn push_page(text: &mut ArrayString<64>, va: u32, frame: Frame, user: bool, rights: Rights)
    requires { array_string_len text.old + 37 ≤ 64 }
    ensures bytes { text.new.bytes ≡ text.old.bytes ++ (codes "row " ++ word_text va ++ codes " " ++ decimal frame ++
        codes " " ++
        rights_text (rights_number rights) ++ view_between user) }
    ensures short { array_string_len text.new ≤ array_string_len text.old + 37 }
{
    text.push_str("row ");
    push_word(text, va);
    text.push_str(" ");
    push_decimal(text, frame.number());
    text.push_str(" ");
    text.push_str(rights_text(rights));
    push_view(text, user);
}

// Whether the user may use a page, between two spaces.
fn push_view(text: &mut ArrayString<64>, user: bool)
    requires { array_string_len text.old + 8 ≤ 64 }
    ensures bytes { text.new.bytes ≡ text.old.bytes ++ view_between user }
    ensures short { array_string_len text.new ≤ array_string_len text.old + 8 }
{
    if user {
        text.push_str(" user ");
    } else {
        text.push_str(" hidden ");
    }
}

// The rights of a row: each by its letter, or `-`. READ is among them.
fn rights_text(rights: Rights) -> &'static str
    ensures text { result.now ≡ rights_text (rights_number rights) }
    ensures three { length result.now ≡ 3 }
{
    let write = rights.contains(Rights::WRITE);
    let exec = rights.contains(Rights::EXEC);
    match (write, exec) {
        (true, true) => "rwx",
        (true, false) => "rw-",
        (false, true) => "r-x",
        (false, false) => "r--",
    }
}

// Who uses a page.
fn push_use(text: &mut ArrayString<64>, given: Sh1)
    requires { array_string_len text.old + 15 ≤ 64 }
    ensures bytes { (t : Tree) (p g : ℕ) → IsSound t → packed_sh1 given ≡ given_word t p g →
        text.new.bytes ≡ text.old.bytes ++ use_text (holder t p g) g }
    ensures short { array_string_len text.new ≤ array_string_len text.old + 15 }
{
    match given {
        Sh1::Free => text.push_str("free"),
        Sh1::Descriptor(v) => {
            text.push_str("desc ");
            push_word(text, 4096 * v.number());
        }
        Sh1::Config(v) => {
            text.push_str("conf ");
            push_word(text, 4096 * v.number());
        }
        Sh1::Lent(v) => {
            text.push_str("lent ");
            push_word(text, 4096 * v.number());
        }
    }
}
