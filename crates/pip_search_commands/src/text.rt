//! The line that names a bad line of a menu.
ghost use Rattle.std.specs.Prelude.{◌≡◌, ◌≤◌, length};
ghost use Rattle.pip_search_commands.specs.MenuText.{bad_menu_line, menu_kind};

use crate::commands::against::menu::MenuFault;
use crate::commands::against::menu_line::MenuKind;
use arrayvec::ArrayString;
use pip_script::push_decimal;

/// `bad line`, the number of a line of a menu, the kind of its fault and a newline.
pub fn bad_menu_line(fault: MenuFault) -> ArrayString<64>
    ensures { result.bytes ≡ bad_menu_line fault }
{
    let mut text = ArrayString::new();
    text.push_str("bad line ");
    push_decimal(&mut text, fault.line);
    text.push_str(" ");
    text.push_str(menu_kind(fault.kind));
    text.push_str("\n");
    text
}

// The word for a kind.
fn menu_kind(kind: MenuKind) -> &'static str
    ensures text { result.now ≡ menu_kind kind }
    ensures short { length result.now ≤ 4 }
{
    match kind {
        MenuKind::Long => "long",
        MenuKind::Who => "who",
        MenuKind::What => "what",
        MenuKind::Many => "many",
    }
}
