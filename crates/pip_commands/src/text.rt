//! The lines that the commands write themselves.
ghost use Rattle.std.specs.Prelude.{◌≡◌, ◌+◌, ◌≤◌, ◌++◌, None, Some, MatchOption, codes, decimal, length};
ghost use Rattle.pip_model.specs.Text.{line_text};
ghost use Rattle.arrayvec.specs.ArrayString.{array_string_len};
ghost use Rattle.pip_audit.specs.Verdict.{verdict_of};
ghost use Rattle.pip_model.specs.Audit.{Finding};
ghost use Rattle.pip_commands.specs.AuditTexts.{differs_line, no_line, place_text, unread_line, unsound_line};
ghost use Rattle.pip_commands.specs.Faults.{asm_kind, asm_line};

use arrayvec::ArrayString;
use pip_audit::Verdict;
use pip_command_contracts::push_decimal;
use pip_model::AsmKind;
use pip_script::{push_decimal as push_number, push_word};

/// `bad line`, the number and a newline.
pub fn bad_line(number: u64) -> ArrayString<64>
    ensures { result.bytes ≡ line_text (codes "bad line " ++ decimal number) }
{
    let mut text = ArrayString::new();
    text.push_str("bad line ");
    push_decimal(&mut text, number);
    text.push_str("\n");
    text
}

/// `bad line`, the number of an assembly line, the kind of its fault and a newline.
pub fn bad_asm_line(number: u64, kind: AsmKind) -> ArrayString<64>
    ensures { result.bytes ≡ asm_line (record { line = number; kind = kind }) }
{
    let mut text = ArrayString::new();
    text.push_str("bad line ");
    push_decimal(&mut text, number);
    text.push_str(" ");
    text.push_str(asm_kind(kind));
    text.push_str("\n");
    text
}

// The word for a kind.
fn asm_kind(kind: AsmKind) -> &'static str
    ensures text { result.now ≡ asm_kind kind }
    ensures short { length result.now ≤ 7 }
{
    match kind {
        AsmKind::Unknown => "unknown",
        AsmKind::Operand => "operand",
        AsmKind::Range => "range",
        AsmKind::Label => "label",
        AsmKind::Twice => "twice",
        AsmKind::Size => "size",
    }
}

/// The line of a verdict and a newline; none where it is yes.
pub fn no_line(verdict: Verdict) -> Option<ArrayString<64>>
    ensures { (f : Finding) → verdict ≡ verdict_of f → MatchOption result (no_line f ≡ None)
        (λ text. no_line f ≡ Some text.bytes) }
{
    match verdict {
        Verdict::Yes => None,
        Verdict::Unread { frame, index } => Some(unread_line(frame, index)),
        Verdict::Unsound { part } => Some(unsound_line(part)),
        Verdict::Differs {
            frame,
            index,
            found,
            want,
        } => Some(differs_line(frame, index, found, want)),
    }
}

fn unread_line(frame: u32, index: u32) -> ArrayString<64>
    ensures { result.bytes ≡ unread_line frame index }
{
    let mut text = ArrayString::new();
    text.push_str("no unread ");
    push_place(&mut text, frame, index);
    text.push_str("\n");
    text
}

fn unsound_line(part: u32) -> ArrayString<64>
    ensures { result.bytes ≡ unsound_line part }
{
    let mut text = ArrayString::new();
    text.push_str("no unsound ");
    push_number(&mut text, part);
    text.push_str("\n");
    text
}

fn differs_line(frame: u32, index: u32, found: u32, want: u32) -> ArrayString<64>
    ensures { result.bytes ≡ differs_line frame index found want }
{
    let mut text = ArrayString::new();
    text.push_str("no differs ");
    push_place(&mut text, frame, index);
    text.push_str(" ");
    push_word(&mut text, found);
    text.push_str(" ");
    push_word(&mut text, want);
    text.push_str("\n");
    text
}

// A frame and an index.
fn push_place(text: &mut ArrayString<64>, frame: u32, index: u32)
    requires { array_string_len text.old + 21 ≤ 64 }
    ensures bytes { text.new.bytes ≡ text.old.bytes ++ place_text frame index }
    ensures short { array_string_len text.new ≤ array_string_len text.old + 21 }
{
    push_number(text, frame);
    text.push_str(" ");
    push_number(text, index);
}
