//! The text of a part.
ghost use Rattle.std.specs.Prelude.{◌≡◌, ◌+◌, ◌*◌, ◌≤◌, ◌∷◌, ◌++◌, [], false, is_some, length, map};
ghost use Rattle.arrayvec.specs.ArrayString.{array_string_len};
ghost use Rattle.pip_io.specs.Texts.{text_bytes};
ghost use Rattle.pip_image.specs.Feeding.{part_fed};
ghost use Rattle.pip_model.specs.DisText.{text_of_lines};
ghost use Rattle.pip_model.specs.InstrRead.{instr_of};
ghost use Rattle.pip_model.specs.InstrText.{word_said};
ghost use Rattle.pip_model.specs.Text.{line_text};
ghost use Rattle.pip_asm.specs.Writing.{parts_text};

use crate::dis::instructions::push_instruction;
use crate::dis::lines::{fields_lines, page_line, plan_line, trim};
use arrayvec::ArrayString;
use pip_image::PartRead;
use pip_io::Text;
use pip_isa::decode;
use pip_script::word_line;

// A line, to which its newline is put.
fn push_line(text: &mut Text, line: &mut ArrayString<64>)
    requires short { array_string_len line.old ≤ 60 }
    requires room { length (text_bytes text.old) + 61 ≤ 32768 }
    ensures { text_bytes text.new ≡ text_bytes text.old ++ line_text line.old.bytes }
{
    line.push_str("\n");
    text.push(line.as_str().as_bytes());
}

// The line of a word that is no instruction.
#[tactic(auto, using(crate::proofs::RowTexts::said_data))]
fn data_line(word: u32) -> [u8; 17]
    requires { is_some (instr_of word) ≡ false }
    ensures { result ≡ line_text (word_said word) }
{
    let mut line = *b".word 0x00000000\n";
    line[6..].copy_from_slice(&word_line(word));
    line
}

// The line of a word: the instruction that it is, else the word.
#[tactic(auto, using(crate::proofs::RowTexts::said_instruction))]
fn push_word(text: &mut Text, word: u32)
    requires { length (text_bytes text.old) + 61 ≤ 32768 }
    ensures bytes { text_bytes text.new ≡ text_bytes text.old ++ line_text (word_said word) }
    ensures short { length (text_bytes text.new) ≤ length (text_bytes text.old) + 25 }
{
    if decode(word).is_none() {
        text.push(&data_line(word));
        return;
    }
    let mut line = ArrayString::new();
    push_instruction(&mut line, word);
    push_line(text, &mut line);
}

// A line for each word.
#[tactic(auto, using(crate::proofs::Written::words_joined))]
fn push_words(text: &mut Text, words: &[u32])
    requires { length (text_bytes text.old) + (25 * length words.now + 61) ≤ 32768 }
    ensures { text_bytes text.new ≡ text_bytes text.old ++ text_of_lines (map word_said words.now) }
{
    for word in words {
        push_word(text, *word);
    }
}

/// Writes the lines of a part. The words are those of a page.
pub fn push_part(text: &mut Text, part: PartRead, words: &[u32; 1024])
    requires { text_bytes text.old ≡ [] }
    ensures { text_bytes text.new ≡ parts_text (part_fed words.now part ∷ []) }
{
    match part {
        PartRead::Fields(fields) => push_line(text, &mut fields_lines(&fields)),
        PartRead::Plan(plan) => push_line(text, &mut plan_line(&plan)),
        PartRead::Page(vpage) => {
            push_line(text, &mut page_line(vpage));
            push_words(text, trim(words.as_slice()));
        }
    }
}
