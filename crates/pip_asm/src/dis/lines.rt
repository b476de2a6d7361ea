//! The lines of an image.
ghost use Rattle.std.specs.Prelude.{◌≡◌, ◌+◌, ◌*◌, ◌≤◌, ◌++◌, ◌∷◌, length, codes, decimal};
ghost use Rattle.arrayvec.specs.ArrayString.{array_string_len};
ghost use Rattle.pip_model.specs.DisText.{without_last_zeros};
ghost use Rattle.pip_model.specs.Text.{word_text};

use crate::dis::operands::push_decimal;
use arrayvec::ArrayString;
use pip_base::{Plan, VPage};
use pip_image::Fields;
use pip_script::word_text;

/// A word, with a space before it, and a number.
pub fn number_line(name: &str, number: u32) -> ArrayString<64>
    requires { length name.now ≤ 8 }
    ensures bytes { result.bytes ≡ name.now ++ decimal number }
    ensures short { array_string_len result ≤ 18 }
{
    let mut line = ArrayString::new();
    line.push_str(name);
    push_decimal(&mut line, number);
    line
}

/// The two lines of the fields, of which the second has no newline.
pub fn fields_lines(fields: &Fields) -> ArrayString<64>
    ensures bytes { result.bytes ≡ (codes ".frames " ++ decimal fields.now.frames) ++ 10 ∷
        (codes ".cpus " ++ decimal fields.now.cpus) }
    ensures short { array_string_len result ≤ 60 }
{
    let mut lines = number_line(".frames ", fields.frames);
    lines.push_str("\n.cpus ");
    push_decimal(&mut lines, fields.cpus);
    lines
}

#[tactic(auto, using(crate::proofs::Joined::three_numbers))]
pub fn plan_line(plan: &Plan) -> ArrayString<64>
    ensures bytes { result.bytes ≡ codes ".line " ++ (decimal plan.now.line ++ 32 ∷
        (decimal plan.now.first ++ 32 ∷ decimal plan.now.period)) }
    ensures short { array_string_len result ≤ 60 }
{
    let mut line = number_line(".line ", plan.line);
    line.push_str(" ");
    push_decimal(&mut line, plan.first);
    line.push_str(" ");
    push_decimal(&mut line, plan.period);
    line
}

pub fn page_line(vpage: VPage) -> ArrayString<64>
    ensures bytes { result.bytes ≡ codes ".page " ++ word_text (vpage * 4096) }
    ensures short { array_string_len result ≤ 60 }
{
    let mut line = ArrayString::new();
    line.push_str(".page ");
    line.push_str(word_text(vpage.number() * 4096).as_str());
    line
}

/// Words up to the last that isn't 0.
#[tactic(auto, using(crate::proofs::Trimming::trim_zero, crate::proofs::Trimming::trim_none))]
pub fn trim(words: &[u32]) -> &[u32]
    ensures { result.now ≡ without_last_zeros words.now }
{
    let mut rest = words;
    while let Some((last, front)) = rest.split_last() {
        if *last != 0 {
            return rest;
        }
        rest = front;
    }
    rest
}
