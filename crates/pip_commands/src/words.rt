//! The words of the command line.
ghost use Rattle.std.specs.Prelude.{◌≡◌, map, string_bytes, Some};
ghost use Rattle.pip_commands.specs.Words.{audit_words, command_of, native_words, single_word, three_words, two_words};

use pip_base::{MAX_FRAMES, MAX_STEPS, MIN_FRAMES};
use pip_children::MAX_CHILDREN;
use pip_script::read_number;

/// What the words ask for (README, "Commands").
#[derive(Drop)]
pub enum Command {
    Script,
    Assemble,
    Disassemble,
    Run { count: u32, seed: u32 },
    Tree { count: u32, seed: u32 },
    Core { count: u32, seed: u32 },
    Soak { count: u32, seed: u32 },
    Native { children: u32, count: u32 },
    Audit { frames: u32 },
}

/// The most events of `soak`.
const MAX_EVENTS: u32 = 1_000_000;

/// The command, or `None` where the words are none of the forms.
pub fn read_words(words: &[String]) -> Option<Command>
    ensures { result ≡ command_of (map string_bytes words.now) }
{
    match words {
        [word] => read_single(word.as_str().as_bytes()),
        [word, number] => read_two(
            word.as_str().as_bytes(),
            read_number(number.as_str().as_bytes()),
        ),
        [word, first, second] => read_three(
            word.as_str().as_bytes(),
            read_number(first.as_str().as_bytes()),
            read_number(second.as_str().as_bytes()),
        ),
        _ => None,
    }
}

fn read_single(word: &[u8]) -> Option<Command>
    ensures { result ≡ single_word word.now }
{
    if word == b"script".as_slice() {
        return Some(Command::Script);
    }
    if word == b"asm".as_slice() {
        return Some(Command::Assemble);
    }
    if word == b"dis".as_slice() {
        return Some(Command::Disassemble);
    }
    None
}

fn read_two(word: &[u8], number: Option<u32>) -> Option<Command>
    ensures { result ≡ two_words word.now number }
{
    let frames = number?;
    if word == b"audit".as_slice() {
        return read_audit(frames);
    }
    None
}

// 16 to 4096 frames.
fn read_audit(frames: u32) -> Option<Command>
    ensures { result ≡ audit_words (Some frames) }
{
    (frames >= MIN_FRAMES && frames <= MAX_FRAMES).then_some(Command::Audit { frames })
}

fn read_three(word: &[u8], first: Option<u32>, second: Option<u32>) -> Option<Command>
    ensures { result ≡ three_words word.now first second }
{
    let (Some(count), Some(seed)) = (first, second) else {
        return None;
    };
    if word == b"native".as_slice() {
        return read_native(count, seed);
    }
    let (command, most) = if word == b"run".as_slice() {
        (Command::Run { count, seed }, MAX_STEPS)
    } else if word == b"tree".as_slice() {
        (Command::Tree { count, seed }, MAX_STEPS)
    } else if word == b"core".as_slice() {
        (Command::Core { count, seed }, MAX_STEPS)
    } else if word == b"soak".as_slice() {
        (Command::Soak { count, seed }, MAX_EVENTS)
    } else {
        return None;
    };
    (count <= most && seed >= 1).then_some(command)
}

// 1 to 8 children, and the steps.
fn read_native(children: u32, count: u32) -> Option<Command>
    ensures { result ≡ native_words (Some children) (Some count) }
{
    (children >= 1 && children <= MAX_CHILDREN && count <= MAX_STEPS).then_some(Command::Native {
        children,
        count,
    })
}
