//! The forms of lines, by the numbers after the first word.
ghost use Rattle.std.specs.Prelude.{◌≡◌, ◌-◌, ◌<◌, ◌≤◌, ◌↔◌, ◌++◌, IsTrue, length, replicate, IfSome};
ghost use Rattle.pip_model.specs.Events.{below_of};
ghost use Rattle.pip_model.specs.Grammar.{form, boot_form, load_form, store_form, fetch_form, trap_form, call_form};
ghost use Rattle.pip_model.specs.Grammar.{raise_form, poll_form, peek_form, reg_form, pc_form};
ghost use Rattle.pip_model.specs.Worlds.{World};
ghost use Rattle.pip_script.specs.Proper.{CanBoot, IsProperEvent};
ghost use Rattle.pip_script.specs.Replies.{RepliesTo};

use crate::answers::answer;
use pip_base::{LINES, MAX_CPUS, MAX_FRAMES, MIN_FRAMES, Size, Steps};
use pip_model::{Port, Said, ScriptLine};
use std::sync::ledger::Ledger;

// What the line of this first word and these numbers comes to: `read` is the line that it says, or None. What is done
// with it stands in each arm, where its kind is known, so that it need not be put together in memory.
macro_rules! by_form {
    ($word:expr, $numbers:expr, $cpus:expr, $read:ident => $then:expr) => {{
        let numbers = $numbers;
        let cpus = $cpus;
        by_form!(arms $word, $read => $then;
            b"boot": read_boot(numbers, cpus),
            b"ld": read_load(Size::Word, numbers, cpus),
            b"lb": read_load(Size::Byte, numbers, cpus),
            b"st": read_store(Size::Word, numbers, cpus),
            b"sb": read_store(Size::Byte, numbers, cpus),
            b"fetch": read_fetch(numbers, cpus),
            b"trap": read_trap(numbers, cpus),
            b"call": read_call(numbers, cpus),
            b"raise": read_raise(numbers, cpus),
            b"poll": read_poll(numbers, cpus),
            b"peek": read_peek(numbers, cpus),
            b"reg": read_reg(numbers, cpus),
            b"pc": read_pc(numbers, cpus),
        )
    }};
    (arms $word:expr, $read:ident => $then:expr; $($name:literal: $line:expr,)*) => {
        match $word {
            $($name => {
                let $read = $line;
                $then
            })*
            _ => None,
        }
    };
}

// The line of this first word and these numbers.
#[inline(always)]
pub fn read_form(word: &[u8], numbers: &[u32], cpus: u32) -> Option<ScriptLine>
    requires { length numbers.now ≤ 7 }
    ensures meaning { result ≡ form cpus word.now numbers.now }
    ensures proper { IfSome result (IsProperEvent cpus) }
{
    by_form!(word, numbers, cpus, read => read)
}

// Does what the line of this first word and these numbers says. None where it isn't in the grammar.
#[inline(always)]
pub fn answer_form<P: Port, L: Ledger>(
    port: &mut P,
    word: &[u8],
    numbers: &[u32],
    steps: &mut Steps<L>,
) -> Option<Said>
    requires { length numbers.now ≤ 7 }
    ensures replies { (w : World) → P.stands port.old w → RepliesTo w
        (form (P.count port.old) word.now numbers.now) result (P.stands port.new) }
    ensures count { P.count port.new ≡ P.count port.old }
{
    by_form!(word, numbers, port.cpus(), read => answer_read(port, read, steps))
}

// Does what a line says that was read.
#[inline(always)]
fn answer_read<P: Port, L: Ledger>(
    port: &mut P,
    read: Option<ScriptLine>,
    steps: &mut Steps<L>,
) -> Option<Said>
    requires { IfSome read (IsProperEvent (P.count port.old)) }
    ensures replies { (w : World) → P.stands port.old w → RepliesTo w read result (P.stands port.new) }
    ensures count { P.count port.new ≡ P.count port.old }
{
    match read {
        Some(line) => Some(answer(port, line, steps)),
        None => None,
    }
}

fn read_boot(numbers: &[u32], cpus: u32) -> Option<ScriptLine>
    ensures meaning { result ≡ boot_form cpus numbers.now }
    ensures proper { IfSome result (IsProperEvent cpus) }
{
    match *numbers {
        [n, c] if cpus == 0 && can_boot(n, c) => Some(ScriptLine::Boot { n, c }),
        _ => None,
    }
}

fn read_load(size: Size, numbers: &[u32], cpus: u32) -> Option<ScriptLine>
    ensures meaning { result ≡ load_form size cpus numbers.now }
    ensures proper { IfSome result (IsProperEvent cpus) }
{
    match *numbers {
        [cpu, va] if cpu < cpus => Some(ScriptLine::Load { cpu, va, size }),
        _ => None,
    }
}

fn read_store(size: Size, numbers: &[u32], cpus: u32) -> Option<ScriptLine>
    ensures meaning { result ≡ store_form size cpus numbers.now }
    ensures proper { IfSome result (IsProperEvent cpus) }
{
    match *numbers {
        [cpu, va, word] if cpu < cpus && fits(size, word) => Some(ScriptLine::Store {
            cpu,
            va,
            size,
            word,
        }),
        _ => None,
    }
}

fn read_fetch(numbers: &[u32], cpus: u32) -> Option<ScriptLine>
    ensures meaning { result ≡ fetch_form cpus numbers.now }
    ensures proper { IfSome result (IsProperEvent cpus) }
{
    match *numbers {
        [cpu] if cpu < cpus => Some(ScriptLine::Fetch { cpu }),
        _ => None,
    }
}

fn read_trap(numbers: &[u32], cpus: u32) -> Option<ScriptLine>
    ensures meaning { result ≡ trap_form cpus numbers.now }
    ensures proper { IfSome result (IsProperEvent cpus) }
{
    match *numbers {
        [cpu, vector, a, b] if cpu < cpus && vector < 256 => {
            Some(ScriptLine::Trap { cpu, vector, a, b })
        }
        _ => None,
    }
}

// At most seven numbers leave at most five arguments.
fn read_call(numbers: &[u32], cpus: u32) -> Option<ScriptLine>
    requires { length numbers.now ≤ 7 }
    ensures meaning { result ≡ call_form cpus numbers.now }
    ensures proper { IfSome result (IsProperEvent cpus) }
{
    match numbers {
        [cpu, no, args @ ..] if *cpu < cpus => Some(ScriptLine::Call {
            cpu: *cpu,
            no: *no,
            args: pad(args),
        }),
        _ => None,
    }
}

fn read_raise(numbers: &[u32], cpus: u32) -> Option<ScriptLine>
    ensures meaning { result ≡ raise_form cpus numbers.now }
    ensures proper { IfSome result (IsProperEvent cpus) }
{
    match *numbers {
        [line] if cpus > 0 && line < LINES => Some(ScriptLine::Raise { line }),
        _ => None,
    }
}

fn read_poll(numbers: &[u32], cpus: u32) -> Option<ScriptLine>
    ensures meaning { result ≡ poll_form cpus numbers.now }
    ensures proper { IfSome result (IsProperEvent cpus) }
{
    match *numbers {
        [cpu] if cpu < cpus => Some(ScriptLine::Poll { cpu }),
        _ => None,
    }
}

fn read_peek(numbers: &[u32], cpus: u32) -> Option<ScriptLine>
    ensures meaning { result ≡ peek_form cpus numbers.now }
    ensures proper { IfSome result (IsProperEvent cpus) }
{
    match *numbers {
        [frame, index] if cpus > 0 => Some(ScriptLine::Peek { frame, index }),
        _ => None,
    }
}

fn read_reg(numbers: &[u32], cpus: u32) -> Option<ScriptLine>
    ensures meaning { result ≡ reg_form cpus numbers.now }
    ensures proper { IfSome result (IsProperEvent cpus) }
{
    match *numbers {
        [cpu, reg] if cpu < cpus && reg <= 16 => Some(ScriptLine::Reg { cpu, reg }),
        _ => None,
    }
}

fn read_pc(numbers: &[u32], cpus: u32) -> Option<ScriptLine>
    ensures meaning { result ≡ pc_form cpus numbers.now }
    ensures proper { IfSome result (IsProperEvent cpus) }
{
    match *numbers {
        [cpu, va] if cpu < cpus => Some(ScriptLine::SetPc { cpu, va }),
        _ => None,
    }
}

// Whether a machine of these frames and processors can begin.
fn can_boot(n: u32, c: u32) -> bool
    ensures { IsTrue result ↔ CanBoot n c }
{
    (MIN_FRAMES..=MAX_FRAMES).contains(&n) && (1..=MAX_CPUS).contains(&c)
}

// Whether a store of this size can write the word.
fn fits(size: Size, word: u32) -> bool
    ensures { IsTrue result ↔ (word < below_of size) }
{
    size == Size::Word || word < 256
}

// The arguments, and zeros for those that are missing.
fn pad(args: &[u32]) -> [u32; 5]
    requires { length args.now ≤ 5 }
    ensures { result ≡ args.now ++ replicate (5 - length args.now) 0 }
{
    match *args {
        [] => [0, 0, 0, 0, 0],
        [a] => [a, 0, 0, 0, 0],
        [a, b] => [a, b, 0, 0, 0],
        [a, b, c] => [a, b, c, 0, 0],
        [a, b, c, d] => [a, b, c, d, 0],
        [a, b, c, d, e, ..] => [a, b, c, d, e],
    }
}
