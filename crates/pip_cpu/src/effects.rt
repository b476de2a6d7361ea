//! What each instruction does.
ghost use Rattle.std.specs.Prelude.{◌≡◌, ◌/◌, ◌%◌};
ghost use Rattle.pip_model.specs.Effects as model;
ghost use Rattle.pip_model.specs.Effects.{IsEffect};
ghost use Rattle.pip_model.specs.declared.effect.Effect.TheVariants as F;
ghost use Rattle.pip_base.specs.declared.types.Size.TheVariants.{Byte, Word};
ghost use Rattle.pip_model.specs.declared.instr.Instr.TheVariants as I;

use crate::words::{bit, extended, is_below_signed, shifted_signed, with_high};
use pip_base::{Ctx, Size};
use pip_model::{Effect, Instr, Register};

/// What an instruction does on a processor with this context (docs/FORMATS.md, "Instructions").
#[inline(always)]
pub fn effect_of(ctx: &Ctx, instr: &Instr) -> Effect
    ensures proper { IsEffect result }
    ensures same { result ≡ model.effect ctx.now instr.now }
{
    match *instr {
        Instr::Mov { a, b } => set(a, word(ctx, b)),
        Instr::Li { a, value } => set(a, u32::from(value)),
        Instr::LiHigh { a, value } => set(a, with_high(word(ctx, a), value)),
        Instr::Add { a, b, c } => set(a, word(ctx, b).wrapping_add(word(ctx, c))),
        Instr::Sub { a, b, c } => set(a, word(ctx, b).wrapping_sub(word(ctx, c))),
        Instr::Mul { a, b, c } => set(a, word(ctx, b).wrapping_mul(word(ctx, c))),
        Instr::Div { a, b, c } => quotient(ctx, a, word(ctx, b), word(ctx, c)),
        Instr::Rem { a, b, c } => remainder(ctx, a, word(ctx, b), word(ctx, c)),
        Instr::And { a, b, c } => set(a, word(ctx, b) & word(ctx, c)),
        Instr::Or { a, b, c } => set(a, word(ctx, b) | word(ctx, c)),
        Instr::Xor { a, b, c } => set(a, word(ctx, b) ^ word(ctx, c)),
        Instr::ShiftLeft { a, b, c } => set(a, word(ctx, b).wrapping_shl(word(ctx, c))),
        Instr::ShiftRight { a, b, c } => set(a, word(ctx, b).wrapping_shr(word(ctx, c))),
        Instr::ShiftSigned { a, b, c } => set(a, shifted_signed(word(ctx, b), word(ctx, c))),
        Instr::LessSigned { a, b, c } => set(a, bit(is_below_signed(word(ctx, b), word(ctx, c)))),
        Instr::Less { a, b, c } => set(a, bit(word(ctx, b) < word(ctx, c))),
        Instr::AddImmediate { a, b, offset } => set(a, address(ctx, b, offset)),
        Instr::AndImmediate { a, b, value } => set(a, word(ctx, b) & u32::from(value)),
        Instr::OrImmediate { a, b, value } => set(a, word(ctx, b) | u32::from(value)),
        Instr::ShiftLeftImmediate { a, b, shift } => set(a, word(ctx, b) << shift.number()),
        Instr::ShiftRightImmediate { a, b, shift } => set(a, word(ctx, b) >> shift.number()),
        Instr::LoadWord { a, b, offset } => load(a, address(ctx, b, offset), Size::Word),
        Instr::StoreWord { a, b, offset } => store_word(address(ctx, b, offset), word(ctx, a)),
        Instr::LoadByte { a, b, offset } => load(a, address(ctx, b, offset), Size::Byte),
        Instr::StoreByte { a, b, offset } => store_byte(address(ctx, b, offset), word(ctx, a)),
        Instr::BranchEqual { a, b, offset } => branch(ctx, word(ctx, a) == word(ctx, b), offset),
        Instr::BranchUnequal { a, b, offset } => branch(ctx, word(ctx, a) != word(ctx, b), offset),
        Instr::BranchLessSigned { a, b, offset } => {
            branch(ctx, is_below_signed(word(ctx, a), word(ctx, b)), offset)
        }
        Instr::BranchLess { a, b, offset } => branch(ctx, word(ctx, a) < word(ctx, b), offset),
        Instr::JumpAndLink { a, offset } => jump_and_link(ctx, a, offset),
        Instr::Jump { a } => jump(word(ctx, a)),
        Instr::Sys { value } => Effect::Calls {
            number: u32::from(value),
        },
        Instr::Interrupt { vector } => Effect::Interrupts {
            vector: vector.number(),
        },
        Instr::Out { a } => Effect::Shows(word(ctx, a)),
    }
}

// The word in a register.
fn word(ctx: &Ctx, a: Register) -> u32
    ensures { result ≡ model.register ctx.now a }
{
    ctx.regs[a.number() as usize]
}

/// The address of the next instruction.
pub fn next_pc(ctx: &Ctx) -> u32
    ensures { result ≡ model.next ctx.now }
{
    ctx.pc.wrapping_add(4)
}

fn set(a: Register, word: u32) -> Effect
    ensures { result ≡ F.Sets a word }
{
    Effect::Sets { register: a, word }
}

// The divisor 0 traps.
fn quotient(ctx: &Ctx, a: Register, b: u32, c: u32) -> Effect
    ensures proper { IsEffect result }
    ensures same { result ≡ model.traps_at_zero ctx.now c (F.Sets a (b / c)) }
{
    if c == 0 {
        return zero_divisor(ctx);
    }
    set(a, b / c)
}

fn remainder(ctx: &Ctx, a: Register, b: u32, c: u32) -> Effect
    ensures proper { IsEffect result }
    ensures same { result ≡ model.traps_at_zero ctx.now c (F.Sets a (b % c)) }
{
    if c == 0 {
        return zero_divisor(ctx);
    }
    set(a, b % c)
}

fn zero_divisor(ctx: &Ctx) -> Effect
    ensures { result ≡ F.Traps 0 ctx.now.pc 0 }
{
    Effect::Traps {
        vector: 0,
        a: ctx.pc,
        b: 0,
    }
}

// The address of a load or a store: a register and a signed distance.
fn address(ctx: &Ctx, b: Register, offset: i16) -> u32
    ensures { result ≡ model.address ctx.now b offset }
{
    word(ctx, b).wrapping_add(extended(offset))
}

fn load(a: Register, va: u32, size: Size) -> Effect
    ensures { result ≡ F.Loads a va size }
{
    Effect::Loads {
        register: a,
        va,
        size,
    }
}

fn store_word(va: u32, word: u32) -> Effect
    ensures proper { IsEffect result }
    ensures same { result ≡ F.Stores va word Word }
{
    Effect::Stores {
        va,
        word,
        size: Size::Word,
    }
}

// The lowest byte of a word is stored.
fn store_byte(va: u32, word: u32) -> Effect
    ensures proper { IsEffect result }
    ensures same { result ≡ F.Stores va (word % 256) Byte }
{
    Effect::Stores {
        va,
        word: word % 256,
        size: Size::Byte,
    }
}

// Where a branch by that many instructions leads.
fn target(ctx: &Ctx, offset: i16) -> u32
    ensures { result ≡ model.target ctx.now offset }
{
    next_pc(ctx).wrapping_add(extended(offset).wrapping_mul(4))
}

fn branch(ctx: &Ctx, taken: bool, offset: i16) -> Effect
    ensures { result ≡ model.branch ctx.now taken offset }
{
    if taken {
        return jump(target(ctx, offset));
    }
    jump(next_pc(ctx))
}

fn jump(pc: u32) -> Effect
    ensures { result ≡ F.Goes pc }
{
    Effect::Goes { pc }
}

// A jump that keeps the address of the next instruction in a register.
fn jump_and_link(ctx: &Ctx, a: Register, offset: i16) -> Effect
    ensures { result ≡ model.effect ctx.now (I.JumpAndLink a offset) }
{
    Effect::Links {
        register: a,
        pc: target(ctx, offset),
    }
}
