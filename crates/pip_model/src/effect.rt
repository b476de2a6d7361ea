//! What an instruction does.
use crate::operands::Register;
use pip_base::Size;

/// What an instruction does: it changes a register and pc of its processor, or makes one event, or shows a word.
#[derive(Clone, Copy)]
pub enum Effect {
    /// A register gets a word, and pc goes on.
    Sets {
        register: Register,
        word: u32,
    },
    /// pc goes to an address.
    Goes {
        pc: u32,
    },
    /// A register gets the address of the next instruction, and pc goes to another.
    Links {
        register: Register,
        pc: u32,
    },
    /// A word or byte is read into a register.
    Loads {
        register: Register,
        va: u32,
        size: Size,
    },
    /// A word, or a byte below 256, is written.
    Stores {
        va: u32,
        word: u32,
        size: Size,
    },
    /// A vector below 256 is raised, with pc at the instruction.
    Traps {
        vector: u32,
        a: u32,
        b: u32,
    },
    /// A vector below 256 is raised, with pc after the instruction.
    Interrupts {
        vector: u32,
    },
    /// The kernel is called, with pc after the instruction.
    Calls {
        number: u32,
    },
    /// A word is shown in the trace.
    Shows(u32),
}
