//! The instructions: the one table from which words are read and written, and mnemonics found.

// A row for each instruction, in the order of the opcodes: its opcode, its mnemonic as a text and as bytes, the form of
// its words, and its name and operands in `Instr`. `instructions!(name ..)` calls the macro of this name, with the rows
// after what stands there.
macro_rules! instructions {
    ($then:ident $($argument:tt)*) => {
        $then! {
            $($argument)*;
            0x01 "mov" b"mov" Two Mov { a, b }
            0x02 "li" b"li" OneAndValue Li { a, value }
            0x03 "lih" b"lih" OneAndValue LiHigh { a, value }
            0x04 "add" b"add" Three Add { a, b, c }
            0x05 "sub" b"sub" Three Sub { a, b, c }
            0x06 "mul" b"mul" Three Mul { a, b, c }
            0x07 "div" b"div" Three Div { a, b, c }
            0x08 "rem" b"rem" Three Rem { a, b, c }
            0x09 "and" b"and" Three And { a, b, c }
            0x0a "or" b"or" Three Or { a, b, c }
            0x0b "xor" b"xor" Three Xor { a, b, c }
            0x0c "shl" b"shl" Three ShiftLeft { a, b, c }
            0x0d "shr" b"shr" Three ShiftRight { a, b, c }
            0x0e "sar" b"sar" Three ShiftSigned { a, b, c }
            0x0f "slt" b"slt" Three LessSigned { a, b, c }
            0x10 "sltu" b"sltu" Three Less { a, b, c }
            0x11 "addi" b"addi" TwoAndOffset AddImmediate { a, b, offset }
            0x12 "andi" b"andi" TwoAndValue AndImmediate { a, b, value }
            0x13 "ori" b"ori" TwoAndValue OrImmediate { a, b, value }
            0x14 "shli" b"shli" TwoAndShift ShiftLeftImmediate { a, b, shift }
            0x15 "shri" b"shri" TwoAndShift ShiftRightImmediate { a, b, shift }
            0x16 "ldw" b"ldw" TwoAndOffset LoadWord { a, b, offset }
            0x17 "stw" b"stw" TwoAndOffset StoreWord { a, b, offset }
            0x18 "ldb" b"ldb" TwoAndOffset LoadByte { a, b, offset }
            0x19 "stb" b"stb" TwoAndOffset StoreByte { a, b, offset }
            0x1a "beq" b"beq" TwoAndOffset BranchEqual { a, b, offset }
            0x1b "bne" b"bne" TwoAndOffset BranchUnequal { a, b, offset }
            0x1c "blt" b"blt" TwoAndOffset BranchLessSigned { a, b, offset }
            0x1d "bltu" b"bltu" TwoAndOffset BranchLess { a, b, offset }
            0x1e "jal" b"jal" OneAndOffset JumpAndLink { a, offset }
            0x1f "jr" b"jr" One Jump { a }
            0x20 "sys" b"sys" Value Sys { value }
            0x21 "int" b"int" Vector Interrupt { vector }
            0x22 "out" b"out" One Out { a }
        }
    };
}

pub(crate) use instructions;
