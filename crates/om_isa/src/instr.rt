// The instructions.
use crate::fields::{Disp, Hint, Reg};
use om_alpha::{AluOp, Cond};

/// The operations of the memory format, by their names in the Alpha Architecture Handbook, chapter 4,
/// "Memory Integer Load/Store Instructions".
#[derive(Clone, Copy, PartialEq, Eq, Debug)]
pub enum MemOp {
    /// Load address.
    Lda,
    /// Load address high: the displacement times 65536.
    Ldah,
    /// Load a byte, with zeros above it.
    Ldbu,
    /// Load the quadword that an address lies in.
    LdqU,
    /// Load a word of two bytes, with zeros above it.
    Ldwu,
    /// Store a word of two bytes.
    Stw,
    /// Store a byte.
    Stb,
    /// Store the quadword that an address lies in.
    StqU,
    /// Load a longword, with its sign.
    Ldl,
    /// Load a quadword.
    Ldq,
    /// Store a longword.
    Stl,
    /// Store a quadword.
    Stq,
}

/// What a memory operation does.
#[derive(Clone, Copy, PartialEq, Eq, Debug)]
pub enum Access {
    /// It computes an address and looks at no memory: LDA and LDAH.
    Address,
    /// It reads memory.
    Load,
    /// It writes memory.
    Store,
}

/// The jumps: alike in what they do, they differ in what they tell a predictor of branches
/// (Alpha Architecture Handbook, chapter 4, "Jump").
#[derive(Clone, Copy, PartialEq, Eq, Debug)]
pub enum JumpOp {
    /// Jump.
    Jmp,
    /// Jump to a subroutine.
    Jsr,
    /// Return from a subroutine.
    Ret,
    /// JSR_COROUTINE: jump to a subroutine and return.
    Jcr,
}

/// The operations of the branch format (Alpha Architecture Handbook, chapter 4, "Control Instructions").
#[derive(Clone, Copy, PartialEq, Eq, Debug)]
pub enum BrOp {
    /// Branch.
    Br,
    /// Branch to a subroutine.
    Bsr,
    /// Branch where the test holds of Ra.
    If(Cond),
}

/// The second operand of an operate instruction.
#[derive(Clone, Copy, PartialEq, Eq, Debug)]
pub enum Opnd {
    /// The number in a register.
    R(Reg),
    /// A literal, 0 to 255.
    Lit(u8),
}

/// The barriers (Alpha Architecture Handbook, chapter 4, "Miscellaneous Instructions").
#[derive(Clone, Copy, PartialEq, Eq, Debug)]
pub enum MiscOp {
    /// Trap barrier.
    Trapb,
    /// Exception barrier.
    Excb,
    /// Memory barrier.
    Mb,
    /// Write memory barrier.
    Wmb,
}

/// An instruction: an operation and the fields of its format
/// (Alpha Architecture Handbook, chapter 3, "Instruction Formats").
#[derive(Clone, Copy, PartialEq, Eq, Debug)]
pub enum Instr {
    /// A load, a store, or the computation of an address: Rb plus the displacement, in bytes.
    Mem {
        op: MemOp,
        ra: Reg,
        rb: Reg,
        disp: i16,
    },
    /// A jump to the address in Rb; Ra gets the next address. The hint has no effect.
    Jump {
        kind: JumpOp,
        ra: Reg,
        rb: Reg,
        hint: Hint,
    },
    /// A branch by a displacement in instructions, from the next address. BR and BSR set Ra to that address.
    Branch {
        op: BrOp,
        ra: Reg,
        disp: Disp,
    },
    /// An operation on Ra and an operand, into Rc.
    Alu {
        op: AluOp,
        ra: Reg,
        rb: Opnd,
        rc: Reg,
    },
    /// The operand into Rc where the test holds of Ra.
    Cmov {
        cond: Cond,
        ra: Reg,
        rb: Opnd,
        rc: Reg,
    },
    /// A barrier. The registers are kept as they stand in the word and have no effect.
    Misc {
        op: MiscOp,
        ra: Reg,
        rb: Reg,
    },
    /// The floating-point no-operation, the one floating-point word that is read.
    Fnop,
    /// CALL_PAL HALT.
    Halt,
    /// CALL_PAL callsys: the system call.
    Callsys,
}
