// The operations, by their parts.

/// The width of integer arithmetic: a longword result is the low 32 bits with their sign.
#[derive(Clone, Copy, PartialEq, Eq, Debug)]
pub enum Width {
    /// 32 bits.
    Long,
    /// 64 bits.
    Quad,
}

/// What the first operand of an addition or a subtraction is multiplied by.
#[derive(Clone, Copy, PartialEq, Eq, Debug)]
pub enum Scale {
    /// By 1, as in ADDQ.
    One,
    /// By 4, as in S4ADDQ.
    Four,
    /// By 8, as in S8ADDQ.
    Eight,
}

/// A comparison of quadwords.
#[derive(Clone, Copy, PartialEq, Eq, Debug)]
pub enum Cmp {
    /// CMPEQ: equal.
    Eq,
    /// CMPLT: less, signed.
    Lt,
    /// CMPLE: less or equal, signed.
    Le,
    /// CMPULT: less, unsigned.
    Ult,
    /// CMPULE: less or equal, unsigned.
    Ule,
}

/// The size of the data of a byte operation.
#[derive(Clone, Copy, PartialEq, Eq, Debug)]
pub enum Size {
    /// One byte.
    Byte,
    /// Two bytes.
    Word,
    /// Four bytes.
    Long,
    /// Eight bytes.
    Quad,
}

/// The sizes of byte operations that have a high form: data of one byte never reaches into the next quadword.
#[derive(Clone, Copy, PartialEq, Eq, Debug)]
pub enum Wide {
    /// Two bytes.
    Word,
    /// Four bytes.
    Long,
    /// Eight bytes.
    Quad,
}

/// The 61 operations of the operate format on integers, without the conditional moves
/// (Alpha Architecture Handbook, chapter 4, "Integer Arithmetic Instructions", "Logical and Shift
/// Instructions" and "Byte-Manipulation Instructions").
///
/// The operands are the numbers of Ra and of Rb, or of the literal.
#[derive(Clone, Copy, PartialEq, Eq, Debug)]
pub enum AluOp {
    /// ADDx, S4ADDx, S8ADDx.
    Add(Scale, Width),
    /// SUBx, S4SUBx, S8SUBx.
    Sub(Scale, Width),
    /// MULx.
    Mul(Width),
    /// ADDx/V: ADDx, with a trap on overflow.
    AddV(Width),
    /// SUBx/V: SUBx, with a trap on overflow.
    SubV(Width),
    /// MULx/V: MULx, with a trap on overflow.
    MulV(Width),
    /// The high quadword of the unsigned product.
    Umulh,
    /// CMPxx: 1 where the comparison holds, else 0.
    Compare(Cmp),
    /// One bit for each byte, set where that byte of the first operand is at least the second's.
    Cmpbge,
    /// Logical product.
    And,
    /// Logical sum.
    Bis,
    /// Logical difference.
    Xor,
    /// Logical product with the complement.
    Bic,
    /// Logical sum with the complement.
    Ornot,
    /// Logical equivalence: logical difference with the complement.
    Eqv,
    /// Shift left.
    Sll,
    /// Shift right, with zeros.
    Srl,
    /// Shift right, with copies of the sign.
    Sra,
    /// Bytes cleared where a bit is set.
    Zap,
    /// Bytes cleared where a bit is clear.
    Zapnot,
    /// The low byte of the second operand, with its sign.
    Sextb,
    /// The low word of the second operand, with its sign.
    Sextw,
    /// EXTxL: the low part of data that lies across two quadwords.
    ExtLow(Size),
    /// EXTxH: its high part.
    ExtHigh(Wide),
    /// INSxL: data moved to where its low part is stored.
    InsLow(Size),
    /// INSxH: to where its high part is stored.
    InsHigh(Wide),
    /// MSKxL: the bytes cleared that the low part takes.
    MskLow(Size),
    /// MSKxH: those that the high part takes.
    MskHigh(Wide),
}

/// The tests of conditional branches and conditional moves, each on one register as a signed number
/// (Alpha Architecture Handbook, chapter 4, "Conditional Branch" and "Conditional Move Integer").
#[derive(Clone, Copy, PartialEq, Eq, Debug)]
pub enum Cond {
    /// The low bit is clear.
    Lbc,
    /// Equal to zero.
    Eq,
    /// Less than zero.
    Lt,
    /// Less than or equal to zero.
    Le,
    /// The low bit is set.
    Lbs,
    /// Not equal to zero.
    Ne,
    /// Greater than or equal to zero.
    Ge,
    /// Greater than zero.
    Gt,
}

/// How far a program is rewritten.
#[derive(Clone, Copy, PartialEq, Eq, Debug)]
pub enum Level {
    /// Linked as it stands.
    Plain,
    /// With all rewrites of address calculation.
    Full,
}

/// Why a run traps.
#[derive(Clone, Copy, PartialEq, Eq, Debug)]
pub enum TrapKind {
    /// HALT was executed.
    Halt,
    /// An address is no multiple of the size of its access.
    Unaligned,
    /// An address is where nothing may be read, written or executed.
    Access,
    /// The exact result of a /V operation does not fit.
    Overflow,
}
