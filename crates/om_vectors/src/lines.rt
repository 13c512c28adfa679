// One line of the vectors.
use om_alpha::{alu, holds, overflows};
use om_isa::{
    Disp, Hint, Instr, Opnd, Reg, access_kind, branch_target, decode, encode, reads, writes,
};
use std::alloc::{AllocError, Global};

/// The address at which the vectors' branches stand.
const PLACE: u64 = 0x1_2000_1000;

fn hex(text: &str) -> Option<u64> {
    u64::from_str_radix(text, 16).ok()
}

fn word_of(text: &str) -> Option<u32> {
    u32::from_str_radix(text, 16).ok()
}

/// `alu WORD A B RESULT OVERFLOWS`
fn alu_agrees(rest: &str) -> Option<bool> {
    let (word, rest) = rest.split_once(' ')?;
    let (a, rest) = rest.split_once(' ')?;
    let (b, rest) = rest.split_once(' ')?;
    let (result, over) = rest.split_once(' ')?;
    let Instr::Alu { op, .. } = decode(word_of(word)?)? else {
        return None;
    };
    let (a, b) = (hex(a)?, hex(b)?);
    Some(alu(op, a, b) == hex(result)? && overflows(op, a, b) == (over == "yes"))
}

/// An operation's word, its operands and its result.
#[derive(Clone, Copy)]
pub struct Computed {
    pub word: u32,
    pub a: u64,
    pub b: u64,
    pub result: u64,
}

/// What `alu WORD A B RESULT no` says, where nothing overflows.
pub fn vector_of(line: &str) -> Option<Computed> {
    let rest = line.strip_prefix("alu ")?;
    let (word, rest) = rest.split_once(' ')?;
    let (a, rest) = rest.split_once(' ')?;
    let (b, rest) = rest.split_once(' ')?;
    let (result, over) = rest.split_once(' ')?;
    if over != "no" {
        return None;
    }
    Some(Computed {
        word: word_of(word)?,
        a: hex(a)?,
        b: hex(b)?,
        result: hex(result)?,
    })
}

/// `cond WORD A HOLDS`
fn cond_agrees(rest: &str) -> Option<bool> {
    let (word, rest) = rest.split_once(' ')?;
    let (a, answer) = rest.split_once(' ')?;
    let Instr::Cmov { cond, .. } = decode(word_of(word)?)? else {
        return None;
    };
    Some(holds(cond, hex(a)?) == (answer == "yes"))
}

/// `bound KIND NUMBER MAKES`
fn bound_agrees(rest: &str) -> Option<bool> {
    let (kind, rest) = rest.split_once(' ')?;
    let (number, answer) = rest.split_once(' ')?;
    let n = number.parse::<i32>().ok()?;
    let made = match kind {
        "reg" => Reg::new(u8::try_from(n).ok()?).map(|r| i32::from(r.num())),
        "hint" => Hint::new(u16::try_from(n).ok()?).map(|h| i32::from(h.num())),
        "disp" => Disp::new(n).map(|d| d.num()),
        _ => return None,
    };
    Some(made == if answer == "yes" { Some(n) } else { None })
}

/// The second operand: a register's number, or a literal behind `#`.
fn operand_text(alloc: Global, operand: Opnd) -> Result<String, AllocError> {
    match operand {
        Opnd::R(r) => format!(in alloc; "{}", r.num()),
        Opnd::Lit(n) => format!(in alloc; "#{n}"),
    }
}

/// The kind of an instruction, its operation and its fields, in decimal.
fn fields_text(alloc: Global, i: &Instr) -> Result<String, AllocError> {
    match *i {
        Instr::Mem { op, ra, rb, disp } => {
            format!(in alloc; "Mem {op:?} {} {} {disp}", ra.num(), rb.num())
        }
        Instr::Jump { kind, ra, rb, hint } => {
            format!(in alloc; "Jump {kind:?} {} {} {}", ra.num(), rb.num(), hint.num())
        }
        Instr::Branch { op, ra, disp } => {
            format!(in alloc; "Branch {op:?} {} {}", ra.num(), disp.num())
        }
        Instr::Alu { op, ra, rb, rc } => {
            let operand = operand_text(alloc, rb)?;
            format!(in alloc; "Alu {op:?} {} {operand} {}", ra.num(), rc.num())
        }
        Instr::Cmov { cond, ra, rb, rc } => {
            let operand = operand_text(alloc, rb)?;
            format!(in alloc; "Cmov {cond:?} {} {operand} {}", ra.num(), rc.num())
        }
        Instr::Misc { op, ra, rb } => format!(in alloc; "Misc {op:?} {} {}", ra.num(), rb.num()),
        Instr::Fnop | Instr::Halt | Instr::Callsys => format!(in alloc; "{i:?}"),
    }
}

/// What an instruction reads and writes, where it goes or what it does, and its fields.
fn text_of(alloc: Global, i: &Instr) -> Result<String, AllocError> {
    let fields = fields_text(alloc, i)?;
    if let Some(target) = branch_target(i, PLACE) {
        return format!(in alloc; "{:x} {:x} {target:x} {fields}", reads(i), writes(i));
    }
    if let Instr::Mem { op, .. } = *i {
        return format!(in alloc;
            "{:x} {:x} {:?} {fields}",
            reads(i),
            writes(i),
            access_kind(op)
        );
    }
    format!(in alloc; "{:x} {:x} - {fields}", reads(i), writes(i))
}

/// `word WORD READS WRITES WHERE TEXT`, or `word WORD none`
fn word_agrees(alloc: Global, rest: &str) -> Result<bool, AllocError> {
    let Some((word, fields)) = rest.split_once(' ') else {
        return Ok(false);
    };
    let Some(w) = word_of(word) else {
        return Ok(false);
    };
    let Some(i) = decode(w) else {
        return Ok(fields == "none");
    };
    let text = text_of(alloc, &i)?;
    Ok(encode(&i) == w && text.as_str() == fields)
}

/// Whether what a line says is what the crates give; a line of no form agrees with nothing.
pub fn agrees(alloc: Global, line: &str) -> Result<bool, AllocError> {
    let Some((kind, rest)) = line.split_once(' ') else {
        return Ok(false);
    };
    match kind {
        "alu" => Ok(alu_agrees(rest).unwrap_or(false)),
        "cond" => Ok(cond_agrees(rest).unwrap_or(false)),
        "bound" => Ok(bound_agrees(rest).unwrap_or(false)),
        "word" => word_agrees(alloc, rest),
        _ => Ok(false),
    }
}
