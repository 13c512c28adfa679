// Places, regions, targets, values, roles and words of rows.
use om_isa::{Instr, Opnd, decode};
use om_prog::{Field, Item, Role};
use om_rows::number;
use om_value::{Place, Region, Target, Value};

/// A number below 2^32, in decimal digits.
pub fn small(text: &str) -> Option<u32> {
    text.parse::<u32>().ok()
}

/// `OBJECT.OFFSET`
pub fn place(text: &str) -> Option<Place> {
    let (obj, off) = text.split_once('.')?;
    Some(Place {
        obj: small(obj)?,
        off: small(off)?,
    })
}

/// `secOBJECT.NUMBER`, `comNAME`, `stack` or `heap`
pub fn region(text: &str) -> Option<Region> {
    if text == "stack" {
        return Some(Region::Stack);
    }
    if text == "heap" {
        return Some(Region::Heap);
    }
    if let Some(sym) = text.strip_prefix("com") {
        return Some(Region::Common { sym: small(sym)? });
    }
    let (obj, number) = text.strip_prefix("sec")?.split_once('.')?;
    Some(Region::Sec {
        obj: small(obj)?,
        number: number.parse::<u8>().ok()?,
    })
}

/// `NUMBER`, `REGION+OFFSET` or `@PLACE`
pub fn target(text: &str) -> Option<Target> {
    if let Some(at) = text.strip_prefix('@') {
        return Some(Target::Code(place(at)?));
    }
    let Some((named, off)) = text.split_once('+') else {
        return Some(Target::Num(number(text)?));
    };
    Some(Target::Ptr {
        region: region(named)?,
        off: number(off)?,
    })
}

fn value_of(target: Target) -> Value {
    match target {
        Target::Num(n) => Value::Num(n),
        Target::Ptr { region, off } => Value::Ptr { region, off },
        Target::Code(at) => Value::Code(at),
    }
}

/// A target's value, `gpOBJECT`, `halfPLACE` or `fromOBJECT:TARGET`
pub fn value(text: &str) -> Option<Value> {
    if let Some(obj) = text.strip_prefix("gp") {
        return Some(Value::Gp(small(obj)?));
    }
    if let Some(at) = text.strip_prefix("half") {
        return Some(Value::Half(place(at)?));
    }
    let Some(rest) = text.strip_prefix("from") else {
        return Some(value_of(target(text)?));
    };
    let (obj, to) = rest.split_once(':')?;
    Some(Value::GpOff {
        obj: small(obj)?,
        target: target(to)?,
    })
}

/// `lit:TARGET`, `hi:PLACE`, `lo:PLACE` or `to:PLACE`
fn role(text: &str) -> Option<Role> {
    let (kind, rest) = text.split_once(':')?;
    match kind {
        "lit" => Some(Role::Lit(target(rest)?)),
        "hi" => Some(Role::GpHi { base: place(rest)? }),
        "lo" => Some(Role::GpLo { hi: place(rest)? }),
        "to" => Some(Role::To(place(rest)?)),
        _ => None,
    }
}

/// Eight hexadecimal digits.
pub fn code(text: &str) -> Option<u32> {
    if text.len() != 8 {
        return None;
    }
    u32::from_str_radix(text, 16).ok()
}

/// The instruction of a word, or HALT where it has none.
fn instr_of(word: u32) -> Instr {
    // Names the type of an operand, which the check of this function must be told.
    let _operand: Option<Opnd> = None;
    decode(word).unwrap_or(Instr::Halt)
}

/// `HEX` or `HEX/HEX`, either with `=ROLE`
pub fn item(text: &str) -> Option<Item> {
    let (words, said) = text.split_once('=').unwrap_or((text, ""));
    let (word, other) = words.split_once('/').unwrap_or((words, words));
    let role = if said.is_empty() {
        Role::Plain
    } else {
        role(said)?
    };
    Some(Item {
        word: code(word)?,
        instr: instr_of(code(other)?),
        role,
    })
}

/// `OFFSET/WIDTH=VALUE`
pub fn field(text: &str) -> Option<Field> {
    let (at, said) = text.split_once('=')?;
    let (off, width) = at.split_once('/')?;
    Some(Field {
        off: number(off)?,
        width: width.parse::<u8>().ok()?,
        value: value(said)?,
    })
}
