// Places, regions, targets, values and words as rows have them.
use om_isa::{Instr, Opnd, encode};
use om_prog::{Field, Item, Program, RegionInit, Role};
use om_rows::text_of;
use om_value::{Place, Region, Target, Value};
use std::alloc::{AllocError, Global};

pub fn place(alloc: Global, at: Place) -> Result<String, AllocError> {
    format!(in alloc; "{}.{}", at.obj, at.off)
}

fn region(alloc: Global, named: Region) -> Result<String, AllocError> {
    match named {
        Region::Sec { obj, number } => format!(in alloc; "sec{obj}.{number}"),
        Region::Common { sym } => format!(in alloc; "com{sym}"),
        Region::Stack => String::from_str(alloc, "stack"),
        Region::Heap => String::from_str(alloc, "heap"),
    }
}

fn pointer(alloc: Global, named: Region, off: u64) -> Result<String, AllocError> {
    let mut text = region(alloc, named)?;
    let at = format!(in alloc; "+{off}")?;
    text.push_str(at.as_str())?;
    Ok(text)
}

pub fn target(alloc: Global, to: Target) -> Result<String, AllocError> {
    match to {
        Target::Num(n) => format!(in alloc; "{n}"),
        Target::Ptr { region, off } => pointer(alloc, region, off),
        Target::Code(at) => format!(in alloc; "@{}.{}", at.obj, at.off),
    }
}

pub fn value(alloc: Global, held: Value) -> Result<String, AllocError> {
    match held {
        Value::Num(n) => format!(in alloc; "{n}"),
        Value::Ptr { region, off } => pointer(alloc, region, off),
        Value::Code(at) => format!(in alloc; "@{}.{}", at.obj, at.off),
        Value::Gp(obj) => format!(in alloc; "gp{obj}"),
        Value::Half(at) => format!(in alloc; "half{}.{}", at.obj, at.off),
        Value::GpOff { obj, target: to } => {
            let to = target(alloc, to)?;
            format!(in alloc; "from{obj}:{to}")
        }
    }
}

pub fn role(alloc: Global, held: Role) -> Result<String, AllocError> {
    match held {
        Role::Plain => Ok(String::new(alloc)),
        Role::Lit(to) => {
            let to = target(alloc, to)?;
            format!(in alloc; "=lit:{to}")
        }
        Role::GpHi { base } => format!(in alloc; "=hi:{}.{}", base.obj, base.off),
        Role::GpLo { hi } => format!(in alloc; "=lo:{}.{}", hi.obj, hi.off),
        Role::To(at) => format!(in alloc; "=to:{}.{}", at.obj, at.off),
    }
}

/// A word with its role, and with its instruction's word where that is another.
pub fn item(alloc: Global, said: Item) -> Result<String, AllocError> {
    let stands = role(alloc, said.role)?;
    let other = encode(&said.instr);
    if other == said.word {
        format!(in alloc; "{:08x}{stands}", said.word)
    } else {
        format!(in alloc; "{:08x}/{other:08x}{stands}", said.word)
    }
}

fn push_words(
    alloc: Global,
    text: &mut String,
    program: &Program,
    obj: u32,
) -> Result<(), AllocError> {
    for k in 0..program.words(obj) {
        let off = k.wrapping_mul(4);
        if let Some(held) = program.item(Place { obj, off }) {
            text.push_str(" ")?;
            text.push_str(item(alloc, held)?.as_str())?;
        }
    }
    Ok(())
}

fn field(alloc: Global, held: Field) -> Result<String, AllocError> {
    let said = value(alloc, held.value)?;
    format!(in alloc; " {}/{}={said}", held.off, held.width)
}

fn push_region(alloc: Global, text: &mut String, init: &RegionInit) -> Result<(), AllocError> {
    let kind = if init.zero { "zero" } else { "region" };
    let named = region(alloc, init.region)?;
    let bytes = text_of(alloc, init.bytes.as_slice())?;
    let front = format!(in alloc; "{kind} {named} {} {bytes}", init.size)?;
    text.push_str(front.as_str())?;
    for held in init.fields.as_slice() {
        text.push_str(field(alloc, *held)?.as_str())?;
    }
    text.push_str(" ; ")
}

/// All that a program tells.
pub fn program(alloc: Global, told: &Program) -> Result<String, AllocError> {
    let mut text = String::new(alloc);
    for obj in 0..told.objects() {
        text.push_str("text")?;
        push_words(alloc, &mut text, told, obj)?;
        text.push_str(" ; ")?;
    }
    for init in told.regions() {
        push_region(alloc, &mut text, init)?;
    }
    let entry = format!(in alloc; "entry {}.{}", told.entry().obj, told.entry().off)?;
    text.push_str(entry.as_str())?;
    Ok(text)
}
