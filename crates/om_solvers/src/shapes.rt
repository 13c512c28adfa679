// Programs by formulas. Word k of a program has a form that k and the shape give.
use om_io::{Bytes, Listed, NoMemory};
use om_isa::{Instr, decode};
use om_prog::{Item, Program, RegionInit, Role};
use om_value::{Place, Region, Target};
use std::alloc::Global;

const DATA: Region = Region::Sec { obj: 0, number: 3 };

pub(crate) const OBJECTS: u32 = 16;

const ADD: u32 = 0x4123_0409;

const BRANCH: u32 = 0xc3e0_0000;

const SET_GP: u32 = 0x27ba_0000;

#[derive(Clone, Copy, PartialEq, Eq)]
pub(crate) enum Shape {
    /// Blocks of two words: an addition, and a branch with a condition to the next block.
    Pairs,
    /// One block.
    One,
    /// Sixteen objects of loops of sixteen words: calls, pairs, loads, branches, jumps by registers. The words are a
    /// multiple of 256.
    Mixed,
    /// Blocks of two words, each of which branches to the one before, down to the second, which goes to itself; the first
    /// branches to the last. A block halfway writes r29.
    Chain,
}

/// A target of a load of an address.
pub(crate) fn data(n: u32) -> Target {
    Target::Ptr {
        region: DATA,
        off: u64::from(n & 7) << 3,
    }
}

/// Where an object begins.
pub(crate) fn start(n: u32) -> Place {
    Place {
        obj: n % OBJECTS,
        off: 0,
    }
}

fn at(obj: u32, k: u32) -> Place {
    Place {
        obj,
        off: k.wrapping_mul(4),
    }
}

// A word of the mixed shape, and what it stands for.
fn mixed(obj: u32, k: u32) -> (u32, Role) {
    let next = start(obj.wrapping_add(1));
    let behind = at(obj, k.wrapping_add(1));
    let hi = at(obj, k.wrapping_sub(1));
    match k & 15 {
        0 => (0xa77d_0000, Role::Lit(Target::Code(next))),
        1 => (0x6b5b_4000, Role::Plain),
        2 | 11 => (0x27ba_0000, Role::GpHi { base: at(obj, k) }),
        3 | 12 => (0x23bd_0000, Role::GpLo { hi }),
        4 | 13 => (0xa43d_0000, Role::Lit(data(k >> 4))),
        6 => (0xa461_0000, Role::Plain),
        7 => (0x2021_0008, Role::Plain),
        8 => (0xf480_0000, Role::To(at(obj, k.wrapping_sub(4)))),
        10 => (0xd340_0000, Role::To(next)),
        14 if k & 16 == 0 => (BRANCH, Role::To(at(obj, k & 0xffff_fff0))),
        14 => (0xf480_0000, Role::To(behind)),
        15 => (0x6bfa_8000, Role::Plain),
        _ => (ADD, Role::Plain),
    }
}

fn word(shape: Shape, words: u32, obj: u32, k: u32) -> (u32, Role) {
    let ends = k & 1 == 1;
    match shape {
        Shape::Pairs if ends && k != words.wrapping_sub(1) => {
            (0xf480_0000, Role::To(at(obj, k.wrapping_add(1))))
        }
        Shape::Chain if k == 1 => (
            BRANCH,
            Role::To(at(obj, words.wrapping_sub(2) & 0xffff_fffe)),
        ),
        Shape::Chain if k == 3 => (BRANCH, Role::To(at(obj, 2))),
        Shape::Chain if ends => (BRANCH, Role::To(at(obj, k.wrapping_sub(3)))),
        Shape::Chain if k == words / 4 * 2 => (SET_GP, Role::Plain),
        Shape::Mixed => mixed(obj, k),
        _ => (ADD, Role::Plain),
    }
}

fn text(alloc: Global, shape: Shape, words: u32, obj: u32) -> Result<Vec<Item>, NoMemory> {
    let mut items = Vec::new(alloc);
    for k in 0..words {
        let (word, role) = word(shape, words, obj, k);
        items.push(Item {
            word,
            instr: decode(word).unwrap_or(Instr::Halt),
            role,
        })?;
    }
    Ok(items)
}

/// A program of a shape and so many words.
pub(crate) fn program(
    alloc: Global,
    shape: Shape,
    words: u32,
) -> Result<Option<Program>, NoMemory> {
    let objects = if shape == Shape::Mixed { OBJECTS } else { 1 };
    let mut texts = Vec::new(alloc);
    for obj in 0..objects {
        texts.push(text(alloc, shape, words / objects, obj)?)?;
    }
    let mut regions = Vec::new(alloc);
    regions.push(RegionInit {
        region: DATA,
        size: 64,
        zero: true,
        bytes: Bytes::from_vec(Vec::new(alloc)),
        fields: Listed::from_vec(Vec::new(alloc)),
    })?;
    Ok(Program::make(alloc, texts, regions, start(0)).ok())
}
