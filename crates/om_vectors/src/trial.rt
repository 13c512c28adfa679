// The vectors of arithmetic as one image, run by the numeric machine.
ghost use Rattle.std.specs.Prelude.{◌≡◌, IfSome, All, IsTrue, true, is_some};
ghost use Rattle.om_isa.specs.Words.{instr_of};
ghost use Rattle.om_image.specs.Valid.{IsValidImage};

use crate::lines::Computed;
use om_image::{Image, Map};
use om_io::{Bytes, Listed, NoMemory, NullSink, NullSource};
use om_isa::decode;
use om_machine::{Machine, Step};
use std::alloc::{AllocError, Global};

/// The address at which the data begins; r29 holds it at the start.
const DATA: u64 = 0x1_4000_0000;

/// A trial of vectors: for each of them eight words of text and three quadwords of data.
///
/// The text reads the operands from the data into r1 and r2, computes r3, and halts where it is not the result.
#[derive(Drop)]
pub struct Trial {
    text: Vec<u32>,
    data: Vec<u8>,
}

fn all_decode(text: &[u32]) -> bool
    ensures { IsTrue result → All (λ w. is_some (instr_of w) ≡ true) text.now }
{
    for word in text {
        if decode(*word).is_none() {
            return false;
        }
    }
    true
}

// The image of a text and its data, entered at the text's start, with an empty map.
fn image_of(alloc: Global, text: Vec<u32>, data: Vec<u8>) -> Option<Image>
    ensures { IfSome result IsValidImage }
{
    if !all_decode(text.as_slice())
        || text.is_empty()
        || text.len() > 4_194_304
        || data.len() > 67_108_864
    {
        return None;
    }
    Some(Image {
        entry: 0x1_2000_0000,
        gp: DATA,
        text: Listed::from_vec(text),
        bytes: Bytes::from_vec(data),
        bss: 0,
        map: Map {
            objects: Listed::from_vec(Vec::new(alloc)),
            tables: Listed::from_vec(Vec::new(alloc)),
            regions: Listed::from_vec(Vec::new(alloc)),
            words: Listed::from_vec(Vec::new(alloc)),
        },
    })
}

impl Trial {
    /// A trial of no vectors: `bis r31,r29,r9`.
    pub fn new(alloc: Global) -> Result<Self, AllocError> {
        let mut text = Vec::new(alloc);
        text.push(0x47fd_0409)?;
        Ok(Trial {
            text,
            data: Vec::new(alloc),
        })
    }

    fn add_words(&mut self, words: &[u32]) -> Result<(), AllocError> {
        for word in words {
            self.text.push(*word)?;
        }
        Ok(())
    }

    fn add_number(&mut self, n: u64) -> Result<(), AllocError> {
        for byte in n.to_le_bytes() {
            self.data.push(byte)?;
        }
        Ok(())
    }

    /// Adds a vector: an operation of r1, and r2 or a literal, into r3.
    pub fn add(&mut self, vector: Computed) -> Result<(), AllocError> {
        // ldq r1,0(r9), ldq r2,8(r9)
        self.add_words(&[0xa429_0000, 0xa449_0008])?;
        self.add_words(&[vector.word])?;
        // ldq r4,16(r9), cmpeq r3,r4,r5, lda r9,24(r9), bne r5,1, halt
        self.add_words(&[0xa489_0010, 0x4064_05a5, 0x2129_0018, 0xf4a0_0001, 0])?;
        self.add_number(vector.a)?;
        self.add_number(vector.b)?;
        self.add_number(vector.result)?;
        Ok(())
    }

    /// Runs them all: whether each gives its result, by the status of the run's exit.
    pub fn passes(self, alloc: Global, steps: u64) -> Result<bool, NoMemory> {
        let mut text = self.text;
        // lda r16,0(r31), lda r0,1(r31), callsys
        for w in [0x221f_0000, 0x201f_0001, 0x83] {
            text.push(w)?;
        }
        let Some(image) = image_of(alloc, text, self.data) else {
            return Ok(false);
        };
        let mut machine = Machine::load(alloc, &image)?;
        let end = machine.run(steps, &mut NullSource, &mut NullSink, &mut NullSink);
        Ok(end == Step::Exit(0))
    }
}
