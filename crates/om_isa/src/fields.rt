// The fields of a word that have bounds.
ghost use Rattle.std.specs.Prelude.{◌≡◌, ◌<◌, ◌^◌, SomeIff};
ghost use Rattle.om_isa.specs.Fields.{IsDisp, field, disp_of, disp_bits};

use std::marker::Model;

/// The number of an integer register, 0 to 31; r31 reads as zero, and what is written to it is lost
/// (Alpha Architecture Handbook, chapter 3, "Registers").
#[derive(Clone, Copy, PartialEq, Eq, Debug)]
pub struct Reg {
    number: u8,
}

impl Model for Reg {
    ghost use Rattle.std.specs.Prelude.{ℕ, ◌<◌};

    ghost Value = { ℕ };

    ghost view = { λ r. r.number };

    ghost invariant = { λ r. r.number < 32 };

    ghost inverse = { λ n. record { number = n } };
}

impl Reg {
    /// The register of a number, or `None` exactly from 32 on.
    pub fn new(n: u8) -> Option<Reg>
        ensures { SomeIff result (n < 32) n }
    {
        if n < 32 {
            Some(Reg { number: n })
        } else {
            None
        }
    }

    /// The five bits of a word from `low` on.
    pub(crate) fn at(w: u32, low: u32) -> Reg
        requires { low < 32 }
        ensures { result ≡ field w low 5 }
    {
        Reg {
            number: ((w >> low) % 32) as u8,
        }
    }

    /// Its number, 0 to 31.
    pub fn num(&self) -> u8
        ensures value { result ≡ self.now }
        ensures range { self.now < 32 }
    {
        self.number
    }
}

/// The hint of a jump, 14 bits that have no effect (Alpha Architecture Handbook, chapter 4, "Jump").
#[derive(Clone, Copy, PartialEq, Eq, Debug)]
pub struct Hint {
    number: u16,
}

impl Model for Hint {
    ghost use Rattle.std.specs.Prelude.{ℕ, ◌<◌};

    ghost Value = { ℕ };

    ghost view = { λ h. h.number };

    ghost invariant = { λ h. h.number < 16384 };

    ghost inverse = { λ n. record { number = n } };
}

impl Hint {
    /// The hint of a number, or `None` exactly from 16384 on.
    pub fn new(n: u16) -> Option<Hint>
        ensures { SomeIff result (n < 16384) n }
    {
        if n < 16384 {
            Some(Hint { number: n })
        } else {
            None
        }
    }

    /// The low 14 bits of a word.
    pub(crate) fn at(w: u32) -> Hint
        ensures { result ≡ field w 0 14 }
    {
        Hint {
            number: (w % 16384) as u16,
        }
    }

    /// Its number, 0 to 16383.
    pub fn num(&self) -> u16
        ensures value { result ≡ self.now }
        ensures range { self.now < 16384 }
    {
        self.number
    }
}

/// The displacement of a branch, a signed number of 21 bits, in instructions of four bytes
/// (Alpha Architecture Handbook, chapter 3, "Branch Instruction Format").
#[derive(Clone, Copy, PartialEq, Eq, Debug)]
pub struct Disp {
    number: i32,
}

impl Model for Disp {
    ghost use Rattle.std.specs.Prelude.{ℤ};
    ghost use Rattle.om_isa.specs.Fields.{IsDisp};

    ghost Value = { ℤ };

    ghost view = { λ d. d.number };

    ghost invariant = { λ d. IsDisp d.number };

    ghost inverse = { λ z. record { number = z } };
}

impl Disp {
    /// The displacement of a number, or `None` exactly outside -1048576..=1048575.
    pub fn new(n: i32) -> Option<Disp>
        ensures { SomeIff result (IsDisp n) n }
    {
        if -1_048_576 <= n && n <= 1_048_575 {
            Some(Disp { number: n })
        } else {
            None
        }
    }

    /// The low 21 bits of a word, as a signed number.
    pub(crate) fn at(w: u32) -> Disp
        ensures { result ≡ disp_of (field w 0 21) }
    {
        let low = (w % 0x20_0000) as i32;
        Disp {
            number: if low < 0x10_0000 {
                low
            } else {
                low - 0x20_0000
            },
        }
    }

    /// Those 21 bits.
    pub(crate) fn bits(self) -> u32
        ensures value { result ≡ disp_bits self }
        ensures range { result < 2 ^ 21 }
    {
        let n = self.number;
        if n < 0 {
            (n + 0x20_0000) as u32
        } else {
            n as u32
        }
    }

    /// Its number, -1048576 to 1048575.
    pub fn num(&self) -> i32
        ensures value { result ≡ self.now }
        ensures range { IsDisp self.now }
    {
        self.number
    }
}
