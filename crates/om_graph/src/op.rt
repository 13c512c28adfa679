// The parts of a block.
use om_isa::{BrOp, Instr, Reg};
use om_value::{Place, Target};

/// What a word of a block does. `Plain`, `UseLo` and `UseGp` hold no branch and no jump: those end a block and are its
/// `Last`.
#[derive(Clone, Copy, PartialEq, Eq, Debug)]
pub enum OpKind {
    /// Its instruction.
    Plain(Instr),
    /// A load of an address from its slot: over the object's global pointer in `rb` it gives the target in `ra`.
    Lit {
        /// The register that it writes.
        ra: Reg,
        /// The register that holds the global pointer.
        rb: Reg,
        /// What it loads the address of.
        target: Target,
    },
    /// Such a load that became LDA. Where the target is a number, `rb` is r31 and nothing is needed there.
    AddrLda {
        /// The register that it writes.
        ra: Reg,
        /// The register that holds the global pointer.
        rb: Reg,
        /// What it gives the address of.
        target: Target,
    },
    /// Such a load that became LDAH: it gives the high half of the address, to which its uses add the rest.
    AddrHi {
        /// The register that it writes.
        ra: Reg,
        /// The register that holds the global pointer.
        rb: Reg,
        /// What it gives the high half of the address of.
        target: Target,
        /// The least displacement among its uses, by which the half is chosen.
        least: i16,
    },
    /// A load or store over the half that the `AddrHi` at `hi` gives, in the same block.
    UseLo {
        /// The instruction, with the displacement that it has over the whole address.
        instr: Instr,
        /// The place of the `AddrHi`.
        hi: Place,
    },
    /// A load or store over the global pointer itself.
    UseGp {
        /// The instruction, with the displacement that it has over the whole address.
        instr: Instr,
        /// The register that holds the global pointer.
        gp: Reg,
        /// What its base register would hold the address of.
        target: Target,
    },
    /// The LDAH of a pair that sets the global pointer: over the base place in `rb` it gives a half.
    GpHi {
        /// The register that it writes.
        ra: Reg,
        /// The register that holds the base place.
        rb: Reg,
        /// The base place.
        base: Place,
    },
    /// The LDA of such a pair: over the half of the LDAH at `hi` it gives the object's global pointer.
    GpLo {
        /// The register that it writes.
        ra: Reg,
        /// The register that holds the half.
        rb: Reg,
        /// The place of the LDAH.
        hi: Place,
    },
}

/// A word of a block.
#[derive(Clone, Copy, PartialEq, Eq, Debug)]
pub struct Op {
    /// Where it stands in the program.
    pub place: Place,
    /// What it does.
    pub kind: OpKind,
}

/// How a block ends. A branch or a jump is a word at the place `at`.
#[derive(Clone, Copy, PartialEq, Eq, Debug)]
pub enum Last {
    /// Control falls into the next block.
    Fall,
    /// The text of the object ends here.
    Off,
    /// A branch without a link: BR or BSR of r31.
    Br {
        /// Its place.
        at: Place,
        /// Br or Bsr.
        op: BrOp,
        /// Its register, r31.
        ra: Reg,
        /// Where it goes.
        to: Place,
    },
    /// A conditional branch; where it is not taken control falls into the next block.
    Cond {
        /// Its place.
        at: Place,
        /// The branch. Its displacement has no meaning here.
        instr: Instr,
        /// Where it goes when it is taken.
        to: Place,
    },
    /// A branch that writes a link register: BSR or BR of another register than r31.
    Call {
        /// Its place.
        at: Place,
        /// Br or Bsr.
        op: BrOp,
        /// The link register.
        ra: Reg,
        /// Where it goes.
        to: Place,
    },
    /// A jump that writes a link register.
    CallBy {
        /// Its place.
        at: Place,
        /// The jump.
        instr: Instr,
    },
    /// A jump that writes none.
    JumpBy {
        /// Its place.
        at: Place,
        /// The jump.
        instr: Instr,
    },
}
