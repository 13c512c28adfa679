// Numbers put at the end of what is written.
ghost use Rattle.std.specs.Prelude.{◌≡◌, OnOk, OnErr};
ghost use Rattle.byteorder.specs.Endian.{little_bytes};
ghost use Rattle.om_fields.specs.Bytes.{Grows, KeepsFront, zeros, word_bytes};

use om_io::NoMemory;

/// Appends a number as two bytes, the low byte first. After `NoMemory` nothing was appended.
pub fn push_u16(out: &mut Vec<u8>, n: u16) -> Result<(), NoMemory>
    ensures ok { OnOk result (Grows out.old.items out.new.items (little_bytes 2 n)) }
    ensures err { OnErr result (out.new.items ≡ out.old.items) }
{
    out.extend_from_slice(&n.to_le_bytes())?;
    Ok(())
}

/// Appends a number as four bytes, the low byte first. After `NoMemory` nothing was appended.
pub fn push_u32(out: &mut Vec<u8>, n: u32) -> Result<(), NoMemory>
    ensures ok { OnOk result (Grows out.old.items out.new.items (little_bytes 4 n)) }
    ensures err { OnErr result (out.new.items ≡ out.old.items) }
{
    out.extend_from_slice(&n.to_le_bytes())?;
    Ok(())
}

/// Appends a number as eight bytes, the low byte first. After `NoMemory` nothing was appended.
pub fn push_u64(out: &mut Vec<u8>, n: u64) -> Result<(), NoMemory>
    ensures ok { OnOk result (Grows out.old.items out.new.items (little_bytes 8 n)) }
    ensures err { OnErr result (out.new.items ≡ out.old.items) }
{
    out.extend_from_slice(&n.to_le_bytes())?;
    Ok(())
}

/// Appends `n` bytes of zero. After `NoMemory` some of them may have been appended.
#[tactic(auto, using(crate::proofs::Appending::grown_unchanged))]
pub fn push_zeros(out: &mut Vec<u8>, n: usize) -> Result<(), NoMemory>
    ensures ok { OnOk result (Grows out.old.items out.new.items (zeros n)) }
    ensures err { OnErr result (KeepsFront out.old.items out.new.items) }
{
    for _ in 0..n {
        out.push(0)?;
    }
    Ok(())
}

/// Appends words, each as a number of four bytes. After `NoMemory` some of them may have been appended.
#[tactic(auto, using(crate::proofs::Appending::grown_unchanged))]
pub fn push_words(out: &mut Vec<u8>, words: &[u32]) -> Result<(), NoMemory>
    ensures ok { OnOk result (Grows out.old.items out.new.items (word_bytes words.now)) }
    ensures err { OnErr result (KeepsFront out.old.items out.new.items) }
{
    for word in words {
        push_u32(out, *word)?;
    }
    Ok(())
}
