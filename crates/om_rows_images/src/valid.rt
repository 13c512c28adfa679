// Images of words that are typed in.
ghost use Rattle.std.specs.Prelude.{◌≡◌, IfSome, All, IsTrue, true, is_some};
ghost use Rattle.om_isa.specs.Words.{instr_of};
ghost use Rattle.om_image.specs.Valid.{IsValidImage};

use om_image::{Image, Map};
use om_io::{Bytes, Listed};
use om_isa::decode;
use std::alloc::Global;

fn all_decode(text: &[u32]) -> bool
    ensures { IsTrue result → All (λ w. is_some (instr_of w) ≡ true) text.now }
{
    for word in text {
        if decode(*word).is_none() {
            return false;
        }
    }
    true
}

/// The image of these words and these bytes of data, entered at its first word, with an empty map. None where a word is no
/// instruction, there is no word, or there are more than 4096 of either.
pub fn image_of(alloc: Global, text: Vec<u32>, bytes: Vec<u8>) -> Option<Image>
    ensures { IfSome result IsValidImage }
{
    if !all_decode(text.as_slice()) || text.is_empty() || text.len() > 4096 || bytes.len() > 4096 {
        return None;
    }
    Some(Image {
        entry: 0x1_2000_0000,
        gp: 0x1_4000_8000,
        text: Listed::from_vec(text),
        bytes: Bytes::from_vec(bytes),
        bss: 0,
        map: Map {
            objects: Listed::from_vec(Vec::new(alloc)),
            tables: Listed::from_vec(Vec::new(alloc)),
            regions: Listed::from_vec(Vec::new(alloc)),
            words: Listed::from_vec(Vec::new(alloc)),
        },
    })
}
