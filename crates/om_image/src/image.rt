// An image.
use crate::map::Map;
use om_io::{Bytes, Listed};

/// An image: the address where it is entered, the GP value there, the words of the text (from 0x1_2000_0000 on), the
/// bytes of the data (from 0x1_4000_0000 on), how many bytes of zero follow these, and the map.
#[derive(Drop, Debug)]
pub struct Image {
    pub entry: u64,
    pub gp: u64,
    pub text: Listed<u32>,
    pub bytes: Bytes,
    pub bss: u64,
    pub map: Map,
}
