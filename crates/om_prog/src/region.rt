// Regions with their initial content.
use crate::item::Field;
use om_io::{Bytes, Listed};
use om_value::Region;

/// A region with its initial content.
#[derive(Drop, Debug)]
pub struct RegionInit {
    /// The region.
    pub region: Region,
    /// Its size in bytes, a multiple of 8.
    pub size: u64,
    /// Whether it is a section without bytes, or a common.
    pub zero: bool,
    /// Its first bytes. What follows them is zero.
    pub bytes: Bytes,
    /// Its fields, in any order; a field hides the bytes under it.
    pub fields: Listed<Field>,
}
