// The rules on external symbols, each as the least place where it is broken: a byte offset in the file. `at` is the offset of
// the symbolic header, 0 where there is none. Offsets in it are those of the ECOFF object format for Alpha.
ghost use Rattle.std.specs.Prelude.{◌≡◌, ◌≢◌, ◌≤◌, ◌<◌, ◌+◌, ◌*◌, length, IfNone, IfOk, false, None};
ghost use Rattle.om_fields.specs.Places.{least};
ghost use Rattle.om_fields.specs.Rules.{first_fault as fault_of};
ghost use Rattle.om_symtab.specs.Symbols.{strings as strings_of, symbol_count, symbols_at, symbols_place as place_of_symbols, symbol_at, is_no_table as no_table, is_unended as unended, rule_7, rule_8, symbol_rules, HasTables};
ghost use Rattle.om_symtab.specs.Zeros.{zero_end as end_of};

use om_fields::{is_past, u16_at, u32_at, u64_at};

// Whether the symbolic header or one of its two tables runs past the end, or it has another magic number.
fn is_no_table(bytes: &[u8], at: u64) -> bool
    requires { at ≢ 0 }
    ensures gives { result ≡ no_table bytes.now at }
    ensures tables { result ≡ false → HasTables bytes.now at }
{
    if is_past(bytes.len(), at, 144) {
        return true;
    }
    let header = at as usize;
    if u16_at(bytes, header) != 0x1992 {
        return true;
    }
    if is_past(
        bytes.len(),
        u64_at(bytes, header + 112),
        u64::from(u32_at(bytes, header + 32)),
    ) {
        return true;
    }
    is_past(
        bytes.len(),
        u64_at(bytes, header + 136),
        24 * u64::from(u32_at(bytes, header + 44)),
    )
}

// Rule 7: the symbolic header or one of its two tables runs past the end, or it has another magic number.
fn table_fault(bytes: &[u8], at: u64) -> Option<u64>
    ensures gives { result ≡ least (rule_7 at bytes.now) }
    ensures tables { IfNone result (HasTables bytes.now at) }
{
    if at == 0 {
        return None;
    }
    if is_no_table(bytes, at) {
        return Some(at);
    }
    None
}

/// How many external symbols there are; none without a symbolic header.
pub fn count(bytes: &[u8], at: u64) -> usize
    requires { HasTables bytes.now at }
    ensures { result ≡ symbol_count bytes.now at }
{
    if at == 0 {
        return 0;
    }
    u32_at(bytes, at as usize + 44) as usize
}

// Where the first symbol stands, in a file that has one.
fn first_symbol(bytes: &[u8], at: u64) -> usize
    requires tables { HasTables bytes.now at }
    requires some { 0 < symbol_count bytes.now at }
    ensures place { result ≡ symbols_at bytes.now at }
    ensures inside { result + 24 * symbol_count bytes.now at ≤ length bytes.now }
{
    u64_at(bytes, at as usize + 136) as usize
}

/// The byte offset of the `j`-th external symbol, of 24 bytes.
pub fn symbol_place(bytes: &[u8], at: u64, j: usize) -> usize
    requires tables { HasTables bytes.now at }
    requires inside { j < symbol_count bytes.now at }
    ensures place { result ≡ symbol_at bytes.now at j }
    ensures inside { result + 24 ≤ length bytes.now }
{
    first_symbol(bytes, at) + 24 * j
}

/// The byte offset of the external symbols in the file; 0 where there is none.
pub fn symbols_place(bytes: &[u8], at: u64) -> u64
    requires { HasTables bytes.now at }
    ensures { result ≡ place_of_symbols bytes.now at }
{
    if count(bytes, at) == 0 {
        return 0;
    }
    first_symbol(bytes, at) as u64
}

/// The external strings: the names' bytes, each name with a zero behind it.
pub fn strings(bytes: &[u8], at: u64) -> &[u8]
    requires tables { HasTables bytes.now at }
    requires some { 0 < symbol_count bytes.now at }
    ensures { result.now ≡ strings_of bytes.now at }
{
    let header = at as usize;
    let size = u32_at(bytes, header + 32) as usize;
    if size == 0 {
        return &bytes[..0];
    }
    let start = u64_at(bytes, header + 112) as usize;
    &bytes[start..][..size]
}

// One more than the offset of the last zero byte; 0 where there is none.
fn zero_end(bytes: &[u8]) -> usize
    ensures { result ≡ end_of bytes.now }
{
    for i in (0..bytes.len()).rev() {
        if bytes[i] == 0 {
            return i + 1;
        }
    }
    0
}

// Whether no zero byte ends a symbol's name, by where the last zero byte ends.
fn is_unended(bytes: &[u8], at: u64, end: usize, j: usize) -> bool
    requires tables { HasTables bytes.now at }
    requires inside { j < symbol_count bytes.now at }
    requires end { end ≡ end_of (strings_of bytes.now at) }
    ensures { result ≡ unended bytes.now at j }
{
    u32_at(bytes, symbol_place(bytes, at, j) + 8) as usize >= end
}

// Rule 8: a name's index is outside the strings, or no zero byte follows in them. The last zero decides for all names.
fn name_fault(bytes: &[u8], at: u64) -> Option<u64>
    requires { HasTables bytes.now at }
    ensures gives { result ≡ least (rule_8 at bytes.now) }
{
    let count = count(bytes, at);
    if count == 0 {
        return None;
    }
    let end = zero_end(strings(bytes, at));
    for j in 0..count {
        if is_unended(bytes, at, end, j) {
            return Some(symbol_place(bytes, at, j) as u64);
        }
    }
    None
}

/// The least broken rule of 7 and 8 with its least place. Where there is none, the symbolic header and its two tables lie in
/// the file.
pub fn first_fault(bytes: &[u8], at: u64) -> Option<(u8, u64)>
    ensures gives { result ≡ fault_of (symbol_rules at) bytes.now }
    ensures tables { IfNone result (HasTables bytes.now at) }
{
    if let Some(at) = table_fault(bytes, at) {
        return Some((7, at));
    }
    if let Some(at) = name_fault(bytes, at) {
        return Some((8, at));
    }
    None
}
