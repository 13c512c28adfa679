// One row: `KIND INPUT => WANTED`.

/// A row of a kind: what is tried, and the answer that is wanted.
///
/// In a line the kind stands first, the input behind one blank, and the answer behind `=> `. Input and answer may be empty.
#[derive(Clone, Copy)]
pub struct Row<'a> {
    pub kind: &'a str,
    pub input: &'a str,
    pub wanted: &'a str,
}

impl<'a> Row<'a> {
    /// The row that a line says. None where the line has no `=>`.
    pub fn of(line: &'a str) -> Option<Row<'a>> {
        let (front, wanted) = line.split_once("=>")?;
        let front = front.trim_end();
        let (kind, input) = word(front);
        Some(Row {
            kind,
            input,
            wanted: wanted.trim(),
        })
    }
}

/// Whether a line is no row: it is empty, or a remark behind `#`.
pub fn is_remark(line: &str) -> bool {
    line.is_empty() || line.starts_with('#')
}

/// The first word of a text and what stands behind the blank after it.
pub fn word(text: &str) -> (&str, &str) {
    text.split_once(' ').unwrap_or((text, ""))
}

/// A number in decimal digits, or in hexadecimal ones behind `0x`.
pub fn number(text: &str) -> Option<u64> {
    match text.strip_prefix("0x") {
        Some(digits) => u64::from_str_radix(digits, 16).ok(),
        None => text.parse().ok(),
    }
}
