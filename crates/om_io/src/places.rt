// Where the files stand that were saved.

/// The name stands from `name_at` to `bytes_at`, and the bytes from there to `end`.
#[derive(Clone, Copy, Debug)]
pub struct Place {
    /// Where the name begins, in bytes from the first of all names and files.
    pub name_at: usize,
    /// Where the name ends and the file begins.
    pub bytes_at: usize,
    /// Where the file ends.
    pub end: usize,
}
