// Lines on the error stream, put piece by piece.
ghost use Rattle.std.specs.Prelude.{◌≡◌};
ghost use Rattle.om_command.specs.Telling.{Adds, text_of, texts_of};

use om_io::{Failed, Sink, put_dec, put_hex};

/// A piece of a line.
#[derive(Clone, Copy)]
pub enum Piece<'a> {
    /// These bytes.
    Text(&'a [u8]),
    /// A number in decimal digits.
    Number(u64),
    /// A total in decimal digits.
    Total(u128),
    /// An address in 16 hexadecimal digits.
    Address(u64),
    /// An offset in 8 hexadecimal digits.
    Offset(u32),
}

fn put_piece<E: Sink>(err: &mut E, piece: Piece) -> Result<(), Failed>
    ensures { Adds (text_of piece.entry) (E.written err.old) (E.faults err.old) (E.written err.new) (E.faults err.new) result }
{
    match piece {
        Piece::Text(text) => err.put(text),
        Piece::Number(n) => put_dec(err, u128::from(n)),
        Piece::Total(n) => put_dec(err, n),
        Piece::Address(n) => put_hex(err, n, 16),
        Piece::Offset(n) => put_hex(err, u64::from(n), 8),
    }
}

/// Puts a line.
pub(crate) fn put_line<E: Sink>(err: &mut E, line: &[Piece]) -> Result<(), Failed>
    ensures { Adds (texts_of line.now) (E.written err.old) (E.faults err.old) (E.written err.new) (E.faults err.new) result }
{
    for piece in line {
        match put_piece(err, *piece) {
            Ok(()) => {}
            Err(Failed) => return Err(Failed),
        }
    }
    Ok(())
}
