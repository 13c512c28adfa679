// Why the files of a command are no program, and the lines that say it.
ghost use Rattle.std.specs.Prelude.{◌≡◌, ◌++◌, codes, decimal};
ghost use Rattle.om_io.specs.Digits.{hex};
ghost use Rattle.om_resolve.specs.declared.causes.ResolveErr.{ResolveErr as AnyResolveErr};
ghost use Rattle.om_words.specs.Sentences.{texts};
ghost use Rattle.om_command.specs.Loading.{item_at};
ghost use Rattle.om_command.specs.NoPrograms.{which_name, rule_line, file_status, file_line, resolve_status, resolve_line, no_program_status, no_program_line, duplicate_line, unresolved_line, limit_line, far_line, reach_line, sign};
ghost use Rattle.om_command.specs.Telling.{Adds, IsTold};

use crate::lines::{Piece, put_line};
use crate::loading::{FileStop, Refused};
use om_io::{Failed, Sink};
use om_resolve::{ResolveErr, Which};
use om_value::Place;

/// Why the files of a command are no program.
#[derive(Drop, Debug)]
pub enum NoProgram {
    /// A file gives no object.
    File(Refused),
    /// The objects are no program.
    Objects(ResolveErr),
}

// The word that names a file, by its number from 0 on.
fn name_at(names: &[String], k: usize) -> &[u8]
    ensures { result.now ≡ item_at (texts names.now) k }
{
    match names.get(k) {
        Some(name) => name.as_bytes(),
        None => b"",
    }
}

/// What a limit is of, in a line.
fn name_of_which(which: Which) -> &'static [u8]
    ensures { result.now ≡ which_name which }
{
    match which {
        Which::Objects => b"objects",
        Which::Text => b"text",
        Which::ObjText => b"objtext",
        Which::Data => b"data",
        Which::Symbols => b"symbols",
    }
}

fn put_rule<E: Sink>(err: &mut E, file: &[u8], rule: u8, at: u64) -> Result<(), Failed>
    ensures { Adds (rule_line file.now rule at)
        (E.written err.old) (E.faults err.old) (E.written err.new) (E.faults err.new) result }
{
    put_line(
        err,
        &[
            Piece::Text(b"object "),
            Piece::Text(file),
            Piece::Text(b" rule "),
            Piece::Number(u64::from(rule)),
            Piece::Text(b" at "),
            Piece::Number(at),
            Piece::Text(b"\n"),
        ],
    )
}

// A line that ends in the name of a file.
fn put_named<'x, E: Sink>(err: &mut E, what: &'x [u8], file: &'x [u8]) -> Result<(), Failed>
    ensures { Adds (what.now ++ file.now ++ codes "\n")
        (E.written err.old) (E.faults err.old) (E.written err.new) (E.faults err.new) result }
{
    put_line(
        err,
        &[Piece::Text(what), Piece::Text(file), Piece::Text(b"\n")],
    )
}

fn put_file<E: Sink>(err: &mut E, file: &[u8], stop: FileStop) -> Result<(), Failed>
    ensures { Adds (file_line file.now stop)
        (E.written err.old) (E.faults err.old) (E.written err.new) (E.faults err.new) result }
{
    match stop {
        FileStop::Missing => put_named(err, b"missing ", file),
        FileStop::TooLong => put_named(err, b"limit bytes ", file),
        FileStop::Rule { rule, at } => put_rule(err, file, rule, at),
        FileStop::ReadFault => put_line(err, &[Piece::Text(b"read fault\n")]),
        FileStop::NoMemory => put_line(err, &[Piece::Text(b"no memory\n")]),
    }
}

fn put_duplicate<'x, E: Sink>(
    err: &mut E,
    name: &'x [u8],
    first: &'x [u8],
    second: &'x [u8],
) -> Result<(), Failed>
    ensures { Adds (duplicate_line name.now first.now second.now)
        (E.written err.old) (E.faults err.old) (E.written err.new) (E.faults err.new) result }
{
    put_line(
        err,
        &[
            Piece::Text(b"duplicate "),
            Piece::Text(name),
            Piece::Text(b" "),
            Piece::Text(first),
            Piece::Text(b" "),
            Piece::Text(second),
            Piece::Text(b"\n"),
        ],
    )
}

fn put_unresolved<'x, E: Sink>(err: &mut E, name: &'x [u8], file: &'x [u8]) -> Result<(), Failed>
    ensures { Adds (unresolved_line name.now file.now)
        (E.written err.old) (E.faults err.old) (E.written err.new) (E.faults err.new) result }
{
    put_line(
        err,
        &[
            Piece::Text(b"unresolved "),
            Piece::Text(name),
            Piece::Text(b" "),
            Piece::Text(file),
            Piece::Text(b"\n"),
        ],
    )
}

fn put_limit<E: Sink>(err: &mut E, which: Which, total: u128) -> Result<(), Failed>
    ensures { Adds (limit_line which total)
        (E.written err.old) (E.faults err.old) (E.written err.new) (E.faults err.new) result }
{
    put_line(
        err,
        &[
            Piece::Text(b"limit "),
            Piece::Text(name_of_which(which)),
            Piece::Text(b" "),
            Piece::Total(total),
            Piece::Text(b"\n"),
        ],
    )
}

// The sign of a number, where it has one.
fn sign_of(n: i64) -> &'static [u8]
    ensures { result.now ≡ sign n }
{
    if n < 0 { b"-" } else { b"" }
}

fn put_far<'x, E: Sink>(
    err: &mut E,
    file: &'x [u8],
    off: u32,
    sign: &'x [u8],
    size: u64,
) -> Result<(), Failed>
    ensures { Adds (far_line file.now off sign.now size)
        (E.written err.old) (E.faults err.old) (E.written err.new) (E.faults err.new) result }
{
    put_line(
        err,
        &[
            Piece::Text(b"limit reach "),
            Piece::Text(file),
            Piece::Text(b" "),
            Piece::Offset(off),
            Piece::Text(b" "),
            Piece::Text(sign),
            Piece::Number(size),
            Piece::Text(b"\n"),
        ],
    )
}

fn put_reach<E: Sink>(err: &mut E, file: &[u8], off: u32, words: i64) -> Result<(), Failed>
    ensures { Adds (reach_line file.now off words)
        (E.written err.old) (E.faults err.old) (E.written err.new) (E.faults err.new) result }
{
    put_far(err, file, off, sign_of(words), words.unsigned_abs())
}

fn put_objects<E: Sink>(err: &mut E, names: &[String], cause: &ResolveErr) -> Result<(), Failed>
    ensures { Adds (resolve_line (texts names.now) cause.now)
        (E.written err.old) (E.faults err.old) (E.written err.new) (E.faults err.new) result }
{
    match cause {
        ResolveErr::Duplicate {
            name,
            first,
            second,
        } => put_duplicate(
            err,
            name.as_slice(),
            name_at(names, *first as usize),
            name_at(names, *second as usize),
        ),
        ResolveErr::Unresolved { name, file } => {
            put_unresolved(err, name.as_slice(), name_at(names, *file as usize))
        }
        ResolveErr::Rule { file, rule, at } => {
            put_rule(err, name_at(names, *file as usize), *rule, *at)
        }
        ResolveErr::Limit { which, total } => put_limit(err, *which, *total),
        ResolveErr::TooFar { from, words } => {
            put_reach(err, name_at(names, from.obj as usize), from.off, *words)
        }
        ResolveErr::NoMemory => put_line(err, &[Piece::Text(b"no memory\n")]),
    }
}

/// Puts the line that says why the files of these names are no program.
pub(crate) fn put_no_program<E: Sink>(
    err: &mut E,
    names: &[String],
    cause: &NoProgram,
) -> Result<(), Failed>
    ensures { Adds (no_program_line (texts names.now) cause.now)
        (E.written err.old) (E.faults err.old) (E.written err.new) (E.faults err.new) result }
{
    match cause {
        NoProgram::File(refused) => put_file(err, name_at(names, refused.place), refused.stop),
        NoProgram::Objects(cause) => put_objects(err, names, cause),
    }
}

fn status_of_file(stop: FileStop) -> u8
    ensures { result ≡ file_status stop }
{
    match stop {
        FileStop::Missing | FileStop::TooLong | FileStop::Rule { rule: _, at: _ } => 3,
        FileStop::ReadFault => 6,
        FileStop::NoMemory => 8,
    }
}

fn status_of_objects(cause: &ResolveErr) -> u8
    ensures { result ≡ resolve_status cause.now }
{
    match cause {
        ResolveErr::NoMemory => 8,
        _ => 3,
    }
}

/// The status of a command whose files are no program.
pub(crate) fn status_of_no_program(cause: &NoProgram) -> u8
    ensures { result ≡ no_program_status cause.now }
{
    match cause {
        NoProgram::File(refused) => status_of_file(refused.stop),
        NoProgram::Objects(cause) => status_of_objects(cause),
    }
}

/// Says on the error stream why these files are no program, and answers the status: 7 where the put failed.
pub(crate) fn report_no_program<E: Sink>(err: &mut E, names: &[String], cause: &NoProgram) -> u8
    ensures { IsTold (no_program_status cause.now) (no_program_line (texts names.now) cause.now) result
        (E.written err.old) (E.faults err.old) (E.written err.new) (E.faults err.new) }
{
    match put_no_program(err, names, cause) {
        Ok(()) => status_of_no_program(cause),
        Err(Failed) => 7,
    }
}
