// From the words of a form to a command.
ghost use Rattle.std.specs.Prelude.{◌≡◌, ◌<◌, ◌≤◌, length, drop, map, IfOk, string_bytes};
ghost use Rattle.om_words.specs.Sentences.{slots_of, texts};
ghost use Rattle.om_words.specs.Meaning.{Meaning, meaning_by, word_at, number_at as number_by, told};

use crate::command::Command;
use crate::form::Form;
use crate::numeral::number;
use om_alpha::Level;
use om_io::{Listed, NoMemory};
use std::alloc::Global;

// The most steps of a run where the words name none.
const USUAL_STEPS: u64 = 1_000_000_000;

// The word at a place.
fn copy(alloc: Global, words: &[String], place: usize) -> Result<String, NoMemory>
    requires { place < length words.now }
    ensures { IfOk result (λ word. string_bytes word ≡ word_at (texts words.now) place) }
{
    Ok(String::from_str(alloc, words[place].as_str())?)
}

fn copy_all(alloc: Global, words: &[String]) -> Result<Listed<String>, NoMemory>
    ensures { IfOk result (λ files. texts files ≡ texts words.now) }
{
    let mut files = Vec::new(alloc);
    for word in words {
        files.push(String::from_str(alloc, word.as_str())?)?;
    }
    Ok(Listed::from_vec(files))
}

// The words from a place on.
fn copy_from(alloc: Global, words: &[String], place: usize) -> Result<Listed<String>, NoMemory>
    requires { place ≤ length words.now }
    ensures { IfOk result (λ files. texts files ≡ drop place (texts words.now)) }
{
    copy_all(alloc, &words[place..])
}

// The number that the word at a place says.
fn number_at(words: &[String], place: usize) -> u64
    requires { place < length words.now }
    ensures { result ≡ number_by (texts words.now) place }
{
    number(words[place].as_str()).unwrap_or(0)
}

// `link` with OUT at a place and the files from another on.
fn link(
    alloc: Global,
    level: Level,
    words: &[String],
    out: usize,
    files: usize,
) -> Result<Command, NoMemory>
    requires out { out < length words.now }
    requires files { files ≤ length words.now }
    ensures { IfOk result (λ command. told command ≡ Meaning.Link level (word_at (texts words.now) out) (drop files (texts words.now))) }
{
    let out = copy(alloc, words, out)?;
    let files = copy_from(alloc, words, files)?;
    Ok(Command::Link { level, out, files })
}

fn exec(
    alloc: Global,
    level: Level,
    steps: u64,
    words: &[String],
    files: usize,
) -> Result<Command, NoMemory>
    requires { files ≤ length words.now }
    ensures { IfOk result (λ command. told command ≡ Meaning.Exec level steps (drop files (texts words.now))) }
{
    let files = copy_from(alloc, words, files)?;
    Ok(Command::Exec {
        level,
        steps,
        files,
    })
}

fn run(alloc: Global, steps: u64, words: &[String], image: usize) -> Result<Command, NoMemory>
    requires { image < length words.now }
    ensures { IfOk result (λ command. told command ≡ Meaning.Run steps (word_at (texts words.now) image)) }
{
    let image = copy(alloc, words, image)?;
    Ok(Command::Run { steps, image })
}

fn sim(alloc: Global, steps: u64, words: &[String], files: usize) -> Result<Command, NoMemory>
    requires { files ≤ length words.now }
    ensures { IfOk result (λ command. told command ≡ Meaning.Sim steps (drop files (texts words.now))) }
{
    let files = copy_from(alloc, words, files)?;
    Ok(Command::Sim { steps, files })
}

fn list(alloc: Global, words: &[String], image: usize) -> Result<Command, NoMemory>
    requires { image < length words.now }
    ensures { IfOk result (λ command. told command ≡ Meaning.Listing (word_at (texts words.now) image)) }
{
    let image = copy(alloc, words, image)?;
    Ok(Command::List { image })
}

fn asm(alloc: Global, words: &[String], out: usize, file: usize) -> Result<Command, NoMemory>
    requires out { out < length words.now }
    requires file { file < length words.now }
    ensures { IfOk result (λ command. told command ≡ Meaning.Asm (word_at (texts words.now) out) (word_at (texts words.now) file)) }
{
    let out = copy(alloc, words, out)?;
    let file = copy(alloc, words, file)?;
    Ok(Command::Asm { out, file })
}

fn count(
    alloc: Global,
    steps: u64,
    words: &[String],
    out: usize,
    image: usize,
) -> Result<Command, NoMemory>
    requires out { out < length words.now }
    requires image { image < length words.now }
    ensures { IfOk result (λ command. told command ≡ Meaning.Count steps (word_at (texts words.now) out) (word_at (texts words.now) image)) }
{
    let out = copy(alloc, words, out)?;
    let image = copy(alloc, words, image)?;
    Ok(Command::Count { steps, out, image })
}

fn place(
    alloc: Global,
    words: &[String],
    counts: usize,
    out: usize,
    files: usize,
) -> Result<Command, NoMemory>
    requires counts { counts < length words.now }
    requires out { out < length words.now }
    requires files { files ≤ length words.now }
    ensures { IfOk result (λ command. told command
        ≡ Meaning.Place (word_at (texts words.now) counts) (word_at (texts words.now) out) (drop files (texts words.now))) }
{
    let counts = copy(alloc, words, counts)?;
    let out = copy(alloc, words, out)?;
    let files = copy_from(alloc, words, files)?;
    Ok(Command::Place { counts, out, files })
}

/// The command that words of a form ask for.
pub(crate) fn build(alloc: Global, form: Form, words: &[String]) -> Result<Command, NoMemory>
    requires { length (slots_of form) ≤ length words.now }
    ensures { IfOk result (λ command. told command ≡ meaning_by form (texts words.now)) }
{
    match form {
        Form::LinkOut => link(alloc, Level::Full, words, 2, 3),
        Form::LinkPlainOut => link(alloc, Level::Plain, words, 3, 4),
        Form::LinkOutPlain => link(alloc, Level::Plain, words, 2, 4),
        Form::Exec => exec(alloc, Level::Full, USUAL_STEPS, words, 1),
        Form::ExecPlain => exec(alloc, Level::Plain, USUAL_STEPS, words, 2),
        Form::ExecSteps => exec(alloc, Level::Full, number_at(words, 2), words, 3),
        Form::ExecPlainSteps => exec(alloc, Level::Plain, number_at(words, 3), words, 4),
        Form::ExecStepsPlain => exec(alloc, Level::Plain, number_at(words, 2), words, 4),
        Form::Run => run(alloc, USUAL_STEPS, words, 1),
        Form::RunSteps => run(alloc, number_at(words, 2), words, 3),
        Form::Sim => sim(alloc, USUAL_STEPS, words, 1),
        Form::SimSteps => sim(alloc, number_at(words, 2), words, 3),
        Form::List => list(alloc, words, 1),
        Form::Gen => Ok(Command::Gen {
            seed: number_at(words, 1),
        }),
        Form::Asm => asm(alloc, words, 2, 3),
        Form::CountOut => count(alloc, USUAL_STEPS, words, 2, 3),
        Form::CountStepsOut => count(alloc, number_at(words, 2), words, 4, 5),
        Form::CountOutSteps => count(alloc, number_at(words, 4), words, 2, 5),
        Form::PlaceCountsOut => place(alloc, words, 2, 4, 5),
        Form::PlaceOutCounts => place(alloc, words, 4, 2, 5),
    }
}
