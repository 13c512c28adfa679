// Reading the words.
ghost use Rattle.std.specs.Prelude.{◌≡◌, ◌≤◌, Some, None, IfOk, IfErr, IfSome, length};
ghost use Rattle.om_words.specs.Sentences.{texts, slots_of, form_of as form_by, wrong_place as wrong};
ghost use Rattle.om_words.specs.Meaning.{meaning, told, IsAnswer};

use crate::building::build;
use crate::command::Command;
use crate::errors::WordsErr;
use crate::form::Form;
use crate::matching::{form_of, wrong_place};
use om_io::NoMemory;
use std::alloc::Global;

/// Reads the words of the command line, without the program's own name.
///
/// Options stand before the files, in any order, each at most once; `-o OUT` has to be there, and so has `-c COUNTS`. A name
/// of a file is not empty and does not begin with `-`. A number N is 1 to 20 decimal digits with a value below 2^64. Without
/// `-O0` the level is the full one, without `-n` a run takes at most 1,000,000,000 steps.
///
/// ```text
/// link [-O0] -o OUT FILE ..        exec [-O0] [-n N] FILE ..      run [-n N] IMAGE
/// sim [-n N] FILE ..               list IMAGE                     gen N
/// asm -o OUT FILE                  count [-n N] -o OUT IMAGE      place -c COUNTS -o OUT FILE ..
/// ```
///
/// Takes time in proportion to the words. Errors: `Usage` where the words are no sentence, and `NoMemory`.
pub fn read_words(alloc: Global, words: &[String]) -> Result<Command, WordsErr>
    ensures { IsAnswer (texts words.now) result }
{
    match form_of(words) {
        Some(form) => match build(alloc, form, words) {
            Ok(command) => Ok(command),
            Err(NoMemory) => Err(WordsErr::NoMemory),
        },
        None => Err(WordsErr::Usage {
            at: wrong_place(words),
        }),
    }
}
