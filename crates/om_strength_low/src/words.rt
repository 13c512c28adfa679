// A caller of the reader of command lines.
ghost use Rattle.om_words.specs.Sentences.{texts};
ghost use Rattle.om_words.specs.Meaning.{IsAnswer};

use om_words::{Command, WordsErr, read_words};
use std::alloc::Global;

pub fn command(alloc: Global, words: &[String]) -> Result<Command, WordsErr>
    ensures { IsAnswer (texts words.now) result }
{
    read_words(alloc, words)
}
