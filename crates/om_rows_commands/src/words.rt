// Rows of `words`: what words mean, or the place of the first wrong one.
use om_rows::Bad;
use om_words::read_words;
use std::alloc::{AllocError, Global};

/// The words of a line, which blanks part.
pub fn words_of(alloc: Global, line: &str) -> Result<Vec<String>, AllocError> {
    let mut words = Vec::new(alloc);
    for word in line.split_ascii_whitespace() {
        words.push(String::from_str(alloc, word)?)?;
    }
    Ok(words)
}

/// The command that the words of a line ask for, or why there is none.
pub fn answer_to(alloc: Global, line: &str) -> Result<String, Bad> {
    let words = words_of(alloc, line)?;
    let text = match read_words(alloc, &words) {
        Ok(command) => format!(in alloc; "{command:?}")?,
        Err(error) => format!(in alloc; "{error:?}")?,
    };
    Ok(text)
}
