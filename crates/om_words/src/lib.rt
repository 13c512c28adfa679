// The words of the command line.
//
// `read_words` gives the command that the words ask for, or the place of the first word with which no sentence goes on. The
// contract cites a table of the sentences (`specs/Sentences.antt`): for each form, which word may stand at each place.
#![tactic(auto)]

mod building;
mod command;
mod errors;
mod form;
mod laws;
mod matching;
mod numeral;
mod reading;

pub use command::Command;
pub use errors::WordsErr;
pub use form::{Form, Keyword, Slot};
pub use laws::wrong_places_are_first;
pub use reading::read_words;
