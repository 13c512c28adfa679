// What the sentences ask for.
use om_alpha::Level;
use om_io::Listed;

/// What a sentence asks for. A number of steps is the most that a run may take; names are those of files.
#[derive(Drop, Debug)]
pub enum Command {
    /// Link the files and save the image under OUT.
    Link {
        level: Level,
        out: String,
        files: Listed<String>,
    },
    /// Link the files and run the image.
    Exec {
        level: Level,
        steps: u64,
        files: Listed<String>,
    },
    /// Run an image.
    Run {
        steps: u64,
        image: String,
    },
    /// Run the program of the files, in which no address is a number.
    Sim {
        steps: u64,
        files: Listed<String>,
    },
    /// List what became of each word of an image.
    List {
        image: String,
    },
    /// Link and run objects that are made from a number.
    Gen {
        seed: u64,
    },
    /// Make an object of a text and save it under OUT.
    Asm {
        out: String,
        file: String,
    },
    /// Run an image, count how often each word is executed and save the counts under OUT.
    Count {
        steps: u64,
        out: String,
        image: String,
    },
    /// Link the files with the words that are executed most in front, and save the image under OUT.
    Place {
        counts: String,
        out: String,
        files: Listed<String>,
    },
}
