//! The words of the command line and of the environment.
ghost use Rattle.std.specs.Prelude.{◌≤◌};

use std::rt::Env;
use std::{env, io, str};

/// The words of the command line. Fails if one isn't UTF-8.
pub fn words_given<R: Env + AllocGlobal>(rt: &R) -> io::Result<Vec<String>> {
    let mut words = Vec::new(rt.alloc());
    for word in env::args(rt)? {
        words.push(word)?;
    }
    Ok(words)
}

/// The file that the environment names, if it does.
pub fn file_in_environment<R: Env + AllocGlobal>(rt: &R) -> Option<String> {
    env::var(rt, "NUGGETLOCH_FILE").ok()
}

/// The greatest number of a word that is looked at for what is wrong with it, and the greatest length.
const WORDS: usize = 65_536;

const LENGTH: usize = 4_096;

/// Reports that the words can't be read, and gives the exit status.
pub fn tell_unreadable<R: Env + Eprint>(rt: &R, error: io::Error) -> u8
    ensures { result ≤ 7 }
{
    if !is_word_told(rt) {
        let _ = eprintln!(rt; "error: {error}");
    }
    cs_words::COMMAND_LINE
}

/// Reports the first word that isn't UTF-8, and returns whether there is one.
fn is_word_told<R: Env + Eprint>(rt: &R) -> bool {
    for number in 0..WORDS {
        let mut buffer = [0; LENGTH];
        match rt.arg(number, &mut buffer) {
            Ok(length) => {
                let word = &buffer[..length];
                if str::from_utf8(word).is_err() {
                    tell_word(rt, number, word);
                    return true;
                }
            }
            Err(env::FillError::NotPresent) => return false,
            Err(env::FillError::TooLong) => {}
        }
    }
    false
}

/// Reports a word that isn't UTF-8 by its bytes. The word after the program's is number 1.
fn tell_word<R: Eprint>(rt: &R, number: usize, word: &[u8]) {
    let word = word.escape_ascii();
    let _ = eprintln!(rt;
        "error: argument {number} is not UTF-8: {word}; for a file make a link with a name that is, and name that: ln -s FILE s.store"
    );
}
