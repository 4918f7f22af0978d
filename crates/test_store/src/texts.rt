//! Scripts and tables: a line each, with words, ` > `, and what is printed then.
use std::fmt::Debug;
use std::process::Abort;

/// The words of a line, and what is printed then.
pub fn sides<'a>(rt: &impl Abort, line: &'a str) -> (&'a str, &'a str) {
    line.split_once(" > ").expect(rt, "a line")
}

/// Asserts what is printed of a line.
pub fn is_said(rt: &impl Abort, said: &str, wanted: &str, line: &str) {
    assert_eq!(rt; said, wanted, "{line}");
}

/// How a value prints.
pub fn text_of<T: Debug>(rt: &(impl Abort + AllocGlobal), value: &T) -> String {
    format!(in rt.alloc(); "{value:?}").expect(rt, "memory")
}

/// Asserts how a value prints.
pub fn prints<T: Debug>(rt: &(impl Abort + AllocGlobal), value: &T, wanted: &str) {
    is_said(rt, &text_of(rt, value), wanted, wanted);
}

/// The number that a word is, 0 where there is none.
pub fn number(word: Option<&str>) -> u16 {
    match word {
        Some(word) => word.parse().unwrap_or(0),
        None => 0,
    }
}

/// The byte that a number is.
pub fn byte(number: u16) -> u8 {
    u8::try_from(number).unwrap_or(0)
}

/// The first word of a line, and the numbers behind it.
pub fn words_of(line: &str) -> (&str, [u16; 4]) {
    let mut words = line.split(' ');
    let first = words.next().unwrap_or("");
    let numbers = [
        number(words.next()),
        number(words.next()),
        number(words.next()),
        number(words.next()),
    ];
    (first, numbers)
}
