//! The folder that rows stand in: `NAME.script`, `NAME.stdout`, and where they aren't as mostly `NAME.args` and
//! `NAME.status`.
use std::alloc::{AllocError, Global};
use std::fs::DirEntry;
use std::io::ErrorKind;
use std::rt::Files;
use std::{fs, io};

/// The folder `data` where there is one, else this one: the program may be run in it, or beside it.
pub fn folder_of_rows(rt: &impl Files) -> io::Result<&'static str> {
    if fs::exists(rt, "data")? {
        Ok("data")
    } else {
        Ok(".")
    }
}

/// The names of the rows in a folder, in order.
pub fn names_of_rows<R: Files + AllocGlobal + Clone + Drop>(
    rt: &R,
    folder: &str,
) -> io::Result<Vec<String>> {
    let mut names = Vec::new(rt.alloc());
    for entry in fs::read_dir(rt, folder)? {
        push_name(&mut names, &entry?)?;
    }
    names.sort()?;
    Ok(names)
}

/// Adds the name of a row where its script is found.
fn push_name<R: Files>(
    names: &mut Vec<String>,
    entry: &DirEntry<R, Global>,
) -> Result<(), AllocError> {
    match entry.file_name().strip_suffix(".script") {
        Some(name) => {
            let name = String::from_str(*names.allocator(), name)?;
            Ok(names.push(name)?)
        }
        None => Ok(()),
    }
}

/// The text of a row's file with this ending.
pub fn text_of<R: Files + AllocGlobal>(
    rt: &R,
    folder: &str,
    name: &str,
    ending: &str,
) -> io::Result<String> {
    let path = format!(in rt.alloc(); "{folder}/{name}.{ending}")?;
    fs::read_to_string(rt, path.as_str())
}

/// The same, or this text where there is no such file.
pub fn text_or<R: Files + AllocGlobal>(
    rt: &R,
    folder: &str,
    name: &str,
    ending: &str,
    otherwise: &str,
) -> io::Result<String> {
    match text_of(rt, folder, name, ending) {
        Err(error) if error.kind() == ErrorKind::NotFound => Ok(String::from_str(
            rt.alloc(),
            otherwise,
        )?),
        text => text,
    }
}
