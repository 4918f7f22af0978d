//! Which file a command is about, and how it is opened or made.
ghost use Rattle.std.specs.Prelude.{◌≡◌, ◌↔◌, ◌≤◌, Err, IfErr, IfOk, IfSome, None, Ok, Some, codes, is_some, option_map, unwrap_or};
ghost use Rattle.clap.specs.Words.{found_of, first_value, matched_of};
ghost use Rattle.cs_options.specs.Asked.{id_at, number_at};
ghost use Rattle.cs_options.specs.Files.{NamesTwo, file_asked};

use crate::options::number_given;
use clap::ArgMatches;
use cs_frame::{ShardId, StoreId};

/// Why it isn't known which file a command is about.
#[derive(Clone, Copy, Debug, PartialEq, Eq)]
pub enum NoFile {
    /// It is named twice, as a word and by `--file`, and not the same.
    NamedTwice,
    /// It isn't named at all.
    NotNamed,
}

/// The file that a command is about: the word, else that of `--file`, else the environment's.
pub fn file_of<'a>(
    options: &ArgMatches<'a>,
    environment: Option<&'a str>,
) -> Result<&'a str, NoFile>
    ensures file { IfOk result (λ file. file_asked options.now (option_map (λ text. text.now) environment.entry) ≡ Some file.now) }
    ensures twice { (result ≡ Err NoFile.NamedTwice) ↔ NamesTwo options.now }
    ensures none { result ≡ Err NoFile.NotNamed → file_asked options.now (option_map (λ text. text.now) environment.entry) ≡ None }
{
    match (options.get_str("store"), options.get_str("file")) {
        (Some(word), Some(option)) if word != option => Err(NoFile::NamedTwice),
        (Some(word), _) => Ok(word),
        (None, Some(option)) => Ok(option),
        (None, None) => match environment {
            Some(path) => Ok(path),
            None => Err(NoFile::NotNamed),
        },
    }
}

/// The text of `--id` is no identity.
#[derive(Clone, Copy, Debug, PartialEq, Eq)]
pub struct NoIdentity;

/// The identity of the store that is asked for; none if `--id` isn't given.
pub fn identity_of(options: &ArgMatches) -> Result<Option<StoreId>, NoIdentity>
    ensures none { (result ≡ Ok None) ↔ (first_value (found_of options.now) (codes "id") ≡ None) }
    ensures value { IfOk result (λ store. option_map (λ store. store.0) store ≡ id_at options.now (codes "id")) }
    ensures refused { IfErr result (λ _. id_at options.now (codes "id") ≡ None) }
{
    match options.get_str("id") {
        Some(text) => match ShardId::parse(text) {
            Ok(id) => Ok(Some(StoreId(id.bytes()))),
            Err(_) => Err(NoIdentity),
        },
        None => Ok(None),
    }
}

/// How many pages the store's device is said to have; none if `--device-pages` isn't given.
pub fn device_pages_of(options: &ArgMatches) -> Option<u64>
    ensures { result ≡ number_at options.now (codes "device-pages") }
{
    number_given(options, "device-pages")
}

/// The extent that is left out; none if `--skip-extent` isn't given.
pub fn skipped_of(options: &ArgMatches) -> Option<u64>
    ensures { result ≡ number_at options.now (codes "skip-extent") }
{
    number_given(options, "skip-extent")
}

/// How many hundredths of the room for shards a put leaves free. Default: 15.
pub fn reserve_of(options: &ArgMatches) -> u64
    ensures { result ≡ unwrap_or (number_at options.now (codes "reserve")) 15 }
{
    number_given(options, "reserve").unwrap_or(15)
}

/// How many seconds to wait at most for a file that is in use. Default: 0.
pub fn wait_of(options: &ArgMatches) -> u64
    ensures { result ≡ unwrap_or (number_at options.now (codes "wait")) 0 }
{
    number_given(options, "wait").unwrap_or(0)
}

/// The permissions of a new file. Default: its owner may read and write. It returns None if the text is no octal number
/// of at most 0777.
pub fn mode_of(options: &ArgMatches) -> Option<u32>
    ensures default { first_value (found_of options.now) (codes "mode") ≡ None → result ≡ Some 384 }
    ensures small { IfSome result (λ mode. mode ≤ 511) }
{
    match options.get_str("mode") {
        Some(text) => read_mode(text),
        None => Some(0o600),
    }
}

/// The permissions that octal digits stand for.
fn read_mode(text: &str) -> Option<u32>
    ensures small { IfSome result (λ mode. mode ≤ 511) }
{
    match u32::from_str_radix(text, 8) {
        Ok(mode) if mode <= 0o777 => Some(mode),
        _ => None,
    }
}
