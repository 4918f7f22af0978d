//! The command line, made of the table of its commands.

use crate::examples::PROGRAM;
use crate::forms::{Choice, Form, Takes};
use crate::tables::{COPY_FORMS, OTHER_FORMS, SHARD_FORMS, WHOLE_FORMS};
use clap::{Arg, ArgAction, Command};
use std::alloc::{AllocError, Global};

/// The command line that is understood.
pub fn command<'a>(alloc: Global) -> Result<Command<'a>, AllocError> {
    let command = program(alloc).subcommands(commands_of(alloc, SHARD_FORMS)?)?;
    let command = command.subcommands(commands_of(alloc, WHOLE_FORMS)?)?;
    let command = command.subcommands(commands_of(alloc, COPY_FORMS)?)?;
    command.subcommands(commands_of(alloc, OTHER_FORMS)?)
}

/// The program, without its commands, one of which is required.
fn program<'a>(alloc: Global) -> Command<'a> {
    Command::new(alloc, "cs_cli")
        .about("A shard store in a file that loses nothing that it acknowledged")
        .after_help(PROGRAM)
        .subcommand_required(true)
}

/// These commands.
fn commands_of<'a>(alloc: Global, forms: &[Form]) -> Result<Vec<Command<'a>>, AllocError> {
    let mut commands = Vec::new(alloc);
    for form in forms {
        commands.push(command_of(alloc, form)?)?;
    }
    Ok(commands)
}

/// A command.
fn command_of<'a>(alloc: Global, form: &Form) -> Result<Command<'a>, AllocError> {
    let options = options_of(alloc, form.options)?;
    named(alloc, form).args(options)
}

/// A command without its options.
fn named<'a>(alloc: Global, form: &Form) -> Command<'a> {
    let command = Command::new(alloc, form.name).about(form.about);
    match form.after {
        Some(text) => command.after_help(text),
        None => command,
    }
}

/// These words and options.
fn options_of<'a>(alloc: Global, choices: &[Choice]) -> Result<Vec<Arg<'a>>, AllocError> {
    let mut options = Vec::new(alloc);
    for choice in choices {
        options.push(option_of(alloc, choice))?;
    }
    Ok(options)
}

/// A word that stands by itself, or an option.
fn option_of<'a>(alloc: Global, choice: &Choice) -> Arg<'a> {
    let argument = Arg::new(alloc, choice.name).help(choice.help);
    match choice.takes {
        Takes::Word(name) => argument
            .value_name(name)
            .required(true)
            .action(ArgAction::Set),
        Takes::WordOrNone(name) => argument.value_name(name).action(ArgAction::Set),
        takes => taking(argument.long(choice.name), takes),
    }
}

/// An option that takes this.
fn taking<'a>(option: Arg<'a>, takes: Takes) -> Arg<'a> {
    match takes {
        Takes::Number(default) => option
            .action(ArgAction::Set)
            .value_parser(clap::value_parser!(u64))
            .default_value(default),
        Takes::NumberOrNone => option
            .action(ArgAction::Set)
            .value_parser(clap::value_parser!(u64)),
        Takes::Text(name) => option.value_name(name).action(ArgAction::Set),
        Takes::TextOr(name, default) => option
            .value_name(name)
            .action(ArgAction::Set)
            .default_value(default),
        Takes::Nothing | Takes::Word(_) | Takes::WordOrNone(_) => {
            option.action(ArgAction::SetTrue)
        }
    }
}
