//! The command line of `lx`, as `clap` reads it.

ghost use Rattle.std.specs.Prelude.{◌≡◌, [], IfOk, false};
ghost use Rattle.clap.specs.Words.{app_of, new_app, rule_of};
ghost use Rattle.clap.specs.declared.builder.Command.TheViews.{out-Command as fields_of};
ghost use Rattle.lx_cli.specs.CommandLine.{bare_app, lx_app};
ghost use Rattle.lx_cli.specs.Tables.{argument_rule, named_rule, numbered_rule, with_arguments, with_subcommands};

use crate::commands::{Argument, ArgumentForm, COMMANDS, Name, NumberRange, Subcommand};
use crate::version::VERSION;
use clap::builder::ValueParser;
use clap::{Arg, ArgAction, Command};
use std::alloc::{AllocError, Global};

pub(crate) fn command<'a>(alloc: Global) -> Result<Command<'a>, AllocError>
    ensures { IfOk result (λ command. app_of command ≡ lx_app) }
{
    let command = Command::new(alloc, "lx")
        .about("Scans files by the rules of a lex specification.")
        .version(VERSION)
        .after_help(
            "lx flex FILE.. and lx lex FILE.. print scanners in C of files for flex and lex, with the C code of their actions; lx flex --help has more. lx check --flex FILE.. says what is wrong with such files.\nWithout words, lists a text that the program holds by rules that it holds.",
        )
        .disable_help_subcommand(true)
        .subcommand_required(true);
    with_subcommands(alloc, command, COMMANDS)
}

// Adds the program's subcommands to its command.
fn with_subcommands<'a>(
    alloc: Global,
    command: Command<'a>,
    subcommands: &[Subcommand],
) -> Result<Command<'a>, AllocError>
    requires { app_of command ≡ bare_app }
    ensures { IfOk result (λ new. app_of new ≡ with_subcommands bare_app subcommands.now) }
{
    let mut command = command;
    for subcommand in subcommands {
        command = command.subcommand(subcommand_of(alloc, subcommand)?)?;
    }
    Ok(command)
}

fn subcommand_of<'a>(alloc: Global, subcommand: &Subcommand) -> Result<Command<'a>, AllocError>
    ensures app { IfOk result (λ command.
        app_of command
        ≡ with_arguments (new_app subcommand.now.name.now) subcommand.now.arguments.now) }
    ensures local { IfOk result (λ command. (fields_of command).has_globals ≡ false) }
{
    let command = Command::new(alloc, subcommand.name).about(subcommand.about);
    with_arguments(alloc, command, subcommand.arguments)
}

// Adds arguments to a command.
fn with_arguments<'a>(
    alloc: Global,
    command: Command<'a>,
    arguments: &[Argument],
) -> Result<Command<'a>, AllocError>
    ensures app { IfOk result
        (λ new. app_of new ≡ with_arguments (app_of command.entry) arguments.now) }
    ensures local { IfOk result (λ new.
        (fields_of command.entry).has_globals ≡ false → (fields_of new).has_globals ≡ false) }
{
    let mut command = command;
    for argument in arguments {
        command = command.arg(arg_of(alloc, argument))?;
    }
    Ok(command)
}

fn arg_of<'a>(alloc: Global, argument: &Argument) -> Arg<'a>
    ensures rule { rule_of result ≡ argument_rule argument.now }
    ensures local { result.global ≡ false }
{
    let arg = Arg::new(alloc, argument.id).help(argument.help);
    match &argument.form {
        ArgumentForm::Flag(name) => with_name(arg, name).action(ArgAction::SetTrue),
        ArgumentForm::Value(name, value) => with_name(arg, name).value_name(value),
        ArgumentForm::Values(name, value) => with_name(arg, name)
            .value_name(value)
            .action(ArgAction::Append),
        ArgumentForm::Number(name, value, numbers) => with_number(
            with_name(arg, name).value_name(value),
            numbers,
        ),
        ArgumentForm::Needed => arg.required(true),
        ArgumentForm::Optional => arg,
        ArgumentForm::Several => arg.num_args(1..).action(ArgAction::Append),
    }
}

// Makes an argument an option with this name.
fn with_name<'a>(arg: Arg<'a>, name: &Name) -> Arg<'a>
    ensures rule { rule_of result ≡ named_rule name.now (rule_of arg.entry) }
    ensures local { result.global ≡ arg.entry.global }
{
    match name {
        Name::Short(letter) => arg.short(*letter),
        Name::Long(word) => arg.long(word),
    }
}

// Makes an argument take a number.
fn with_number<'a>(arg: Arg<'a>, numbers: &NumberRange) -> Arg<'a>
    requires { (rule_of arg).defaults ≡ [] }
    ensures rule { rule_of result ≡ numbered_rule numbers.now (rule_of arg.entry) }
    ensures local { result.global ≡ arg.entry.global }
{
    let arg = arg.value_parser(ValueParser::signed(numbers.least, numbers.most));
    match numbers.default {
        Some(default) => arg.default_value(default),
        None => arg,
    }
}
