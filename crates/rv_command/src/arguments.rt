//! The arguments of the program, as `clap` is given them.
ghost use Rattle.std.specs.Prelude.{◌≡◌, false, IfOk};
ghost use Rattle.clap.specs.Words.{App, Rule, new_app, rule_of, with_rule, with_subcommand};
ghost use Rattle.rv_command.specs.Arguments.{IsParserOf, check_arguments, compare_arguments};
ghost use Rattle.rv_command.specs.Arguments.{flag_rule, flagged_arguments, from_rule, limit_rule};
ghost use Rattle.rv_command.specs.Arguments.{also_rule, limited_arguments, number_rule, picture_arguments};
ghost use Rattle.rv_command.specs.Arguments.{program_arguments, sensitivity_arguments, show_rule};
ghost use Rattle.rv_command.specs.Arguments.{bare_arguments, bare_picture_arguments, explain_arguments};
ghost use Rattle.rv_command.specs.Arguments.{stretch_arguments, stretch_from_arguments};

use crate::command::{LAST_CYCLE, MOST_CYCLES_OF_STATES, MOST_CYCLES_SHOWN, MOST_STEPS};
use crate::help::{self, CommandHelp, FlaggedHelp, LimitedHelp};
use clap::builder::ValueParser;
use clap::{Arg, ArgAction, Command};
use std::alloc::{AllocError, Global};

// The version, and what stays while its first two numbers do: CHANGELOG.md has it in full.
const VERSION: &str = "0.1.0
What stays while it is 0.1: lines of reports and faults, exit statuses, keys, commands and options, columns of
tables by their names, members of states by theirs (format rv_sim states 1), calls of the libraries";

fn flag_argument<'a>(alloc: Global, name: &'a str, help: &'a str) -> Arg<'a>
    ensures rule { rule_of result ≡ flag_rule name.entry.now }
    ensures local { result.global ≡ false }
{
    Arg::new(alloc, name)
        .long(name)
        .help(help)
        .action(ArgAction::SetTrue)
}

fn number_argument<'a>(
    alloc: Global,
    name: &'a str,
    low: u64,
    high: u64,
    default: &'a str,
    help: &'a str,
) -> Arg<'a>
    ensures rule { rule_of result ≡ number_rule name.entry.now low high default.entry.now }
    ensures local { result.global ≡ false }
{
    Arg::new(alloc, name)
        .long(name)
        .value_name("N")
        .help(help)
        .action(ArgAction::Set)
        .value_parser(ValueParser::unsigned(low, high))
        .default_value(default)
}

fn limit_argument<'a>(alloc: Global, help: &'a str) -> Arg<'a>
    ensures rule { rule_of result ≡ limit_rule }
    ensures local { result.global ≡ false }
{
    number_argument(alloc, "limit", 1, MOST_STEPS, "100000", help)
}

// A command with the texts of its help, and no option yet.
fn described<'a>(alloc: Global, name: &'a str, texts: &'static CommandHelp) -> Command<'a>
    ensures arguments { IsParserOf (new_app name.entry.now) result }
{
    Command::new(alloc, name)
        .about(texts.about)
        .after_help(texts.ending)
}

// A command with one more option, where it could be made. At an error the option is dropped by one call, and not field by field.
fn with_argument<'a>(
    command: Result<Command<'a>, AllocError>,
    argument: Arg<'a>,
) -> Result<Command<'a>, AllocError>
    ensures arguments { (a : App) (r : Rule) → IfOk command.entry (IsParserOf a) → rule_of argument.entry ≡ r
        → argument.entry.global ≡ false → IfOk result (IsParserOf (with_rule a r)) }
{
    match command {
        Ok(command) => command.arg(argument),
        Err(error) => {
            drop(argument);
            Err(error)
        }
    }
}

// A command that takes a flag and a limit.
fn flagged_command<'a>(
    alloc: Global,
    name: &'a str,
    flag: &'a str,
    help: &'static FlaggedHelp,
) -> Result<Command<'a>, AllocError>
    ensures arguments { IfOk result (IsParserOf (flagged_arguments name.entry.now flag.entry.now)) }
{
    let flagged = with_argument(
        Ok(described(alloc, name, &help.texts)),
        flag_argument(alloc, flag, help.flag),
    );
    with_argument(flagged, limit_argument(alloc, help.limit))
}

// A command that takes a limit and nothing else.
fn limited_command<'a>(
    alloc: Global,
    name: &'a str,
    help: &'static LimitedHelp,
) -> Result<Command<'a>, AllocError>
    ensures arguments { IfOk result (IsParserOf (limited_arguments name.entry.now)) }
{
    described(alloc, name, &help.texts).arg(limit_argument(alloc, help.limit))
}

fn check_command<'a>(alloc: Global) -> Command<'a>
    ensures arguments { IsParserOf check_arguments result }
{
    described(alloc, "check", &help::CHECK)
}

// The option of the first cycle of a window.
fn from_argument<'a>(alloc: Global) -> Arg<'a>
    ensures rule { rule_of result ≡ from_rule }
    ensures local { result.global ≡ false }
{
    number_argument(
        alloc,
        "from",
        0,
        LAST_CYCLE,
        "0",
        "The first cycle, 0 to 999999",
    )
}

// The option of what a table shows.
fn show_argument<'a>(alloc: Global) -> Arg<'a>
    ensures rule { rule_of result ≡ show_rule }
    ensures local { result.global ≡ false }
{
    Arg::new(alloc, "show")
        .long("show")
        .value_name("WHAT")
        .help(
            "Shows a register or the word at an address at each run's end, or the places for dispatch; four at most",
        )
        .action(ArgAction::Append)
}

/// The command `compare` with its options.
pub(crate) fn compare_command<'a>(alloc: Global) -> Result<Command<'a>, AllocError>
    ensures arguments { IfOk result (IsParserOf compare_arguments) }
{
    with_argument(
        limited_command(alloc, "compare", &help::COMPARE),
        show_argument(alloc),
    )
}

// The option of a change of a user's own.
fn also_argument<'a>(alloc: Global) -> Arg<'a>
    ensures rule { rule_of result ≡ also_rule }
    ensures local { result.global ≡ false }
{
    Arg::new(alloc, "also")
        .long("also")
        .value_name("KEY=VALUE")
        .help("Tries a value of your own for a key of the description too, four at most")
        .action(ArgAction::Append)
}

/// The command `sensitivity` with its options.
pub(crate) fn sensitivity_command<'a>(alloc: Global) -> Result<Command<'a>, AllocError>
    ensures arguments { IfOk result (IsParserOf sensitivity_arguments) }
{
    with_argument(
        limited_command(alloc, "sensitivity", &help::SENSITIVITY),
        also_argument(alloc),
    )
}

// `picture` with its flags, and no number yet.
fn bare_picture_command<'a>(alloc: Global) -> Result<Command<'a>, AllocError>
    ensures arguments { IfOk result (IsParserOf bare_picture_arguments) }
{
    let with_text = with_argument(
        Ok(described(alloc, "picture", &help::PICTURE)),
        flag_argument(alloc, "text", "Draws in characters, and not as SVG"),
    );
    let with_retired = with_argument(
        with_text,
        flag_argument(
            alloc,
            "retired",
            "Leaves out the rows of squashed instructions",
        ),
    );
    with_argument(
        with_retired,
        flag_argument(alloc, "path", "Marks the critical path, by a second run"),
    )
}

fn picture_command<'a>(alloc: Global) -> Result<Command<'a>, AllocError>
    ensures arguments { IfOk result (IsParserOf picture_arguments) }
{
    let with_from = with_argument(bare_picture_command(alloc), from_argument(alloc));
    with_argument(
        with_from,
        number_argument(
            alloc,
            "cycles",
            1,
            MOST_CYCLES_SHOWN,
            "60",
            "How many cycles, 1 to 1000",
        ),
    )
}

fn explain_command<'a>(alloc: Global) -> Result<Command<'a>, AllocError>
    ensures arguments { IfOk result (IsParserOf explain_arguments) }
{
    let with_figures = with_argument(
        Ok(described(alloc, "explain", &help::EXPLAIN)),
        flag_argument(
            alloc,
            "figures",
            "After a crash says too where the cycles went",
        ),
    );
    let with_path = with_argument(
        with_figures,
        flag_argument(
            alloc,
            "path",
            "Says too what is on the critical path, by a second run",
        ),
    );
    with_argument(with_path, limit_argument(alloc, help::CYCLES))
}

// A command that takes the first of some cycles, and no number of them yet.
fn stretch_from_command<'a>(
    alloc: Global,
    name: &'a str,
    texts: &'static CommandHelp,
) -> Result<Command<'a>, AllocError>
    ensures arguments { IfOk result (IsParserOf (stretch_from_arguments name.entry.now)) }
{
    described(alloc, name, texts).arg(from_argument(alloc))
}

// A command that takes the first of some cycles, and how many they are.
fn stretch_command<'a>(
    alloc: Global,
    name: &'a str,
    texts: &'static CommandHelp,
) -> Result<Command<'a>, AllocError>
    ensures arguments { IfOk result (IsParserOf (stretch_arguments name.entry.now)) }
{
    with_argument(
        stretch_from_command(alloc, name, texts),
        number_argument(
            alloc,
            "cycles",
            1,
            MOST_CYCLES_OF_STATES,
            "200",
            "How many cycles, 1 to 10000",
        ),
    )
}

// The program with no command yet.
fn program<'a>(alloc: Global) -> Result<Command<'a>, AllocError>
    ensures arguments { IfOk result (IsParserOf bare_arguments) }
{
    described(alloc, "rv_sim", &help::PROGRAM)
        .version(VERSION)
        .subcommand_required(true)
        .bin_name("rv_sim")
}

// The program with one more command, where both could be made.
fn with_command<'a>(
    program: Result<Command<'a>, AllocError>,
    command: Result<Command<'a>, AllocError>,
) -> Result<Command<'a>, AllocError>
    ensures arguments { (p c : App) → IfOk program.entry (IsParserOf p) → IfOk command.entry (IsParserOf c)
        → IfOk result (IsParserOf (with_subcommand p c.top)) }
{
    match program {
        Ok(program) => match command {
            Ok(command) => program.subcommand(command),
            Err(error) => {
                drop(program);
                Err(error)
            }
        },
        Err(error) => {
            drop(command);
            Err(error)
        }
    }
}

/// The parser of the program's command lines.
pub(crate) fn parser<'a>(alloc: Global) -> Result<Command<'a>, AllocError>
    ensures arguments { IfOk result (IsParserOf program_arguments) }
{
    let program = with_command(
        program(alloc),
        flagged_command(alloc, "run", "trace", &help::RUN),
    );
    let program = with_command(
        program,
        limited_command(alloc, "reference", &help::REFERENCE),
    );
    let program = with_command(program, Ok(check_command(alloc)));
    let program = with_command(program, picture_command(alloc));
    let program = with_command(program, limited_command(alloc, "log", &help::LOG));
    let program = with_command(program, stretch_command(alloc, "states", &help::STATES));
    let program = with_command(program, stretch_command(alloc, "page", &help::PAGE));
    let program = with_command(program, explain_command(alloc));
    let program = with_command(
        program,
        flagged_command(alloc, "profile", "path", &help::PROFILE),
    );
    let program = with_command(program, limited_command(alloc, "path", &help::PATH));
    let program = with_command(program, compare_command(alloc));
    with_command(program, sensitivity_command(alloc))
}
