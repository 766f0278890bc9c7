ghost use Rattle.std.specs.Prelude.{◌≡◌, ◌≤◌, ◌⊎◌, [], None, Some, IfErr, IfOk, IfSome, map, option_and_then};
ghost use Rattle.std.specs.Option.{option_map_or};
ghost use Rattle.std.specs.Result.{result_ok};
ghost use Rattle.clap.specs.Words.{FailsBy, HasKind, app_of, fault_of, found_of, kind_of, rows_of, subcommand_rows_of};
ghost use Rattle.rv_command.specs.Arguments.{program_arguments};
ghost use Rattle.rv_command.specs.Command.{HasLegalNumbers, IsLegalLimit, IsLegalStretch, command_named};
ghost use Rattle.rv_command.specs.Command.{command_of, flag_in, limit_in, limited_named, number_in};
ghost use Rattle.rv_command.specs.Command.{compare_in, explain_in, page_in, picture_in, profile_in, refused_kinds};
ghost use Rattle.rv_command.specs.Command.{run_in, said_of, said_of_words, sensitivity_in, states_in, stretch_in};

use crate::also::also_given;
use crate::arguments::parser;
use crate::refused::{Judged, Refused, refusal, said_of};
use crate::shown::{ShownColumns, columns_given};
use clap::error::ErrorKind;
use clap::{ArgMatches, Command as Parser, Error};
use rv_sensitivity::Settings;
use std::alloc::{AllocError, Global};

/// The most steps or cycles that a run may be asked for.
pub const MOST_STEPS: u64 = 1_000_000;

/// The last cycle that a run may have, and that a picture may begin with; the first is 0.
pub const LAST_CYCLE: u64 = MOST_STEPS - 1;

/// The most cycles that a picture may show.
pub const MOST_CYCLES_SHOWN: u64 = 1_000;

/// The most cycles of which the states may be written.
pub const MOST_CYCLES_OF_STATES: u64 = 10_000;

/// What the program is asked to do.
#[derive(Clone, Copy, PartialEq, Eq)]
pub enum Command {
    /// Run a job on the core, with at most so many cycles, and with a line for each step where a trace
    /// is asked for.
    Run {
        trace: bool,
        limit: u64,
    },
    /// Run a job on the machine that takes one step at a time, with at most so many steps.
    Reference {
        limit: u64,
    },
    /// Say which image a job makes, or what is wrong with it.
    Check,
    /// Draw the picture of so many cycles, from one on, of a run of a job on the core: in characters where
    /// `text` says so, and else as SVG; without the rows of squashed instructions where `retired` says so; with the events
    /// of the critical path marked where `path` says so.
    Picture {
        text: bool,
        retired: bool,
        path: bool,
        from: u64,
        cycles: u64,
    },
    /// Write a run of a job on the core, of at most so many cycles, as a log that pipeline viewers read
    /// (Konata).
    Log {
        limit: u64,
    },
    /// Write the states of a run of a job on the core, of at most `limit` cycles, line by line, but for the first `from` of
    /// them.
    States {
        from: u64,
        limit: u64,
    },
    /// The same as a page for a browser.
    Page {
        from: u64,
        limit: u64,
    },
    /// Say in sentences how a run of a job on the core went, of at most so many cycles. Where the program crashed, its figures come
    /// only where `figures` says so. What is said of the critical path comes only where `path` says so.
    Explain {
        figures: bool,
        path: bool,
        limit: u64,
    },
    /// Say of each line of a job's program, in a table, what its instructions cost in a run on the core, of at most so
    /// many cycles; and how many cycles of the critical path are its own where `path` says so.
    Profile {
        path: bool,
        limit: u64,
    },
    /// Write which causes and lines have the cycles of the critical path of a run of a job on the core, of at most so many cycles.
    Path {
        limit: u64,
    },
    /// Compare machines by the totals of one program's run on each, of at most so many cycles, with registers and words of
    /// memory at their ends, or what became of the places for dispatch.
    Compare {
        shown: ShownColumns,
        limit: u64,
    },
    /// Say which change of a job's machine would help its program, by the cycles of a run on each, of at most so many cycles,
    /// with changes of a user's own.
    Sensitivity {
        also: Settings,
        limit: u64,
    },
}

fn flag_given(given: &ArgMatches, name: &str) -> bool
    ensures flag { result ≡ flag_in name.now (rows_of (found_of given.now)) }
{
    given.get_one::<bool>(name).unwrap_or(false)
}

fn number_given(given: &ArgMatches, name: &str, low: u64, high: u64) -> Option<u64>
    ensures number { result ≡ number_in name.now low high (rows_of (found_of given.now)) }
    ensures range { IfSome result (λ n. (low ≤ n) × (n ≤ high)) }
{
    let number = given.get_one::<u64>(name)?;
    if low <= number && number <= high {
        Some(number)
    } else {
        None
    }
}

fn limit_given(given: &ArgMatches) -> Option<u64>
    ensures limit { result ≡ limit_in (rows_of (found_of given.now)) }
    ensures legal { IfSome result IsLegalLimit }
{
    number_given(given, "limit", 1, MOST_STEPS)
}

fn run_given(given: &ArgMatches) -> Option<Command>
    ensures run { result ≡ run_in (rows_of (found_of given.now)) }
    ensures legal { IfSome result HasLegalNumbers }
{
    let limit = limit_given(given)?;
    let trace = flag_given(given, "trace");
    Some(Command::Run { trace, limit })
}

fn explain_given(given: &ArgMatches) -> Option<Command>
    ensures explain { result ≡ explain_in (rows_of (found_of given.now)) }
    ensures legal { IfSome result HasLegalNumbers }
{
    let limit = limit_given(given)?;
    let figures = flag_given(given, "figures");
    let path = flag_given(given, "path");
    Some(Command::Explain {
        figures,
        path,
        limit,
    })
}

fn profile_given(given: &ArgMatches) -> Option<Command>
    ensures profile { result ≡ profile_in (rows_of (found_of given.now)) }
    ensures legal { IfSome result HasLegalNumbers }
{
    let limit = limit_given(given)?;
    let path = flag_given(given, "path");
    Some(Command::Profile { path, limit })
}

fn compare_given(given: &ArgMatches) -> Option<Command>
    ensures compare { result ≡ compare_in (rows_of (found_of given.now)) }
    ensures legal { IfSome result HasLegalNumbers }
{
    let shown = columns_given(given)?;
    let limit = limit_given(given)?;
    Some(Command::Compare { shown, limit })
}

fn sensitivity_given(given: &ArgMatches) -> Option<Command>
    ensures sensitivity { result ≡ sensitivity_in (rows_of (found_of given.now)) }
    ensures legal { IfSome result HasLegalNumbers }
{
    let also = also_given(given).ok()?;
    let limit = limit_given(given)?;
    Some(Command::Sensitivity { also, limit })
}

fn picture_given(given: &ArgMatches) -> Option<Command>
    ensures picture { result ≡ picture_in (rows_of (found_of given.now)) }
    ensures legal { IfSome result HasLegalNumbers }
{
    let text = flag_given(given, "text");
    let retired = flag_given(given, "retired");
    let path = flag_given(given, "path");
    let from = number_given(given, "from", 0, LAST_CYCLE)?;
    let cycles = number_given(given, "cycles", 1, MOST_CYCLES_SHOWN)?;
    Some(Command::Picture {
        text,
        retired,
        path,
        from,
        cycles,
    })
}

// The first of some cycles, and the limit of a run that ends with the last of them.
fn stretch_given(given: &ArgMatches) -> Option<(u64, u64)>
    ensures stretch { result ≡ stretch_in (rows_of (found_of given.now)) }
    ensures legal { IfSome result (λ s. IsLegalStretch s.0 s.1) }
{
    let from = number_given(given, "from", 0, LAST_CYCLE)?;
    let cycles = number_given(given, "cycles", 1, MOST_CYCLES_OF_STATES)?;
    Some((from, from + cycles))
}

fn states_given(given: &ArgMatches) -> Option<Command>
    ensures states { result ≡ states_in (rows_of (found_of given.now)) }
    ensures legal { IfSome result HasLegalNumbers }
{
    let (from, limit) = stretch_given(given)?;
    Some(Command::States { from, limit })
}

fn page_given(given: &ArgMatches) -> Option<Command>
    ensures page { result ≡ page_in (rows_of (found_of given.now)) }
    ensures legal { IfSome result HasLegalNumbers }
{
    let (from, limit) = stretch_given(given)?;
    Some(Command::Page { from, limit })
}

// A command that takes a limit and nothing else.
fn limited_given(name: &str, given: &ArgMatches) -> Option<Command>
    ensures command { result ≡ limited_named name.now (rows_of (found_of given.now)) }
    ensures legal { IfSome result HasLegalNumbers }
{
    let limit = limit_given(given)?;
    match name {
        "reference" => Some(Command::Reference { limit }),
        "log" => Some(Command::Log { limit }),
        "path" => Some(Command::Path { limit }),
        _ => None,
    }
}

fn command_given(matches: &ArgMatches) -> Option<Command>
    ensures command { result ≡ option_and_then command_named (subcommand_rows_of matches.now) }
    ensures legal { IfSome result HasLegalNumbers }
{
    let (name, given) = matches.subcommand()?;
    match name {
        "run" => run_given(given),
        "check" => Some(Command::Check),
        "picture" => picture_given(given),
        "states" => states_given(given),
        "page" => page_given(given),
        "explain" => explain_given(given),
        "profile" => profile_given(given),
        "compare" => compare_given(given),
        "sensitivity" => sensitivity_given(given),
        _ => limited_given(name, given),
    }
}

// What the matches ask for, or else what is said of them.
fn asked(alloc: Global, matches: &ArgMatches) -> Result<Result<Command, Refused>, AllocError>
    ensures command { IfOk result (λ r. option_and_then command_named (subcommand_rows_of matches.now) ≡ result_ok r) }
    ensures legal { IfOk result (λ r. IfOk r HasLegalNumbers) }
    ensures said { IfOk result (λ r. IfErr r (λ refused.
        refused.line.bytes.items ≡ option_map_or said_of (subcommand_rows_of matches.now) [])) }
{
    if let Some(command) = command_given(matches) {
        return Ok(Ok(command));
    }
    match matches.subcommand() {
        Some((name, given)) => Ok(Err(said_of(alloc, name, given)?)),
        None => Ok(Err(Refused {
            option: Judged::Show,
            line: String::new(alloc),
        })),
    }
}

// What the words ask for by their matches, or else what is said of these, where a parser of the program takes the words.
fn matched<'a>(
    alloc: Global,
    parser: &mut Parser<'a>,
    words: &'a [String],
) -> Result<Result<Command, Refused>, Error>
    requires program { app_of parser.old ≡ program_arguments }
    ensures command { IfOk result (λ r. command_of (map (λ w. w.bytes.items) words.entry.now) ≡ result_ok r) }
    ensures said { IfOk result (λ r. IfErr r (λ refused.
        refused.line.bytes.items ≡ said_of_words (map (λ w. w.bytes.items) words.entry.now))) }
    ensures kinds { FailsBy (fault_of program_arguments (map (λ w. w.bytes.items) words.entry.now)) result }
    ensures ranges { IfOk result (λ r. IfOk r HasLegalNumbers) }
{
    let matches = parser.try_get_matches_from_mut(words)?;
    let found = asked(alloc, &matches);
    drop(matches);
    Ok(found?)
}

// What the words ask for, by a parser of the program.
fn parse_by<'a>(
    alloc: Global,
    parser: &mut Parser<'a>,
    words: &'a [String],
) -> Result<Command, Error>
    requires program { app_of parser.old ≡ program_arguments }
    ensures command { IfOk result (λ c.
        command_of (map (λ w. w.bytes.items) words.entry.now) ≡ Some c) }
    ensures refused { IfErr result (λ e.
        (command_of (map (λ w. w.bytes.items) words.entry.now) ≡ None)
        ⊎ (kind_of e ≡ ErrorKind.OutOfMemory)) }
    ensures kind { IfErr result (HasKind (refused_kinds (map (λ w. w.bytes.items) words.entry.now))) }
    ensures ranges { IfOk result HasLegalNumbers }
{
    match matched(alloc, parser, words)? {
        Ok(command) => Ok(command),
        // A number out of its range is none of these: `clap` has refused it before; see TOOLCHAIN.
        Err(refused) => Err(refusal(alloc, &refused)),
    }
}

/// What the words of a command line ask for; the first word is the program's name. Fails where
/// they are no command, where they ask for help or the version, and when out of memory: `clap`'s error says
/// which, and has the text to show.
pub fn parse_words(alloc: Global, words: &[String]) -> Result<Command, Error>
    ensures command { IfOk result (λ c.
        command_of (map (λ w. w.bytes.items) words.now) ≡ Some c) }
    ensures refused { IfErr result (λ e.
        (command_of (map (λ w. w.bytes.items) words.now) ≡ None)
        ⊎ (kind_of e ≡ ErrorKind.OutOfMemory)) }
    ensures kind { IfErr result (HasKind (refused_kinds (map (λ w. w.bytes.items) words.now))) }
    ensures ranges { IfOk result HasLegalNumbers }
{
    let mut parser = parser(alloc)?;
    let parsed = parse_by(alloc, &mut parser, words);
    drop(parser);
    parsed
}
