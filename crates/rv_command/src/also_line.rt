ghost use Rattle.std.specs.Prelude.{◌≡◌, ◌++◌, IfOk, OnOk, map};
ghost use Rattle.clap.specs.Words.{found_of, rows_of};
ghost use Rattle.rv_command.specs.AlsoFault.{reason_text};
ghost use Rattle.rv_command.specs.AlsoLine.{also_line, fault_line, hint_of, line_in, name_in, near_text, other_keys};
ghost use Rattle.rv_command.specs.AlsoLine.{said_of_text, text_at_fault};

use crate::also::{equals_at, settings};
use crate::also_fault::{AlsoFault, Reason, text_of};
use clap::ArgMatches;
use rv_describe::nearest_keys;
use rv_isa::Key;
use std::alloc::{AllocError, Global};

// What stands before the first `=` of a text, or the whole text.
fn name_in(text: &[u8]) -> &[u8]
    ensures { result.now ≡ name_in text.now }
{
    match equals_at(text) {
        Some(at) => text.split_at(at).0,
        None => text,
    }
}

// Appends keys, each after a comma and a blank.
fn add_others(line: &mut String, keys: &[Key]) -> Result<(), AllocError>
    ensures { OnOk result (line.new.bytes.items ≡ line.old.bytes.items ++ other_keys keys.now) }
{
    for key in keys {
        line.push_str(", ")?;
        line.push_str(text_of(*key))?;
    }
    Ok(())
}

// Appends the keys that are near, or else some that there are.
#[tactic(auto, unfolding(crate::specs::AlsoLine::near_text))]
fn add_near(line: &mut String, keys: &[Key]) -> Result<(), AllocError>
    ensures { OnOk result (line.new.bytes.items ≡ line.old.bytes.items ++ near_text keys.now) }
{
    let [first, others @ ..] = keys else {
        return line.push_str(
            "; keys are those of a description, as rob, cache.line or predictor.kind",
        );
    };
    line.push_str("; nearest: ")?;
    line.push_str(text_of(*first))?;
    add_others(line, others)
}

// Appends what stands after the reason.
#[tactic(auto, unfolding(crate::specs::AlsoLine::hint_of))]
fn add_hint(alloc: Global, line: &mut String, reason: Reason, text: &str) -> Result<(), AllocError>
    ensures { OnOk result (line.new.bytes.items ≡ line.old.bytes.items ++ hint_of reason text.now) }
{
    match reason {
        Reason::UnknownKey => {
            let keys = nearest_keys(alloc, name_in(text.as_bytes()))?;
            add_near(line, keys.as_slice())
        }
        _ => Ok(()),
    }
}

// What is said of a text, and why.
fn said_of_text(alloc: Global, text: &str, reason: Reason) -> Result<String, AllocError>
    ensures { IfOk result (λ line. line.bytes.items ≡ said_of_text text.now reason) }
{
    let mut line = format!(in alloc; "invalid value '{text}' for '--also <KEY=VALUE>': {reason}")?;
    add_hint(alloc, &mut line, reason, text)?;
    Ok(line)
}

// The text at fault.
fn text_at_fault<'a>(texts: &[&'a str], fault: AlsoFault) -> &'a str
    ensures { result.now ≡ text_at_fault (map (λ text. text.now) texts.now) fault }
{
    match texts.get(fault.place) {
        Some(text) => *text,
        None => "",
    }
}

// What is said of texts, where one is at fault.
fn also_line(alloc: Global, texts: &[&str]) -> Result<String, AllocError>
    ensures { IfOk result (λ line. line.bytes.items ≡ also_line (map (λ text. text.now) texts.now)) }
{
    match settings(texts) {
        Ok(_) => Ok(String::new(alloc)),
        Err(fault) => said_of_text(alloc, text_at_fault(texts, fault), fault.reason),
    }
}

/// What is said of the texts of `--also`, where one is at fault. The only error is out of memory.
pub(crate) fn line_given(alloc: Global, given: &ArgMatches) -> Result<String, AllocError>
    ensures { IfOk result (λ line. line.bytes.items ≡ line_in (rows_of (found_of given.now))) }
{
    match given.get_strs("also") {
        Some(texts) => also_line(alloc, texts),
        None => also_line(alloc, &[]),
    }
}
