mod commands;
mod options;
mod settings;
mod usage;

use rv_command::parse_words;
use std::alloc::Global;
use std::test::Fail;

fn words(alloc: Global, texts: &[&str]) -> Result<Vec<String>, Fail> {
    let mut all = Vec::new(alloc);
    for text in texts {
        all.push(String::from_str(alloc, text)?)?;
    }
    Ok(all)
}

/// The fault of words that are refused.
fn refused(alloc: Global, texts: &[&str]) -> Result<clap::Error, Fail> {
    let given = words(alloc, texts)?;
    match parse_words(alloc, given.as_slice()) {
        Ok(_) => Err(Fail::from("words were taken")),
        Err(error) => Ok(error),
    }
}
