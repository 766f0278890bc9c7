ghost use Rattle.std.specs.Prelude.{◌≡◌, ◌+◌, ◌<◌, ◌^◌, [], IfOk, map};
ghost use Rattle.std.specs.List.{All, list_any};
ghost use Rattle.rv_sentences.specs.Kinds.{IsCountable, belongs, kept_after, kept_of, kept_with, kind_with};

use crate::exception::Exception;
use crate::series::{Series, with_event};
use std::alloc::{AllocError, Global};
use std::marker::Model;

// The most kinds that are kept apart.
const MOST_KINDS: usize = 8;

/// What is kept of a run's exceptions.
#[derive(Drop)]
pub struct Exceptions {
    all: Option<Series<Exception>>,
    kinds: Vec<Series<Exception>>,
}

impl Model for Exceptions {
    ghost use Rattle.rv_sentences.specs.Kinds.{Kept};

    ghost Value = { Kept };

    ghost view = { λ exceptions. record { all = exceptions.all; kinds = exceptions.kinds.items } };

    ghost use Rattle.std.specs.Prelude.{◌≤◌, vec_capacity};

    ghost invariant = { λ exceptions. 8 ≤ vec_capacity exceptions.kinds };
}

// Whether an exception is of the kind of a series.
fn belongs(exception: &Exception, kind: &Series<Exception>) -> bool
    ensures { result ≡ belongs exception.now kind.now }
{
    kind.first.pc == exception.pc && kind.first.cause.code() == exception.cause.code()
}

fn is_known(kinds: &[Series<Exception>], exception: &Exception) -> bool
    ensures { result ≡ list_any (belongs exception.now) kinds.now }
{
    match kinds {
        [] => false,
        [kind, rest @ ..] => belongs(exception, kind) || is_known(rest, exception),
    }
}

fn go_on_if_alike(kind: &mut Series<Exception>, exception: &Exception)
    requires room { kind.old.count + 1 < 2 ^ 64 }
    ensures { kind.new ≡ kind_with exception.now kind.old }
{
    if belongs(exception, kind) {
        kind.go_on(*exception);
    }
}

// Adds an exception to the series of its kind.
fn go_on_alike(kinds: &mut [Series<Exception>], exception: &Exception)
    requires room { All (λ kind. kind.count + 1 < 2 ^ 64) kinds.old }
    ensures { kinds.new ≡ map (kind_with exception.now) kinds.old }
{
    if let Some((kind, rest)) = kinds.split_first_mut() {
        go_on_if_alike(kind, exception);
        go_on_alike(rest, exception);
    }
}

impl Exceptions {
    /// What is kept of none. The only error is out of memory.
    pub fn new(alloc: Global) -> Result<Exceptions, AllocError>
        ensures { IfOk result (λ exceptions. exceptions ≡ kept_of []) }
    {
        Ok(Exceptions {
            all: None,
            kinds: Vec::with_capacity(alloc, MOST_KINDS)?,
        })
    }

    /// All exceptions, if there was one.
    pub fn all(&self) -> Option<Series<Exception>>
        ensures { result ≡ self.now.all }
    {
        self.all
    }

    /// The exceptions of each of the first eight kinds.
    pub fn kinds(&self) -> &[Series<Exception>]
        ensures { result.now ≡ self.now.kinds }
    {
        self.kinds.as_slice()
    }

    // Keeps one exception more.
    fn add(&mut self, exception: &Exception)
        requires room { IsCountable self.old }
        ensures { self.new ≡ kept_with exception.now self.old }
    {
        let known = is_known(self.kinds.as_slice(), exception);
        self.all = with_event(self.all, *exception);
        go_on_alike(self.kinds.as_mut_slice(), exception);
        if !known && self.kinds.len() < MOST_KINDS {
            self.kinds.push(Series::begin(*exception)).unwrap();
        }
    }

    /// Keeps the exception of a cycle, if it takes one.
    pub fn note(&mut self, exception: Option<Exception>)
        requires room { IsCountable self.old }
        ensures { self.new ≡ kept_after exception self.old }
    {
        if let Some(exception) = exception {
            self.add(&exception);
        }
    }
}
