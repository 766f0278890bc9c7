ghost use Rattle.std.specs.Prelude.{◌≡◌, false, not};
ghost use Rattle.rv_job.specs.Fault.{fault_line, fault_status, input_fault_line, input_fault_status};
ghost use Rattle.rv_job.specs.FaultStream.{Reports};

use crate::errors::SimError;
use crate::faults::{fault_status, write_fault};
use crate::input::InputError;
use rv_text::put;
use std::io::Write;
use std::marker::Model;

/// A writer for the lines that report faults. A write that fails is remembered, and nothing else comes
/// of it.
#[derive(Drop)]
pub struct FaultLines<E: Write> {
    writer: E,
    has_failed: bool,
}

impl<E: Write> Model for FaultLines<E> {
    ghost use Rattle.rv_job.specs.FaultStream.{FaultStream};

    ghost Value = { FaultStream };

    ghost view = { λ s. record { known = E.contents s.writer; has_failed = s.has_failed } };
}

impl<E: Write> FaultLines<E> {
    /// A writer to which nothing was written yet.
    pub fn new(writer: E) -> FaultLines<E>
        ensures known { result.known ≡ E.contents writer }
        ensures whole { result.has_failed ≡ false }
    {
        FaultLines {
            writer,
            has_failed: false,
        }
    }

    /// Whether each line that was reported was written whole.
    pub fn is_whole(&self) -> bool
        ensures { result ≡ not self.now.has_failed }
    {
        !self.has_failed
    }

    /// What stands after the lines.
    pub fn into_writer(self) -> E
        ensures { E.contents result ≡ self.known }
    {
        self.writer
    }

    /// Writes the line of a fault, and answers its exit status.
    pub fn report(&mut self, error: SimError) -> u8
        ensures line { Reports self.old self.new (fault_line error) }
        ensures status { result ≡ fault_status error }
    {
        if write_fault(&mut self.writer, error).is_err() {
            self.has_failed = true;
        }
        fault_status(error)
    }

    /// Writes a text that reports a fault.
    pub fn report_text(&mut self, text: &[u8])
        ensures { Reports self.old self.new text.now }
    {
        let written = put(&mut self.writer, text);
        self.has_failed = self.has_failed || written.is_err();
    }

    /// Writes the line of an input that can't be read, and answers its exit status: 4 where a read failed, 5 when out of
    /// memory.
    #[tactic(auto, unfolding(crate::specs::Fault::input_fault_line, crate::specs::Fault::input_fault_status))]
    pub fn report_unread(&mut self, error: InputError) -> u8
        ensures line { Reports self.old self.new (input_fault_line error) }
        ensures status { result ≡ input_fault_status error }
    {
        match error {
            InputError::Failed => {
                self.report_text(b"error: input\n");
                4
            }
            InputError::Memory => self.report(SimError::Memory),
        }
    }
}
