use crate::guesses::{Guesses, next_word};
use rv_arch::{Observed, Reference};
use rv_core::{Pipeline, run};
use rv_front::{NotTaken, Predictor};
use rv_hardware::Step;
use rv_isa::{Arrivals, Csr, Description, Image, Recovery, Values};
use rv_watch::Simulated;
use std::alloc::Global;
use std::process::Abort;

const RAM_SIZE: u32 = 4096;

const CYCLES: u64 = 2000;

// 256 random words from a first one on, as bytes of memory.
fn meaningless(alloc: Global, first: u32) -> Option<Vec<u8>> {
    let mut bytes = Vec::new(alloc);
    let mut word = first;
    for _ in 0..256 {
        bytes.extend_from_slice(&word.to_le_bytes()).ok()?;
        word = next_word(word);
    }
    Some(bytes)
}

fn described(ram_base: u32, recovery: Recovery) -> Option<Description> {
    Description::new(Values {
        ram_base,
        ram_size: RAM_SIZE,
        recovery,
        ..Values::standard()
    })
}

// The pipeline with an image at the front of its RAM.
pub(crate) fn loaded_pipeline(
    alloc: Global,
    bytes: &[u8],
    ram_base: u32,
    recovery: Recovery,
) -> Option<Pipeline> {
    let description = described(ram_base, recovery)?;
    let image = Image::from_bytes(alloc, ram_base, bytes, ram_base).ok()?;
    Pipeline::new(alloc, &description, &image).ok()
}

// The one-at-a-time machine with the same image.
fn loaded_reference(alloc: Global, bytes: &[u8], ram_base: u32) -> Option<Reference> {
    let is_base = ram_base % 4096 == 0 && ram_base % 4 == 0 && ram_base <= 0xff00_0000;
    if is_base && bytes.len() <= RAM_SIZE as usize {
        Reference::new(alloc, ram_base, RAM_SIZE, 0, bytes, ram_base).ok()
    } else {
        None
    }
}

fn stamps_of(alloc: Global, steps: &[Step]) -> Option<Vec<u64>> {
    let mut stamps = Vec::new(alloc);
    for step in steps {
        stamps.push(step.stamp()).ok()?;
    }
    Some(stamps)
}

// The stamps of the steps that a pipeline reports of a run that a predictor guides.
fn run_stamped(
    alloc: Global,
    pipeline: &mut Pipeline,
    predictor: &mut dyn Predictor,
    arrivals: &Arrivals,
) -> Option<Vec<u64>> {
    let outcome = run(alloc, pipeline, predictor, arrivals, CYCLES).ok()?;
    stamps_of(alloc, outcome.steps.as_slice())
}

fn is_same_at(pipeline: &Pipeline, reference: &Reference, address: u32) -> bool {
    pipeline.shown().byte(address) == reference.byte(address)
        && pipeline.shown().is_stale(address) == reference.is_stale(address)
}

// The control and status registers that a program or a trap can change.
const CHANGING: [Csr; 7] = [
    Csr::Mstatus,
    Csr::Mie,
    Csr::Mtvec,
    Csr::Mscratch,
    Csr::Mepc,
    Csr::Mcause,
    Csr::Mtval,
];

// Whether each control and status register reads the same.
fn has_same_csrs(left: &Observed, right: &Observed) -> bool {
    for csr in &CHANGING {
        if left.csrs.value(*csr, left.lines) != right.csrs.value(*csr, right.lines) {
            return false;
        }
    }
    true
}

// Whether two machines show the same but for their memory.
fn is_seen_alike(left: &Observed, right: &Observed) -> bool {
    left.pc == right.pc
        && left.regs == right.regs
        && left.lines == right.lines
        && has_same_csrs(left, right)
}

// Whether programs see the same, in memory from four bytes before RAM to four bytes after it.
fn is_same(pipeline: &Pipeline, reference: &Reference, ram_base: u32) -> bool {
    for offset in 0..RAM_SIZE + 8 {
        let address = ram_base.wrapping_sub(4).wrapping_add(offset);
        if !is_same_at(pipeline, reference, address) {
            return false;
        }
    }
    is_seen_alike(&pipeline.shown().observe(), &reference.observe())
}

// Whether the reference takes all reported steps and then shows what the pipeline shows.
fn is_confirmed(
    pipeline: &Pipeline,
    reference: &mut Reference,
    stamps: &[u64],
    arrivals: &Arrivals,
    ram_base: u32,
) -> bool {
    reference.run_stamps(stamps, arrivals) == stamps.len() && is_same(pipeline, reference, ram_base)
}

// Whether the reference confirms a run of the pipeline.
fn is_run_confirmed(
    rt: &impl Abort,
    alloc: Global,
    pipeline: &mut Pipeline,
    predictor: &mut dyn Predictor,
    reference: &mut Reference,
    arrivals: &Arrivals,
    ram_base: u32,
) -> bool {
    let stamps = run_stamped(alloc, pipeline, predictor, arrivals).expect(rt, "memory for a run");
    is_confirmed(pipeline, reference, stamps.as_slice(), arrivals, ram_base)
}

// Whether a core that runs random words from one on, and is guided by a predictor, ends as the reference does.
fn agrees(
    rt: &impl Abort,
    alloc: Global,
    first: u32,
    ram_base: u32,
    recovery: Recovery,
    predictor: &mut dyn Predictor,
) -> bool {
    let bytes = meaningless(alloc, first).expect(rt, "memory for words");
    let arrivals = Arrivals::new(Vec::new(alloc)).expect(rt, "no arrivals");
    let mut reference = loaded_reference(alloc, bytes.as_slice(), ram_base).expect(
        rt,
        "a reference",
    );
    let mut pipeline = loaded_pipeline(alloc, bytes.as_slice(), ram_base, recovery).expect(
        rt,
        "a pipeline",
    );
    is_run_confirmed(
        rt,
        alloc,
        &mut pipeline,
        predictor,
        &mut reference,
        &arrivals,
        ram_base,
    )
}

// Checks that it does so however it recovers, where no branch is predicted as taken, and where it guesses by random words.
fn check_words(rt: &impl Abort, alloc: Global, first: u32, ram_base: u32) {
    for recovery in [Recovery::Commit, Recovery::Early] {
        let ends_alike = agrees(rt, alloc, first, ram_base, recovery, &mut NotTaken)
            && agrees(
                rt,
                alloc,
                first,
                ram_base,
                recovery,
                &mut Guesses::Word(first),
            );
        assert!(rt; ends_alike, "{first}");
    }
}

#[test]
fn words_of_no_meaning_end_as_on_the_reference(rt: HostRuntime) {
    for first in 1..=64 {
        check_words(&rt, rt.alloc(), first, 0x8000_0000);
    }
}

#[test]
fn words_of_no_meaning_from_address_0_on_end_as_on_the_reference(rt: HostRuntime) {
    for first in 1..=64 {
        check_words(&rt, rt.alloc(), first, 0);
    }
}
