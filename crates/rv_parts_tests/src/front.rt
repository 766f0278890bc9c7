ghost use Rattle.rv_front.specs.Guide.{guide_by};

use crate::checks::{check_equal, check_equal_at, check_true};
use crate::words::{bytes_of, code_of};
use rv_decode::Decoded;
use rv_front::{
    BackwardTaken, Bimodal, DescribedPredictor, FetchStop, Fetched, Flow, Front, NotTaken,
    Predictor,
};
use rv_isa::{Description, PredictorKind, Values};
use rv_memory::Ram;
use std::alloc::Global;
use std::process::Abort;
use std::test::Fail;

const BASE: u32 = 0x8000_0000;

// `beq x0,x0` by 8, and by -4
const BRANCH_FORWARD: u32 = 0x0000_0463;

const BRANCH_BACKWARD: u32 = 0xfe00_0ee3;

// `beq x0,x0` by 4, which goes on at the next word where it is taken, too
const BRANCH_TO_THE_NEXT: u32 = 0x0000_0263;

// `jal x0` by 8, and `jalr x0,0(x1)`
const JAL: u32 = 0x0080_006f;

const JALR: u32 = 0x0000_8067;

// `addi x0,x0,0`
const NOP: u32 = 0x0000_0013;

#[test]
fn a_bimodal_counter_learns_from_branches_alone(rt: HostRuntime) -> Result<(), Fail> {
    let mut predictor = Bimodal::new(rt.alloc(), 64)?;
    check_equal(&rt, predictor.predict(BASE, BRANCH_FORWARD), BASE + 4);
    predictor.learn(BASE, BRANCH_FORWARD, BASE + 8);
    check_equal(&rt, predictor.predict(BASE, BRANCH_FORWARD), BASE + 8);
    check_equal(
        &rt,
        predictor.predict(BASE + 0x100, BRANCH_FORWARD),
        BASE + 0x108,
    );
    predictor.learn(BASE, BRANCH_FORWARD, BASE + 8);
    predictor.learn(BASE, BRANCH_FORWARD, BASE + 4);
    check_equal(&rt, predictor.predict(BASE, BRANCH_FORWARD), BASE + 8);
    predictor.learn(BASE, BRANCH_FORWARD, BASE + 4);
    check_equal(&rt, predictor.predict(BASE, BRANCH_FORWARD), BASE + 4);
    predictor.learn(BASE, JAL, BASE + 8);
    check_equal(&rt, predictor.predict(BASE, BRANCH_FORWARD), BASE + 4);
    Ok(())
}

#[test]
fn a_branch_to_the_next_word_counts_down(rt: HostRuntime) -> Result<(), Fail> {
    let mut predictor = Bimodal::new(rt.alloc(), 64)?;
    predictor.learn(BASE, BRANCH_TO_THE_NEXT, BASE + 4);
    predictor.learn(BASE, BRANCH_FORWARD, BASE + 8);
    check_equal(&rt, predictor.predict(BASE, BRANCH_FORWARD), BASE + 4);
    predictor.learn(BASE, BRANCH_FORWARD, BASE + 8);
    check_equal(&rt, predictor.predict(BASE, BRANCH_FORWARD), BASE + 8);
    Ok(())
}

#[test]
fn words_beside_each_other_have_counters_of_their_own(rt: HostRuntime) -> Result<(), Fail> {
    let mut predictor = Bimodal::new(rt.alloc(), 2)?;
    predictor.learn(BASE, BRANCH_FORWARD, BASE + 8);
    check_equal(&rt, predictor.predict(BASE + 4, BRANCH_FORWARD), BASE + 8);
    check_equal(&rt, predictor.predict(BASE + 8, BRANCH_FORWARD), BASE + 16);
    Ok(())
}

#[test]
fn a_bimodal_target_is_the_last_one_at_its_index(rt: HostRuntime) -> Result<(), Fail> {
    let mut predictor = Bimodal::new(rt.alloc(), 64)?;
    check_equal(&rt, predictor.predict(BASE, JALR), BASE + 4);
    predictor.learn(BASE, JALR, BASE + 0x40);
    check_equal(&rt, predictor.predict(BASE, JALR), BASE + 0x40);
    check_equal(&rt, predictor.predict(BASE + 4, JALR), BASE + 8);
    check_equal(&rt, predictor.predict(BASE + 0x100, JALR), BASE + 0x40);
    check_equal(&rt, predictor.predict(BASE, BRANCH_FORWARD), BASE + 4);
    Ok(())
}

#[test]
fn plain_predictors_follow_jumps_and_backward_branches(rt: HostRuntime) {
    // A word, and the next pcs without and with backward branches taken.
    const CASES: [(u32, u32, u32); 6] = [
        (NOP, BASE + 4, BASE + 4),
        (0, BASE + 4, BASE + 4),
        (JAL, BASE + 8, BASE + 8),
        (JALR, BASE + 4, BASE + 4),
        (BRANCH_FORWARD, BASE + 4, BASE + 4),
        (BRANCH_BACKWARD, BASE + 4, BASE - 4),
    ];
    for (word, not_taken, backward_taken) in &CASES {
        check_equal_at(&rt, *word, NotTaken.predict(BASE, *word), *not_taken);
        check_equal_at(
            &rt,
            *word,
            BackwardTaken.predict(BASE, *word),
            *backward_taken,
        );
    }
}

// Checks what a predictor of the kind with a name says of the backward branch, and of the forward one once it was taken.
fn check_described(rt: &impl Abort, alloc: Global, name: &str, backward: u32, forward_since: u32) {
    let kind = PredictorKind::named(name).expect(rt, "a kind");
    let mut predictor = DescribedPredictor::new(alloc, kind, 64).expect(rt, "a predictor");
    let answer = predictor.predict(BASE, BRANCH_BACKWARD);
    predictor.learn(BASE, BRANCH_FORWARD, BASE + 8);
    let since = predictor.predict(BASE, BRANCH_FORWARD);
    assert!(rt; (answer, since) == (backward, forward_since), "{name}");
}

#[test]
fn a_described_predictor_answers_and_learns_as_its_kind(rt: HostRuntime) {
    let alloc = rt.alloc();
    check_described(&rt, alloc, "not_taken", BASE + 4, BASE + 4);
    check_described(&rt, alloc, "backward_taken", BASE - 4, BASE + 4);
    check_described(&rt, alloc, "bimodal", BASE + 4, BASE + 8);
}

// RAM with some words at its front.
fn ram_with(rt: &impl Abort, alloc: Global, words: &[u32]) -> Ram {
    let bytes = bytes_of(rt, alloc, words);
    let mut ram = Ram::new(alloc, BASE, 4096, 0).expect(rt, "RAM");
    if bytes.len() <= 4096 {
        ram.load(bytes.as_slice());
    }
    ram
}

// A front that begins with the first word of RAM.
fn new_front(rt: &impl Abort, alloc: Global) -> Front {
    let description = Description::new(Values::standard()).expect(rt, "a legal description");
    Front::new(alloc, &description, BASE).expect(rt, "a front")
}

// The entry of a word, whose instruction is what the word decodes to.
fn entry(pc: u32, word: Option<u32>, predicted: u32, cycle: u64) -> Fetched {
    Fetched {
        pc,
        word,
        instruction: match word {
            Some(word) => Decoded::of(word),
            None => Decoded::none(),
        },
        predicted,
        cycle,
    }
}

// Checks the oldest word that the front holds, and takes it.
fn check_taken(rt: &impl Abort, front: &mut Front, expected: Fetched) {
    let pc = expected.pc;
    let found = front.peek().copied().expect(rt, "a fetched word");
    check_equal_at(rt, pc, found.pc, pc);
    check_equal_at(rt, pc, found.word, expected.word);
    check_equal_at(
        rt,
        pc,
        code_of(*found.instruction.instruction()),
        code_of(*expected.instruction.instruction()),
    );
    check_equal_at(rt, pc, found.predicted, expected.predicted);
    check_equal_at(rt, pc, found.cycle, expected.cycle);
    front.take();
}

// What stops the last of the fetches in some cycles.
fn last_stop(front: &mut Front, ram: &Ram, cycles: u64) -> FetchStop {
    let mut stop = FetchStop::Width;
    for cycle in 0..cycles {
        stop = front.fetch(cycle, ram, &NotTaken);
    }
    stop
}

#[test]
fn fetch_follows_the_predictions_until_the_buffer_is_full(rt: HostRuntime) {
    let ram = ram_with(&rt, rt.alloc(), &[NOP, JAL, NOP, NOP, NOP]);
    let mut front = new_front(&rt, rt.alloc());
    check_true(&rt, front.peek().is_none());
    check_equal(&rt, front.fetch(0, &ram, &NotTaken), FetchStop::Prediction);
    check_equal(&rt, front.fetch(1, &ram, &NotTaken), FetchStop::Width);
    check_taken(&rt, &mut front, entry(BASE, Some(NOP), BASE + 4, 0));
    check_taken(&rt, &mut front, entry(BASE + 4, Some(JAL), BASE + 12, 0));
    check_taken(&rt, &mut front, entry(BASE + 12, Some(NOP), BASE + 16, 1));
    check_equal(&rt, last_stop(&mut front, &ram, 18), FetchStop::Room);
}

// A predictor whose answer is always the same.
#[derive(Drop)]
struct Always {
    next: u32,
}

impl Predictor for Always {
    ghost known = { λ always. guide_by (λ next _ _. next) (λ next _. next) always.next };

    fn predict(&self, _pc: u32, _word: u32) -> u32 {
        self.next
    }

    fn learn(&mut self, _pc: u32, _word: u32, _next: u32) {}
}

#[test]
fn a_prediction_outside_ram_halts_the_fetch_until_a_redirect(rt: HostRuntime) {
    let ram = ram_with(&rt, rt.alloc(), &[NOP, NOP]);
    let mut front = new_front(&rt, rt.alloc());
    let predictor = Always { next: 0xffff_ffff };
    check_equal(&rt, front.fetch(0, &ram, &predictor), FetchStop::Prediction);
    check_equal(&rt, front.fetch(1, &ram, &predictor), FetchStop::Halted);
    check_equal(&rt, front.fetch(2, &ram, &predictor), FetchStop::Halted);
    check_taken(&rt, &mut front, entry(BASE, Some(NOP), 0xffff_fffc, 0));
    check_taken(&rt, &mut front, entry(0xffff_fffc, None, 0, 1));
    check_true(&rt, front.peek().is_none());
    front.redirect(BASE + 4);
    check_equal(&rt, front.fetch(3, &ram, &predictor), FetchStop::Prediction);
    check_taken(&rt, &mut front, entry(BASE + 4, Some(NOP), 0xffff_fffc, 3));
}

// The word of the instruction at a pc, which has none where it is illegal, or None where nothing was fetched.
fn fetched_code(front: &mut Front, ram: &Ram, pc: u32) -> Option<Option<u32>> {
    front.redirect(pc);
    front.fetch(0, ram, &NotTaken);
    match front.peek() {
        Some(fetched) => Some(code_of(*fetched.instruction.instruction())),
        None => None,
    }
}

#[test]
fn fetch_decodes_each_word(rt: HostRuntime) {
    // The word of each instruction; `ecall` stands at the second address.
    const CASES: [(u32, Option<u32>); 3] = [
        (BASE, None),
        (BASE + 4, Some(0x0000_0073)),
        (BASE - 4, None),
    ];
    let ram = ram_with(&rt, rt.alloc(), &[0, 0x0000_0073]);
    let mut front = new_front(&rt, rt.alloc());
    for (pc, code) in &CASES {
        let found = fetched_code(&mut front, &ram, *pc);
        check_equal_at(&rt, *pc, found, Some(*code));
    }
}

// Addresses that are alike in bits 3 to 0 alone share a place of four.
#[test]
fn a_place_goes_by_the_lowest_bits(rt: HostRuntime) -> Result<(), Fail> {
    let mut predictor = Bimodal::new(rt.alloc(), 4)?;
    predictor.learn(BASE, BRANCH_FORWARD, BASE + 8);
    for pc in [0, 0x7fff_fff0, 0xaaaa_aaa0, 0x8000_0010] {
        check_equal_at(&rt, pc, predictor.predict(pc, BRANCH_FORWARD), pc + 8);
    }
    Ok(())
}
