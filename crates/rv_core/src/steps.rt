ghost use Rattle.std.specs.Prelude.{◌≡◌, ◌≤◌, ℕ, None, Some, [], is_some, ◌∷◌, ◌++◌, vec_capacity, vec_len, ◌<◌};
ghost use Rattle.std.specs.Option.{option_map};
ghost use Rattle.rv_hardware.specs.Retirement.{row_of};
ghost use Rattle.rv_core.specs.Steps.{HasRoom, Takes, listed, room_of};

use crate::head::row_of;
use rv_hardware::Step;
use rv_isa::Reg;
use rv_rob::Entry;

/// What takes the steps of cycles: it counts them, and lists them where it has a list.
#[derive(Drop)]
pub(crate) struct Steps {
    /// The steps in program order, where they are listed.
    pub(crate) list: Option<Vec<Step>>,
    /// How many there were.
    pub(crate) count: u64,
    /// How many of them were traps, breakpoints included.
    pub(crate) traps: u64,
    /// How many were interrupts.
    pub(crate) interrupts: u64,
}

impl Steps {
    /// Lists each step.
    pub(crate) fn listing(list: Vec<Step>) -> Steps
        ensures { result ≡ record { list = Some list; count = 0; traps = 0; interrupts = 0 } }
    {
        Steps {
            list: Some(list),
            count: 0,
            traps: 0,
            interrupts: 0,
        }
    }

    /// Counts the steps alone, of which no row is made.
    pub(crate) fn counting() -> Steps
        ensures { result ≡ record { list = None; count = 0; traps = 0; interrupts = 0 } }
    {
        Steps {
            list: None,
            count: 0,
            traps: 0,
            interrupts: 0,
        }
    }

    /// Forgets the steps so far.
    pub(crate) fn clear(&mut self)
        ensures none { listed self.new ≡ [] }
        ensures count { self.new.count ≡ 0 }
        ensures traps { self.new.traps ≡ 0 }
        ensures interrupts { self.new.interrupts ≡ 0 }
        ensures kept { is_some self.new.list ≡ is_some self.old.list }
        ensures capacity { room_of self.new ≡ room_of self.old }
        ensures room { 8 ≤ room_of self.old → HasRoom self.new 8 }
    {
        self.count = 0;
        self.traps = 0;
        self.interrupts = 0;
        if let Some(list) = &mut self.list {
            list.clear();
        }
    }

    /// The steps, where they are listed.
    pub(crate) fn as_slice(&self) -> &[Step]
        ensures { result.now ≡ listed self.now }
    {
        match &self.list {
            Some(list) => list.as_slice(),
            None => &[],
        }
    }

    /// Takes a step.
    pub(crate) fn take(&mut self, step: Step)
        requires { HasRoom self.old 1 }
        ensures { Takes self.old self.new (step ∷ []) }
    {
        self.count += 1;
        match step {
            Step::Retired(_) => {}
            Step::Trap { .. } => self.traps += 1,
            Step::Interrupt { .. } => self.interrupts += 1,
        }
        if let Some(list) = &mut self.list {
            append(list, step);
        }
    }

    /// Takes the row of an instruction that retires with a value. It is made where it is listed alone.
    pub(crate) fn take_row(&mut self, entry: &Entry, target: Option<Reg>, value: u32, cycle: u64)
        requires { HasRoom self.old 1 }
        ensures { Takes self.old self.new
            (row_of entry.now (option_map (λ (register : ℕ). (register, value)) target) cycle ∷ []) }
    {
        self.count += 1;
        if let Some(list) = &mut self.list {
            append(list, row_of(entry, written_by(target, value), cycle));
        }
    }
}

// The write of a value to an instruction's target, if it has one.
fn written_by(target: Option<Reg>, value: u32) -> Option<(Reg, u32)>
    ensures { result ≡ option_map (λ (register : ℕ). (register, value)) target }
{
    match target {
        Some(register) => Some((register, value)),
        None => None,
    }
}

// Over any type, since at `Step` itself the checker has no proof for a push.
fn append<T: Copy>(items: &mut Vec<T>, item: T)
    requires { vec_len items.old < vec_capacity items.old }
    ensures items { items.new.items ≡ items.old.items ++ item ∷ [] }
    ensures capacity { vec_capacity items.new ≡ vec_capacity items.old }
{
    items.push_reserved(item);
}
