ghost use Rattle.std.specs.Prelude.{◌≡◌, ◌⊎◌, Ok, Err, IfOk, IfErr};
ghost use Rattle.std.specs.Borrow.{sem};

use crate::operations::Kind;
use std::alloc::AllocError;

/// What there is for each of the four kinds of unit.
#[derive(Clone, Copy, Drop)]
pub struct PerKind<T> {
    pub alu: T,
    pub mul: T,
    pub div: T,
    pub mem: T,
}

impl<T: Drop> PerKind<T> {
    /// The parts of the four kinds, where there was memory for each. The error is that of one of the four, which was
    /// refused memory.
    pub fn try_new(
        alu: Result<T, AllocError>,
        mul: Result<T, AllocError>,
        div: Result<T, AllocError>,
        mem: Result<T, AllocError>,
    ) -> Result<PerKind<T>, AllocError>
        ensures made { IfOk result (λ parts. (alu ≡ Ok parts.alu) × (mul ≡ Ok parts.mul) × (div ≡ Ok parts.div)
            × (mem ≡ Ok parts.mem)) }
        ensures refused { IfErr result (λ e. (alu ≡ Err e) ⊎ ((mul ≡ Err e) ⊎ ((div ≡ Err e) ⊎ (mem ≡ Err e)))) }
    {
        Ok(PerKind {
            alu: alu?,
            mul: mul?,
            div: div?,
            mem: mem?,
        })
    }
}

impl<T> PerKind<T> {
    ghost use Rattle.rv_isa.specs.PerKind.{at_kind, LendsKind};

    /// The part of a kind.
    pub fn get(&self, kind: Kind) -> &T
        ensures { result.now ≡ at_kind kind self.now }
    {
        match kind {
            Kind::Alu => &self.alu,
            Kind::Mul => &self.mul,
            Kind::Div => &self.div,
            Kind::Mem => &self.mem,
        }
    }

    /// The part of a kind, to write to.
    pub fn get_mut(&mut self, kind: Kind) -> &mut T
        ensures* writes_back { sem 𝓛 (LendsKind T.row self.entry kind result) }
        ensures value { result.now ≡ at_kind kind self.old }
    {
        match kind {
            Kind::Alu => &mut self.alu,
            Kind::Mul => &mut self.mul,
            Kind::Div => &mut self.div,
            Kind::Mem => &mut self.mem,
        }
    }
}
