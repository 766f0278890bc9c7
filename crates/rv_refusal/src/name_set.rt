ghost use Rattle.std.specs.Prelude.{◌≡◌, ◌||◌, ℕ, List, OnOk, IfOk, map, false};
ghost use Rattle.std.specs.Str.{bytes_eq};
ghost use Rattle.rv_refusal.specs.NameSet.{holds, is_one_of};

use std::alloc::{AllocError, Global};
use std::collections::BTreeMap;

/// Names, in which one is found quickly.
#[derive(Drop)]
pub(crate) struct NameSet<'a> {
    rows: BTreeMap<&'a [u8], ()>,
}

impl<'a> NameSet<'a> {
    /// No names.
    pub(crate) fn new(alloc: Global) -> Self
        ensures { (other : List ℕ) → holds result other ≡ false }
    {
        NameSet {
            rows: BTreeMap::new(alloc),
        }
    }

    /// Whether a name is among them.
    pub(crate) fn has(&self, name: &[u8]) -> bool
        ensures { result ≡ holds self.now name.now }
    {
        self.rows.contains_key(name)
    }

    // Adds a name.
    fn add(&mut self, name: &'a [u8]) -> Result<(), AllocError>
        ensures { OnOk result ((other : List ℕ) →
            holds self.new other ≡ (holds self.old other || bytes_eq other name.entry.now)) }
    {
        self.rows.insert(name, ())?;
        Ok(())
    }

    /// These names.
    pub(crate) fn of(alloc: Global, names: &[&'a [u8]]) -> Result<Self, AllocError>
        ensures { IfOk result (λ set. holds set ≡ is_one_of (map (λ name. name.now) names.now)) }
    {
        let mut set = NameSet::new(alloc);
        for name in names {
            set.add(name)?;
        }
        Ok(set)
    }
}
