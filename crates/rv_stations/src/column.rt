ghost use Rattle.std.specs.Prelude.{true, ◌≡◌, ◌<◌, ◌≤◌, ◌+◌, ◌%◌, Some, length};
ghost use Rattle.std.specs.Prelude.{map, replicate, slice_get, slice_set, IfOk};
ghost use Rattle.rv_stations.specs.declared.lanes.TheConstants.{NO_PRODUCER as NO_PRODUCER_TAG};
ghost use Rattle.rv_stations.specs.declared.waiting.Operand.TheVariants.{Value as HeldValue};
ghost use Rattle.rv_stations.specs.Waiting.{IsOperand, has_value, woken_operand};
ghost use Rattle.std.specs.Option.{option_map};
ghost use Rattle.rv_stations.specs.Column.{IsWaitMask, in_eight, operand_of};

use crate::lanes::{self, NO_PRODUCER};
use crate::marks::{first_eight, marked, without_eight};
use crate::waiting::Operand;
use std::alloc::{AllocError, Global};
use std::marker::Model;

/// An operand of each place of a kind's stations, the tags and the values in lists of their own.
#[derive(Drop)]
pub struct OperandColumn {
    tags: Vec<u64>,
    values: Vec<u64>,
    /// A bit for each operand, set where it waits for its producer.
    waiting: u64,
}

impl Model for OperandColumn {
    ghost use Rattle.std.specs.Prelude.{List};
    ghost use Rattle.rv_stations.specs.declared.waiting.Operand.{Operand as AnOperand};

    ghost Value = { List AnOperand };

    ghost use Rattle.rv_stations.specs.ColumnFields.{operands, IsSoundColumn};

    ghost view = { operands };

    ghost invariant = { IsSoundColumn };
}

impl OperandColumn {
    /// Operands that all have the value 0.
    pub fn new(alloc: Global, len: usize) -> Result<Self, AllocError>
        requires few { len ≤ 64 }
        requires eights { len % 8 ≡ 0 }
        ensures { IfOk result (λ column. column ≡ replicate len (HeldValue 0)) }
    {
        Ok(OperandColumn {
            tags: vec![in alloc; NO_PRODUCER; len]?,
            values: vec![in alloc; 0; len]?,
            waiting: 0,
        })
    }

    /// Writes the operand of a place.
    #[inline(always)]
    pub fn put(&mut self, place: usize, operand: Operand)
        requires within { place < length self.old }
        requires in_range { IsOperand operand }
        ensures { self.new ≡ slice_set self.old place operand }
    {
        match operand {
            Operand::Value(value) => self.put_parts(place, NO_PRODUCER, u64::from(value)),
            Operand::Tag(tag) => self.put_parts(place, tag, 0),
        }
    }

    #[inline(always)]
    fn put_parts(&mut self, place: usize, tag: u64, value: u64)
        requires { place < length self.old }
        ensures { self.new ≡ slice_set self.old place (operand_of tag value) }
    {
        self.tags[place] = tag;
        self.values[place] = value;
        self.waiting = marked(self.waiting, place, lanes::is_producer(tag));
    }

    /// The operand of a place that has its value.
    #[inline(always)]
    pub fn value_at(&self, place: usize) -> Operand
        requires there { place < length self.now }
        requires ready { option_map has_value (slice_get self.now place) ≡ Some true }
        ensures { slice_get self.now place ≡ Some result }
    {
        Operand::Value((self.values[place] % 0x1_0000_0000) as u32)
    }

    /// A bit for each operand, set where it waits.
    #[inline(always)]
    pub fn waiting(&self) -> u64
        ensures { IsWaitMask self.now result }
    {
        self.waiting
    }

    /// Gives each operand whose tag is a sequence number the value of its producer.
    #[inline(always)]
    pub fn wake(&mut self, seq: u64, value: u32)
        ensures { self.new ≡ map (woken_operand seq value) self.old }
    {
        // Mostly none waits.
        if self.waiting != 0 {
            self.wake_waiting(seq, value);
        }
    }

    #[inline(never)]
    fn wake_waiting(&mut self, seq: u64, value: u32)
        ensures { self.new ≡ map (woken_operand seq value) self.old }
    {
        let waiting = self.waiting;
        if seq != NO_PRODUCER {
            self.wake_groups(waiting, seq, value);
        }
    }

    // Wakes those groups of eight operands in which one waits.
    #[inline(always)]
    fn wake_groups(&mut self, waiting: u64, seq: u64, value: u32)
        requires waiting { IsWaitMask self.old waiting }
        requires producer { seq ≡ NO_PRODUCER_TAG → ⊥ }
        ensures { self.new ≡ map (woken_operand seq value) self.old }
    {
        let mut left = waiting;
        while left != 0 {
            let start = first_eight(left);
            if self.len() <= start {
                return;
            }
            self.wake_eight(start, seq, value);
            left = without_eight(left, start);
        }
    }

    #[inline(always)]
    fn len(&self) -> usize
        ensures len { result ≡ length self.now }
        ensures few { result ≤ 64 }
        ensures eights { result % 8 ≡ 0 }
    {
        self.tags.len()
    }

    #[inline(always)]
    fn wake_eight(&mut self, start: usize, seq: u64, value: u32)
        requires within { start + 8 ≤ length self.old }
        requires producer { seq ≡ NO_PRODUCER_TAG → ⊥ }
        ensures { self.new ≡ in_eight start (map (woken_operand seq value)) self.old }
    {
        let like = lanes::like_from(start, self.tags.as_slice(), seq);
        // Most broadcasts are of a producer for which none of the eight waits.
        if like == 0 {
            return;
        }
        let woken = lanes::wake_from(
            start,
            self.tags.as_mut_slice(),
            self.values.as_mut_slice(),
            like,
            seq,
            u64::from(value),
        );
        self.waiting = self.waiting & !(woken << start);
    }
}
