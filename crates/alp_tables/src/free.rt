//! Numbers that are taken or free: slots of the directory, rows of owners, home places.
ghost use Rattle.std.specs.Prelude.{◌≡◌, ◌<◌, ◌≤◌, ◌^◌, ℕ, true, false, length, replicate, ◌++◌, ◌-◌, IfOk, IfSome, IsNone, slice_index_or, slice_set};
ghost use Rattle.alp_tables.specs.Bits.{Stays, count_set};

use crate::bits::Bits;
use alp_base::OutOfMemory;
use std::alloc::Global;
use std::marker::Model;

/// Which numbers are taken; seen as the list of flags.
#[derive(Drop)]
pub struct Free {
    taken: Bits,
    /// No number below is free.
    lowest: u32,
    /// How many are taken.
    count: u32,
    ghost few: { length taken < 2 ^ 32 },
    ghost counted: { count ≡ count_set taken },
    ghost hint: { (p : ℕ) → p < lowest → slice_index_or taken p true ≡ true },
    ghost within: { lowest ≤ length taken },
}

impl Model for Free {
    ghost use Rattle.std.specs.Prelude.{Bool, List};

    ghost Value = { List Bool };

    ghost view = { λ f. f.taken };
}

impl Free {
    /// So many numbers, all of them free.
    pub fn new(alloc: Global, count: u32) -> Result<Free, OutOfMemory>
        ensures { IfOk result (λ f. f ≡ replicate count false) }
    {
        let taken = Bits::new(alloc, count)?;
        Ok(Free {
            taken,
            lowest: 0,
            count: 0,
        })
    }

    /// So many numbers, of which the first are taken and the others free.
    pub fn behind(alloc: Global, first: u32, count: u32) -> Result<Free, OutOfMemory>
        requires { first ≤ count }
        ensures { IfOk result (λ f. f ≡ replicate first true ++ replicate (count - first) false) }
    {
        let mut free = Free::new(alloc, count)?;
        for number in 0..first {
            let _ = free.mark(number);
        }
        Ok(free)
    }

    /// How many numbers there are.
    pub fn len(&self) -> usize
        ensures { result ≡ length self.now }
    {
        self.taken.len() as usize
    }

    /// How many are taken.
    pub fn taken(&self) -> u32
        ensures { result ≡ count_set self.now }
    {
        self.count
    }

    /// Takes the number, unless it is taken or none of these.
    pub fn mark(&mut self, number: u32) -> bool
        ensures yes { result ≡ true → (slice_index_or self.old number true ≡ false) × (self.new ≡ slice_set self.old number true) }
        ensures no { result ≡ false → (slice_index_or self.old number true ≡ true) × (self.new ≡ self.old) }
        ensures long { length self.new ≡ length self.old }
        ensures stay { Stays self.old self.new }
    {
        if self.is_taken(number) {
            return false;
        }
        self.taken.set(number);
        self.count += 1;
        true
    }

    // The lowest number that is free.
    fn lowest_free(&self) -> Option<u32>
        ensures within { IfSome result (λ p. p < length self.now) }
        ensures free { IfSome result (λ p. slice_index_or self.now p true ≡ false) }
        ensures lowest { IfSome result (λ p. (q : ℕ) → q < p → slice_index_or self.now q true ≡ true) }
        ensures full { IsNone result → (q : ℕ) → slice_index_or self.now q true ≡ true }
    {
        self.taken.first_clear(self.lowest)
    }

    /// Takes the lowest number that is free.
    pub fn take(&mut self) -> Option<u32>
        ensures free { IfSome result (λ p. slice_index_or self.old p true ≡ false) }
        ensures lowest { IfSome result (λ p. (q : ℕ) → q < p → slice_index_or self.old q true ≡ true) }
        ensures taken { IfSome result (λ p. self.new ≡ slice_set self.old p true) }
        ensures full { IsNone result → (q : ℕ) → slice_index_or self.old q true ≡ true }
        ensures same { IsNone result → self.new ≡ self.old }
    {
        let number = self.lowest_free()?;
        self.taken.set(number);
        self.lowest = number;
        self.count += 1;
        Some(number)
    }

    /// Frees a number.
    pub fn release(&mut self, number: u32)
        requires { number < length self.old }
        ensures { self.new ≡ slice_set self.old number false }
    {
        if self.taken.is_set(number) {
            self.count -= 1;
        }
        self.taken.clear(number);
        if number < self.lowest {
            self.lowest = number;
        }
    }

    /// Whether the number is taken, or none of these.
    pub fn is_taken(&self, number: u32) -> bool
        ensures { result ≡ slice_index_or self.now number true }
    {
        self.taken.is_set(number)
    }
}
