//! Flags in words.
ghost use Rattle.std.specs.Prelude.{◌≡◌, ◌<◌, ◌≤◌, ◌*◌, ◌/◌, ◌%◌, ◌^◌, ℕ, true, false, length, replicate, IfOk, IfSome, IsNone, slice_index_or, slice_set};
ghost use Rattle.std.specs.Int.{bit_at};
ghost use Rattle.alp_tables.specs.Bits.{flag_in};

use alp_base::OutOfMemory;
use std::alloc::Global;
use std::marker::Model;

/// So many flags, 32 in a word; seen as the list of them.
#[derive(Drop)]
pub struct Bits {
    words: Vec<u32>,
    len: u32,
    ghost room: { len ≤ 32 * length words.items },
    ghost few: { length words.items ≤ 2 ^ 27 },
}

impl Model for Bits {
    ghost use Rattle.std.specs.Prelude.{Bool, List};
    ghost use Rattle.alp_tables.specs.Bits.{flags_of};

    ghost Value = { List Bool };

    ghost view = { λ b. flags_of b.words.items b.len };
}

fn with_bit(word: u32, bit: u32) -> u32
    requires { bit < 32 }
    ensures own { bit_at result bit ≡ 1 }
    ensures others { (i : ℕ) → i < 32 → (i ≡ bit → ⊥) → bit_at result i ≡ bit_at word i }
{
    word | 1 << bit
}

fn without_bit(word: u32, bit: u32) -> u32
    requires { bit < 32 }
    ensures own { bit_at result bit ≡ 0 }
    ensures others { (i : ℕ) → i < 32 → (i ≡ bit → ⊥) → bit_at result i ≡ bit_at word i }
{
    word & !(1 << bit)
}

// The first bit that is not set.
fn clear_bit(word: u32) -> Option<u32>
    ensures clear { IfSome result (λ t. (t < 32) × (bit_at word t ≡ 0)) }
    ensures lowest { IfSome result (λ t. (i : ℕ) → i < t → bit_at word i ≡ 1) }
    ensures full { IsNone result → (i : ℕ) → i < 32 → bit_at word i ≡ 1 }
{
    if word == u32::MAX {
        return None;
    }
    Some(word.trailing_ones())
}

// The first flag that is not set, where all in front of a word are.
fn first_clear(words: &[u32], from: usize) -> Option<u32>
    requires before { (p : ℕ) → p < 32 * from → flag_in words.now p ≡ true }
    requires few { length words.now ≤ 2 ^ 27 }
    ensures clear { IfSome result (λ p. flag_in words.now p ≡ false) }
    ensures lowest { IfSome result (λ p. (q : ℕ) → q < p → flag_in words.now q ≡ true) }
    ensures full { IsNone result → (q : ℕ) → q < 32 * length words.now → flag_in words.now q ≡ true }
{
    for at in from..words.len() {
        if let Some(bit) = clear_bit(words[at]) {
            return Some(32 * at as u32 + bit);
        }
    }
    None
}

impl Bits {
    /// So many flags, none of them set.
    pub fn new(alloc: Global, len: u32) -> Result<Bits, OutOfMemory>
        ensures { IfOk result (λ b. b ≡ replicate len false) }
    {
        let mut words = Vec::new(alloc);
        words.resize((len / 32) as usize + 1, 0)?;
        Ok(Bits { words, len })
    }

    /// How many there are.
    pub fn len(&self) -> u32
        ensures { result ≡ length self.now }
    {
        self.len
    }

    /// Whether a flag is set, or none of these.
    pub fn is_set(&self, at: u32) -> bool
        ensures { result ≡ slice_index_or self.now at true }
    {
        if at >= self.len {
            return true;
        }
        let word = self.words[(at / 32) as usize];
        (word >> (at % 32)) & 1 == 1
    }

    /// Sets a flag.
    pub fn set(&mut self, at: u32)
        requires { at < length self.old }
        ensures { self.new ≡ slice_set self.old at true }
    {
        let word = (at / 32) as usize;
        self.words[word] = with_bit(self.words[word], at % 32);
    }

    /// Clears a flag.
    pub fn clear(&mut self, at: u32)
        requires { at < length self.old }
        ensures { self.new ≡ slice_set self.old at false }
    {
        let word = (at / 32) as usize;
        self.words[word] = without_bit(self.words[word], at % 32);
    }

    /// The first flag that is not set, where all before that one are.
    pub fn first_clear(&self, from: u32) -> Option<u32>
        requires within { from ≤ length self.now }
        requires before { (p : ℕ) → p < from → slice_index_or self.now p true ≡ true }
        ensures within { IfSome result (λ p. p < length self.now) }
        ensures clear { IfSome result (λ p. slice_index_or self.now p true ≡ false) }
        ensures lowest { IfSome result (λ p. (q : ℕ) → q < p → slice_index_or self.now q true ≡ true) }
        ensures full { IsNone result → (q : ℕ) → slice_index_or self.now q true ≡ true }
    {
        let at = first_clear(&self.words, (from / 32) as usize)?;
        if at >= self.len {
            return None;
        }
        Some(at)
    }
}
