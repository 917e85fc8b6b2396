ghost use Rattle.std.specs.Prelude.{ℕ, ◌≡◌, ◌+◌};
ghost use Rattle.miniheap.specs.WordList.{after, word_from, word_of, canary_of, HasSpent};

use rand_core::utils::NextWord;
use rand_pcg::Lcg64Xsh32;
use std::marker::Model;

/// The words of a seed, the successive 32-bit outputs of PCG32 with the seed as its state and
/// stream 0. Word 0 makes the canary, and draws spend the words from word 1 on.
#[derive(Drop)]
pub struct Words {
    canary: u32,
    generator: Lcg64Xsh32,
}

impl Model for Words {
    ghost use Rattle.miniheap.specs.WordList.{WordList};

    ghost Value = { WordList };

    ghost view = { λ a. record { canary = a.canary; generator = a.generator } };
}

impl Words {
    /// The words of a seed, none of them spent.
    pub fn new(seed: u64) -> Words
        ensures { HasSpent result seed 0 }
    {
        let mut generator = Lcg64Xsh32::new(seed, 0);
        let canary = generator.next_word() | 1;
        Words { canary, generator }
    }

    /// The canary, four bytes with the lowest first: word 0 with bit 0 set.
    pub fn canary(&self) -> u32
        ensures { (seed spent : ℕ) → HasSpent self.now seed spent → result ≡ canary_of seed }
    {
        self.canary
    }

    /// The next word that isn't spent, which is then spent.
    pub fn next(&mut self) -> u32
        ensures word { (seed spent : ℕ) → HasSpent self.old seed spent → result ≡ word_of seed (spent + 1) }
        ensures spends { (seed spent : ℕ) → HasSpent self.old seed spent → HasSpent self.new seed (spent + 1) }
    {
        self.step()
    }

    // The same, in terms of the generator alone.
    pub(crate) fn step(&mut self) -> u32
        ensures word { result ≡ word_from self.old.generator 0 }
        ensures spends { self.new ≡ record self.old { generator = after self.old.generator 1 } }
    {
        self.generator.next_word()
    }
}
