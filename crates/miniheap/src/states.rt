ghost use Rattle.std.specs.Prelude.{ℕ, ◌≡◌, ◌≢◌, ◌<◌, nat_eq, length, get_or, replicate, set, IfOk};
ghost use Rattle.std.specs.Int.{bit_at};
ghost use Rattle.miniheap.specs.declared.place.SlotState.TheVariants.{Free};
ghost use Rattle.miniheap.specs.Marks.{state_of_bit};

use crate::place::SlotState;
use std::alloc::{AllocError, Global};
use std::marker::Model;

// How many slots share a word.
const SLOTS: u32 = 64;

// Which of 64 slots are held, and which are bad: a bit each, of the first slot the lowest one.
#[derive(Clone, Copy)]
struct Marks {
    held: u64,
    bad: u64,
}

/// The state of each slot of a miniheap, in two bits.
#[derive(Drop)]
pub(crate) struct States {
    slots: u32,
    words: Vec<Marks>,
}

impl Model for States {
    ghost use Rattle.std.specs.Prelude.{List};
    ghost use Rattle.miniheap.specs.declared.place.SlotState.{SlotState};

    ghost Value = { List SlotState };

    ghost use Rattle.miniheap.specs.Marks.{states_of, have_words};

    ghost view = { states_of };

    ghost invariant = { have_words };
}

impl States {
    /// So many slots, all of them free.
    pub(crate) fn all_free(alloc: Global, slots: u32) -> Result<States, AllocError>
        ensures { IfOk result (λ states. states ≡ replicate slots Free) }
    {
        let mut words = Vec::new(alloc);
        let count = slots.div_ceil(SLOTS);
        words.resize(count as usize, Marks { held: 0, bad: 0 })?;
        Ok(States { slots, words })
    }

    pub(crate) fn get(&self, nth: u32) -> SlotState
        requires { nth < length self.now }
        ensures { result ≡ get_or self.now nth Free }
    {
        let marks = self.words[(nth / SLOTS) as usize];
        marks.state(nth % SLOTS)
    }

    pub(crate) fn set(&mut self, nth: u32, state: SlotState)
        requires { nth < length self.old }
        ensures { self.new ≡ set self.old nth state }
    {
        let word = (nth / SLOTS) as usize;
        let marks = self.words[word];
        self.words[word] = marks.with(nth % SLOTS, state);
    }
}

impl Marks {
    fn state(self, bit: u32) -> SlotState
        requires { bit < 64 }
        ensures { result ≡ state_of_bit self bit }
    {
        if is_set(self.held, bit) {
            SlotState::Held
        } else if is_set(self.bad, bit) {
            SlotState::Bad
        } else {
            SlotState::Free
        }
    }

    // The same marks, but that one slot has this state.
    fn with(self, bit: u32, state: SlotState) -> Marks
        requires { bit < 64 }
        ensures own { state_of_bit result bit ≡ state }
        ensures others { (i : ℕ) → i < 64 → i ≢ bit → state_of_bit result i ≡ state_of_bit self i }
    {
        match state {
            SlotState::Free => Marks {
                held: cleared(self.held, bit),
                bad: cleared(self.bad, bit),
            },
            SlotState::Held => Marks {
                held: raised(self.held, bit),
                bad: cleared(self.bad, bit),
            },
            SlotState::Bad => Marks {
                held: cleared(self.held, bit),
                bad: raised(self.bad, bit),
            },
        }
    }
}

fn is_set(word: u64, bit: u32) -> bool
    requires { bit < 64 }
    ensures { result ≡ nat_eq (bit_at word bit) 1 }
{
    (word >> bit) & 1 == 1
}

fn raised(word: u64, bit: u32) -> u64
    requires { bit < 64 }
    ensures own { bit_at result bit ≡ 1 }
    ensures others { (i : ℕ) → i < 64 → i ≢ bit → bit_at result i ≡ bit_at word i }
{
    word | (1 << bit)
}

fn cleared(word: u64, bit: u32) -> u64
    requires { bit < 64 }
    ensures own { bit_at result bit ≡ 0 }
    ensures others { (i : ℕ) → i < 64 → i ≢ bit → bit_at result i ≡ bit_at word i }
{
    word & !(1 << bit)
}
