//! The cell's value, a list of numbers, and the job that appends one.
ghost use Rattle.std.specs.Prelude.{◌≡◌, ◌++◌, [], ◌∷◌, ℕ, Bool, false, IfOk, OnErr, length};

use hub_history::{Chronicle, Job};
use std::alloc::AllocError;

/// A list of numbers, of which none is marked.
#[derive(Drop)]
pub struct Numbers {
    pub items: Vec<u64>,
}

impl Numbers {
    pub fn len(&self) -> usize
        ensures { result ≡ length self.now.items.items }
    {
        self.items.len()
    }
}

impl Chronicle for Numbers {
    type Entry = u64;

    ghost entries_of = { λ s. s.items.items };

    ghost marked = { λ _. false };

    fn entries(&self) -> u64 {
        self.items.len() as u64
    }
}

/// Appends a number that takes so many rounds of arithmetic to make.
#[derive(Drop)]
pub struct Append {
    pub from: u64,
    pub rounds: u64,
}

impl Job<Numbers> for Append {
    type Out = Result<(), AllocError>;

    ghost marks = { λ _. false };

    ghost needs = { λ job before. Unit {0} };

    ghost promises = { λ job before after out. OnErr out (after ≡ before) };

    fn run(self, value: &mut Numbers) -> Result<(), AllocError> {
        let mut number = self.from;
        for _ in 0..self.rounds {
            number = number
                .wrapping_mul(6364136223846793005)
                .wrapping_add(1442695040888963407);
        }
        value.items.push(number)?;
        Ok(())
    }
}
