//! A system whose keys are as long as a test wants, of blocks that are alike or not.
ghost use Rattle.std.specs.Prelude.{◌≡◌, ℕ, ◌++◌, IfOk, replicate, slice_index};
ghost use Rattle.pip_test_every.specs.Rows.{next_number, key_of_two, rows};

use pip_search::System;
use std::alloc::AllocError;

/// Two numbers up to a last one. A key has each as often as its width says. Each choice counts one of them up.
#[derive(Drop)]
pub struct Rows {
    pub last: u32,
    pub first: u32,
    pub second: u32,
}

// The word at a place, or 0.
fn word_at(words: &[u32], place: u32) -> u32
    ensures { result ≡ slice_index words.now place }
{
    let place = place as usize;
    if place < words.len() { words[place] } else { 0 }
}

// Counts one up, and to 0 after the last.
fn next(last: u32, word: u32) -> u32
    ensures { result ≡ next_number last word }
{
    if word < last { word + 1 } else { 0 }
}

// Adds a word as often as its width says.
fn push_times(words: &mut Vec<u32>, width: u32, word: u32) -> Result<(), AllocError>
    ensures { IfOk result (λ x. words.new.items ≡ words.old.items ++ replicate width word) }
{
    for i in 0..width {
        words.push(word)?;
    }
    Ok(())
}

impl Rows {
    /// Makes a key of two numbers.
    pub fn fill(&self, first: u32, second: u32, key: &mut Vec<u32>) -> Result<(), AllocError>
        ensures { IfOk result (λ x. key.new.items ≡ key_of_two self.now.first self.now.second first second) }
    {
        key.clear();
        push_times(key, self.first, first)?;
        push_times(key, self.second, second)?;
        Ok(())
    }
}

impl System for Rows {
    ghost Base = { ℕ × (ℕ × ℕ) };

    ghost base = { λ s. (s.last, (s.first, s.second)) };

    ghost model = { rows };

    fn count(&self) -> u32 {
        2
    }

    fn seed(&self) -> u64 {
        0x5ca1ab1e
    }

    fn make(
        &mut self,
        from: &[u32],
        choice: u32,
        to: &mut Vec<u32>,
        shown: &mut Vec<u8>,
    ) -> Result<(), AllocError> {
        shown.clear();
        let first = word_at(from, 0);
        let second = word_at(from, self.first);
        if choice == 0 {
            self.fill(next(self.last, first), second, to)?;
        } else {
            self.fill(first, next(self.last, second), to)?;
        }
        Ok(())
    }
}
