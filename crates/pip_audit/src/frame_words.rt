//! Arrays of a word per frame.
ghost use Rattle.std.specs.Prelude.{◌≡◌, ℕ, ◌<◌, IfOk, length, slice_index_or};
ghost use Rattle.pip_audit.specs.FrameWords.{AreFrameWords, HasWordEach, word_held};
ghost use Rattle.pip_audit.specs.Given.{Holds, held_or};

use std::alloc::{AllocError, Global};

/// A word for each frame of a memory.
#[derive(Drop)]
pub(crate) struct FrameWords {
    pub words: Vec<u32>,
}

/// The arrays that an audit needs.
#[derive(Drop)]
pub(crate) struct Words {
    /// Per MMU table: 1 + a first shadow known to mark no descriptor in a row of it; 0 if none is known.
    pub quiet: FrameWords,
    /// Per page: the rights that all rows of a parent give to it.
    pub rights: FrameWords,
    /// Per page: its word in the first shadows of a node.
    pub given: FrameWords,
    /// Per page: its word in the second shadows of a node's children.
    pub above: FrameWords,
}

impl Words {
    /// Zeros, for a memory of `n` frames.
    pub(crate) fn new(alloc: Global, n: usize) -> Result<Words, AllocError>
        ensures { IfOk result (AreFrameWords n) }
    {
        Ok(Words {
            quiet: FrameWords::new(alloc, n)?,
            rights: FrameWords::new(alloc, n)?,
            given: FrameWords::new(alloc, n)?,
            above: FrameWords::new(alloc, n)?,
        })
    }
}

impl FrameWords {
    // Zeros, for a memory of `n` frames.
    fn new(alloc: Global, n: usize) -> Result<FrameWords, AllocError>
        ensures { IfOk result (HasWordEach n) }
    {
        Ok(FrameWords {
            words: vec![in alloc; 0; n]?,
        })
    }

    /// Holds one word for each frame.
    pub(crate) fn fill(&mut self, word: u32)
        ensures words { (f : ℕ) → slice_index_or self.new.words.items f word ≡ word }
        ensures room { length self.new.words.items ≡ length self.old.words.items }
    {
        self.words.fill(word);
    }

    /// The word that is held for a frame.
    pub(crate) fn at(&self, f: u32) -> u32
        requires { f < length self.now.words.items }
        ensures { result ≡ word_held self.now f }
    {
        self.words[f as usize]
    }

    /// Holds a word for a frame.
    pub(crate) fn hold(&mut self, f: u32, word: u32)
        requires { f < length self.old.words.items }
        ensures words { Holds f word self.old self.new }
        ensures room { length self.new.words.items ≡ length self.old.words.items }
    {
        self.words[f as usize] = word;
    }

    /// Holds a word for a frame, unless it has one that isn't 0.
    pub(crate) fn hold_if_none(&mut self, f: u32, word: u32)
        requires { f < length self.old.words.items }
        ensures words { Holds f (held_or word (word_held self.old f)) self.old self.new }
        ensures room { length self.new.words.items ≡ length self.old.words.items }
    {
        if self.words[f as usize] == 0 {
            self.words[f as usize] = word;
        }
    }
}
