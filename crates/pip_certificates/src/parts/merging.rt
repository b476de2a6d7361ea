//! Lines of parts, merged one after another.
ghost use Rattle.std.specs.Prelude.{◌≡◌, [], ◌∷◌, ◌++◌, IfOk, Some};
ghost use Rattle.pip_certificates.specs.Merges.{asked_after, asked_to, counted, has_labels, is_alike, is_at_keys};
ghost use Rattle.pip_certificates.specs.Merges.{is_whole};
ghost use Rattle.pip_certificates.specs.Merges.{label_order, merge_entry, no_merging, own_after, part_after};
ghost use Rattle.pip_certificates.specs.Merges.{uneven_of};
ghost use Rattle.pip_certificates.specs.Merges.{with_asked, with_label, with_own, with_shown, with_told_part};
ghost use Rattle.pip_certificates.specs.Entries.{Shows, entry_of, number_list};
ghost use Rattle.pip_certificates.specs.Seen.{GivesMerge, label_texts, merged_keys_of, merged_parts_of};
ghost use Rattle.pip_certificates.specs.Seen.{merged_shown_of};
ghost use Rattle.pip_certificates.specs.Seen.{merging_of};

use crate::parts::faults::{MergeError, MergeFault, Uneven};
use crate::parts::lines::{PartLine, PartNumbers, read_line};
use crate::parts::sums::{label_sum, sum_and};
use std::alloc::{AllocError, Global};
use std::cmp::Ordering;

/// The keys so far: the last one that a part has, with its depth, how many there are, the greatest depth, how many were
/// asked, and the depth of the last line that asks the last key, 0 if none does.
#[derive(Drop)]
pub struct KeyRun {
    key: Vec<u8>,
    depth: u32,
    states: u64,
    deepest: u32,
    asked: u64,
    latest: u32,
}

/// The lines of labels so far, of which some may be equal: how many, and their sum.
#[derive(Drop)]
pub struct LabelRun {
    count: u64,
    sum: u32,
}

/// The parts so far: what they are of, how many there are, whether one begins with the first key, the numbers of the
/// last one, how many keys they say that they have and ask, how many labels, and the sum of these.
#[derive(Drop)]
pub struct PartRun {
    about: Vec<u8>,
    count: u64,
    begins: bool,
    latest: PartNumbers,
    keys: u64,
    asked: u64,
    labels: u64,
    sum: u32,
}

/// What was merged so far. It holds one key, and each label once.
#[derive(Drop)]
pub struct Merger {
    keys: KeyRun,
    labels: Vec<Vec<u8>>,
    shown: LabelRun,
    parts: PartRun,
}

// A count and some more.
fn counted(n: u64, more: u64) -> Result<u64, MergeFault>
    ensures { result ≡ counted n more }
{
    match n.checked_add(more) {
        Some(sum) => Ok(sum),
        None => Err(MergeFault::Many),
    }
}

// Makes bytes those of a text.
fn put(bytes: &mut Vec<u8>, text: &[u8]) -> Result<(), AllocError>
    ensures { IfOk result (λ _. bytes.new.items ≡ text.now) }
{
    bytes.clear();
    bytes.extend_from_slice(text)?;
    Ok(())
}

impl KeyRun {
    // Whether a key comes after the last one, and isn't the same.
    fn comes_after(&self, key: &[u8]) -> Result<(), MergeFault>
        ensures { result ≡ own_after (merged_keys_of self.now) key.now }
    {
        if self.states == 0 {
            return Ok(());
        }
        match self.key.as_slice().cmp(key) {
            Ordering::Less => Ok(()),
            Ordering::Equal => Err(MergeFault::Twice),
            Ordering::Greater => Err(MergeFault::Order),
        }
    }

    // Takes a key of a part.
    fn own(&mut self, key: &[u8], depth: u32) -> Result<(), MergeError>
        ensures { GivesMerge result (merged_keys_of self.new) (with_own (merged_keys_of self.old) key.now depth) }
    {
        self.comes_after(key)?;
        let states = counted(self.states, 1)?;
        put(&mut self.key, key)?;
        self.depth = depth;
        self.states = states;
        self.deepest = self.deepest.max(depth);
        self.latest = 0;
        Ok(())
    }

    // Whether the last key may be asked to this depth next: it is no deeper, and no line before asks it deeper.
    fn is_asked_to(&self, depth: u32) -> Result<(), MergeFault>
        ensures { result ≡ asked_to (merged_keys_of self.now) depth }
    {
        if depth < self.latest {
            return Err(MergeFault::Order);
        }
        if self.depth > depth {
            return Err(MergeFault::Open);
        }
        Ok(())
    }

    // Whether a key may be asked next: it is the last one.
    fn is_asked_after(&self, key: &[u8], depth: u32) -> Result<(), MergeFault>
        ensures { result ≡ asked_after (merged_keys_of self.now) key.now depth }
    {
        if self.states == 0 {
            return Err(MergeFault::Open);
        }
        match self.key.as_slice().cmp(key) {
            Ordering::Less => Err(MergeFault::Open),
            Ordering::Equal => self.is_asked_to(depth),
            Ordering::Greater => Err(MergeFault::Order),
        }
    }

    // Takes a key that a part asks.
    fn asks(&mut self, key: &[u8], depth: u32) -> Result<(), MergeError>
        ensures { GivesMerge result (merged_keys_of self.new) (with_asked (merged_keys_of self.old) key.now depth) }
    {
        self.is_asked_after(key, depth)?;
        let asked = counted(self.asked, 1)?;
        self.asked = asked;
        self.latest = depth;
        Ok(())
    }
}

impl LabelRun {
    // Counts a line of a label.
    fn add(&mut self, text: &[u8]) -> Result<(), MergeError>
        ensures { GivesMerge result (merged_shown_of self.new) (with_shown (merged_shown_of self.old) text.now) }
    {
        let count = counted(self.count, 1)?;
        self.count = count;
        self.sum = sum_and(self.sum, label_sum(text));
        Ok(())
    }
}

impl PartNumbers {
    // All of them, in their order.
    fn listed(&self) -> [u32; 5]
        ensures { result ≡ number_list self.now }
    {
        [self.way, self.keys, self.asked, self.labels, self.sum]
    }
}

impl PartRun {
    // Whether a part is of what those before it are of.
    fn is_alike(&self, about: &[u8]) -> bool
        ensures { result ≡ is_alike (merged_parts_of self.now) about.now }
    {
        self.count == 0 || self.about.as_slice() == about
    }

    // Whether numbers come after those of the last part, or are the same.
    fn comes_after(&self, numbers: &PartNumbers) -> Result<(), MergeFault>
        ensures { result ≡ part_after (merged_parts_of self.now) numbers.now }
    {
        if self.count == 0 {
            return Ok(());
        }
        let (latest, next) = (self.latest.listed(), numbers.listed());
        match latest.as_slice().cmp(next.as_slice()) {
            Ordering::Greater => Err(MergeFault::Order),
            Ordering::Less | Ordering::Equal => Ok(()),
        }
    }

    // Takes what a part says of itself.
    fn add(&mut self, about: &[u8], numbers: &PartNumbers) -> Result<(), MergeError>
        ensures { GivesMerge result (merged_parts_of self.new)
            (with_told_part (merged_parts_of self.old) about.now numbers.now) }
    {
        if !self.is_alike(about) {
            return Err(MergeError::Fault(MergeFault::Apart));
        }
        self.comes_after(numbers)?;
        let count = counted(self.count, 1)?;
        let keys = counted(self.keys, u64::from(numbers.keys))?;
        let asked = counted(self.asked, u64::from(numbers.asked))?;
        let labels = counted(self.labels, u64::from(numbers.labels))?;
        put(&mut self.about, about)?;
        self.count = count;
        self.begins = self.begins || numbers.way == 0;
        self.latest = *numbers;
        self.keys = keys;
        self.asked = asked;
        self.labels = labels;
        self.sum = sum_and(self.sum, numbers.sum);
        Ok(())
    }
}

// How a label is ordered after the last one, if there is one.
fn order_after(labels: &[Vec<u8>], text: &[u8]) -> Ordering
    ensures { result ≡ label_order (label_texts labels.now) text.now }
{
    if labels.is_empty() {
        return Ordering::Less;
    }
    let last = &labels[labels.len() - 1];
    last.as_slice().cmp(text)
}

// Adds a copy of a text.
fn push_text(alloc: Global, labels: &mut Vec<Vec<u8>>, text: &[u8]) -> Result<(), AllocError>
    ensures { IfOk result (λ _. label_texts labels.new.items ≡ label_texts labels.old.items ++ text.now ∷ []) }
{
    let mut own = Vec::with_capacity(alloc, text.len())?;
    own.extend_from_slice(text)?;
    labels.push(own)?;
    Ok(())
}

// Takes a label.
fn add_label(alloc: Global, labels: &mut Vec<Vec<u8>>, text: &[u8]) -> Result<(), MergeError>
    ensures { GivesMerge result (label_texts labels.new.items) (with_label (label_texts labels.old.items) text.now) }
{
    match order_after(labels, text) {
        Ordering::Less => {
            push_text(alloc, labels, text)?;
            Ok(())
        }
        Ordering::Equal => Ok(()),
        Ordering::Greater => Err(MergeError::Fault(MergeFault::Order)),
    }
}

impl Merger {
    /// Nothing was merged.
    pub fn new(alloc: Global) -> Merger
        ensures { merging_of result ≡ no_merging }
    {
        Merger {
            keys: KeyRun {
                key: Vec::new(alloc),
                depth: 0,
                states: 0,
                deepest: 0,
                asked: 0,
                latest: 0,
            },
            labels: Vec::new(alloc),
            shown: LabelRun { count: 0, sum: 0 },
            parts: PartRun {
                about: Vec::new(alloc),
                count: 0,
                begins: false,
                latest: PartNumbers {
                    way: 0,
                    keys: 0,
                    asked: 0,
                    labels: 0,
                    sum: 0,
                },
                keys: 0,
                asked: 0,
                labels: 0,
                sum: 0,
            },
        }
    }

    /// Takes the next line, its newline left off. After an error nothing is said of what was merged.
    pub fn take(&mut self, alloc: Global, line: &[u8]) -> Result<(), MergeError>
        ensures { GivesMerge result (merging_of self.new) (merge_entry (merging_of self.old) (entry_of line.now)) }
    {
        match read_line(line) {
            None => Err(MergeError::Fault(MergeFault::Form)),
            Some(PartLine::Own { key, depth }) if self.is_at_keys() => self.keys.own(key, depth),
            Some(PartLine::Asks { key, depth }) if self.is_at_keys() => self.keys.asks(key, depth),
            Some(PartLine::Own { .. } | PartLine::Asks { .. }) => Err(MergeError::Fault(
                MergeFault::Order,
            )),
            Some(PartLine::Shows { text }) => self.shows(alloc, text),
            Some(PartLine::Tells { about, numbers }) => self.parts.add(about, &numbers),
        }
    }

    // Whether a key may come: no label and no part has come.
    fn is_at_keys(&self) -> bool
        ensures { result ≡ is_at_keys (merging_of self.now) }
    {
        self.shown.count == 0 && self.parts.count == 0
    }

    // Takes a label.
    fn shows(&mut self, alloc: Global, text: &[u8]) -> Result<(), MergeError>
        ensures { GivesMerge result (merging_of self.new) (merge_entry (merging_of self.old) (Some (Shows text.now))) }
    {
        if self.parts.count > 0 {
            return Err(MergeError::Fault(MergeFault::Order));
        }
        add_label(alloc, &mut self.labels, text)?;
        self.shown.add(text)
    }

    /// Whether there are as many keys, as many asked and as many labels as the parts say, which are theirs, and one
    /// part begins with the first key.
    pub fn is_whole(&self) -> bool
        ensures { result ≡ is_whole (merging_of self.now) }
    {
        self.parts.begins
            && self.keys.states == self.parts.keys
            && self.keys.asked == self.parts.asked
            && self.has_labels()
    }

    // Whether the labels are those of the parts.
    fn has_labels(&self) -> bool
        ensures { result ≡ has_labels (merging_of self.now) }
    {
        self.shown.count == self.parts.labels && self.shown.sum == self.parts.sum
    }

    /// The first of which there isn't as much as the parts say, where the merge isn't whole, and begins.
    pub fn uneven(&self) -> Uneven
        ensures { result ≡ uneven_of (merging_of self.now) }
    {
        if self.keys.states != self.parts.keys {
            return Uneven::Keys;
        }
        if self.keys.asked != self.parts.asked {
            return Uneven::Asks;
        }
        Uneven::Labels
    }

    /// What the parts are of, nothing where there is none.
    pub fn about(&self) -> &[u8]
        ensures { result.now ≡ (merging_of self.now).parts.about }
    {
        self.parts.about.as_slice()
    }

    /// Whether a part begins with the first key.
    pub fn begins(&self) -> bool
        ensures { result ≡ (merging_of self.now).parts.begins }
    {
        self.parts.begins
    }

    /// How many keys the parts have.
    pub fn states(&self) -> u64
        ensures { result ≡ (merging_of self.now).keys.states }
    {
        self.keys.states
    }

    /// How many choices lead to the deepest of them.
    pub fn deepest(&self) -> u32
        ensures { result ≡ (merging_of self.now).keys.deepest }
    {
        self.keys.deepest
    }

    /// What choices show, each once, in order.
    pub fn labels(&self) -> &[Vec<u8>]
        ensures { label_texts result.now ≡ (merging_of self.now).labels }
    {
        self.labels.as_slice()
    }
}
