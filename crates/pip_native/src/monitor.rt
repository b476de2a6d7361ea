//! A monitor keeps its callback together with the fact of what it chooses.
ghost use Rattle.std.specs.Prelude.{◌≡◌, ◌<◌, ◌≤◌, ◌-◌, ◌^◌, length, slice_index};
ghost use Rattle.pip_native.specs.Choice.{AnswersNext};
ghost use Rattle.pip_native.specs.Monitoring.{Children, all_alive, choice, without_child};

use crate::chooser::Chooser;
use arrayvec::ArrayVec;
use std::marker::Model;

/// 1 to 8 children by the addresses of their descriptors, which of them are alive, and the one that was chosen last.
#[derive(Drop)]
pub struct Monitor<F: Chooser> {
    children: ArrayVec<u32, 8>,
    alive: u32,
    last: u32,
    chooser: F,
}

impl<F: Chooser> Model for Monitor<F> {
    ghost Value = { Children };

    ghost view = { λ m. record { children = m.children.items; alive = m.alive; last = m.last } };

    ghost invariant = { λ m. (length m.children.items ≤ 8) × (m.alive < 2 ^ length m.children.items)
        × (m.last < length m.children.items) × AnswersNext (F.may_choose m.chooser) (F.chooses m.chooser)
        (length m.children.items) };
}

impl<F: Chooser> Monitor<F> {
    /// At first all children are alive, and the last of them counts as chosen last. The callback may be asked of all
    /// sets of children and answers the next one that is alive, in their order and round it.
    pub fn new(children: ArrayVec<u32, 8>, chooser: F) -> Monitor<F>
        requires some { 1 ≤ length children.items }
        requires few { length children.items ≤ 8 }
        requires answers { AnswersNext (F.may_choose chooser) (F.chooses chooser) (length children.items) }
        ensures { result ≡ all_alive children.items }
    {
        let n = children.len() as u32;
        Monitor {
            children,
            alive: (1u32 << n) - 1,
            last: n - 1,
            chooser,
        }
    }

    /// The next child that is alive, by the callback; the number of children where none is.
    pub(crate) fn next(&self) -> u32
        ensures same { result ≡ choice self.now }
        ensures small { result ≤ length self.now.children }
    {
        self.chooser.choose(self.alive, self.last)
    }

    /// How many children there are, alive or not.
    pub(crate) fn count(&self) -> u32
        ensures { result ≡ length self.now.children }
    {
        self.children.len() as u32
    }

    /// The address of a child's descriptor, as the parent has it.
    pub(crate) fn child(&self, i: u32) -> u32
        requires { i < length self.now.children }
        ensures { result ≡ slice_index self.now.children i }
    {
        self.children[i as usize]
    }

    /// Child `i` was run.
    pub(crate) fn ran(&mut self, i: u32)
        requires { i < length self.old.children }
        ensures { self.new ≡ record self.old { last = i } }
    {
        self.last = i;
    }

    /// Child `i` was dropped.
    pub(crate) fn dropped(&mut self, i: u32)
        requires { i < length self.old.children }
        ensures { self.new ≡ record self.old { alive = without_child self.old.alive i; last = i } }
    {
        let alive = self.alive;
        self.alive = alive & !(1u32 << i);
        self.last = i;
    }

    /// The children that are alive, bit i for child i.
    pub fn alive(&self) -> u32
        ensures { result ≡ self.now.alive }
    {
        self.alive
    }

    /// The child that was chosen last.
    pub fn last(&self) -> u32
        ensures { result ≡ self.now.last }
    {
        self.last
    }
}
