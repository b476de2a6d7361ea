//! A machine that counts the events that are made on it.

use pip_base::{Ctx, Outcome, Size, Steps};
use pip_model::{Port, Register};
use std::sync::ledger::Ledger;

/// A port to which each call is handed on, and how many calls there were modulo 2^32, but for those that only look.
#[derive(Drop)]
pub struct Counting<P: Port> {
    port: P,
    events: u32,
}

impl<P: Port> Counting<P> {
    /// No event was made yet.
    pub fn new(port: P) -> Counting<P> {
        Counting { port, events: 0 }
    }

    /// How many events were made.
    pub fn events(&self) -> u32 {
        self.events
    }
}

impl<P: Port> Port for Counting<P> {
    ghost stands = { λ p w. P.stands p.port w };

    ghost count = { λ p. P.count p.port };

    ghost world = { λ p. P.world p.port };

    ghost sound = { λ p w s. P.sound p.port w s };

    fn cpus(&self) -> u32 {
        self.port.cpus()
    }

    fn load<L: Ledger>(&mut self, cpu: u32, va: u32, size: Size, steps: &mut Steps<L>) -> Outcome {
        self.events = self.events.wrapping_add(1);
        self.port.load(cpu, va, size, steps)
    }

    fn store<L: Ledger>(
        &mut self,
        cpu: u32,
        va: u32,
        size: Size,
        word: u32,
        steps: &mut Steps<L>,
    ) -> Outcome {
        self.events = self.events.wrapping_add(1);
        self.port.store(cpu, va, size, word, steps)
    }

    fn fetch<L: Ledger>(&mut self, cpu: u32, steps: &mut Steps<L>) -> Outcome {
        self.events = self.events.wrapping_add(1);
        self.port.fetch(cpu, steps)
    }

    fn trap<L: Ledger>(
        &mut self,
        cpu: u32,
        vector: u32,
        a: u32,
        b: u32,
        steps: &mut Steps<L>,
    ) -> Outcome {
        self.events = self.events.wrapping_add(1);
        self.port.trap(cpu, vector, a, b, steps)
    }

    fn call<L: Ledger>(
        &mut self,
        cpu: u32,
        no: u32,
        args: &[u32; 5],
        steps: &mut Steps<L>,
    ) -> Outcome {
        self.events = self.events.wrapping_add(1);
        self.port.call(cpu, no, args, steps)
    }

    fn raise<L: Ledger>(&mut self, line: u32, steps: &mut Steps<L>) {
        self.events = self.events.wrapping_add(1);
        self.port.raise(line, steps);
    }

    fn poll<L: Ledger>(&mut self, cpu: u32, steps: &mut Steps<L>) -> Outcome {
        self.events = self.events.wrapping_add(1);
        self.port.poll(cpu, steps)
    }

    fn ctx(&self, cpu: u32) -> Option<&Ctx> {
        self.port.ctx(cpu)
    }

    fn set_pc(&mut self, cpu: u32, pc: u32) {
        self.events = self.events.wrapping_add(1);
        self.port.set_pc(cpu, pc);
    }

    fn set_register(&mut self, cpu: u32, register: Register, word: u32, pc: u32) {
        self.events = self.events.wrapping_add(1);
        self.port.set_register(cpu, register, word, pc);
    }

    fn set_ctx(&mut self, cpu: u32, c: &Ctx) {
        self.events = self.events.wrapping_add(1);
        self.port.set_ctx(cpu, c);
    }

    fn peek<L: Ledger>(&self, frame: u32, index: u32, steps: &mut Steps<L>) -> Option<u32> {
        self.port.peek(frame, index, steps)
    }
}
