//! The load on a machine.
ghost use Rattle.std.specs.Prelude.{◌≡◌, ◌≢◌, ◌*◌, ◌^◌, ◌<◌, ◌≤◌, [], ◌∷◌};
ghost use Rattle.pip_base.specs.declared.types.Size.TheVariants.{Word};
ghost use Rattle.pip_model.specs.Events as E;
ghost use Rattle.pip_model.specs.Happens.{after, outcomes, event};
ghost use Rattle.pip_model.specs.Soak.{soak_events, soak_stores};
ghost use Rattle.pip_model.specs.Worlds.{World};
ghost use Rattle.pip_soak.specs.Asks.{AreAsksOf, IsAskOf, event_of, events_of};
ghost use Rattle.pip_soak.specs.Counts.{CountsOf, MakesAll};

use crate::asks::{Ask, LoadStep, make_event};
use crate::counts::Counts;
use crate::draws::draw_step;
use pip_base::{Size, Steps};
use pip_model::Port;
use pip_model::call_number::PREPARE;
use pip_script::Generator;
use std::sync::ledger::Ledger;

// Makes an event and counts its outcome.
#[inline(always)]
fn make<P: Port, L: Ledger>(port: &mut P, ask: Ask, counts: &mut Counts, steps: &mut Steps<L>)
    requires { IsAskOf (P.count port.old) ask }
    ensures makes { MakesAll (P.stands port.old) (P.stands port.new) counts.old counts.new (event_of ask ∷ []) }
    ensures count { P.count port.new ≡ P.count port.old }
{
    let outcome = make_event(port, ask, steps);
    counts.add(outcome);
}

// Makes the events of a step, one by one.
fn make_step<P: Port, L: Ledger>(
    port: &mut P,
    step: LoadStep,
    counts: &mut Counts,
    steps: &mut Steps<L>,
)
    requires { AreAsksOf (P.count port.old) step }
    ensures makes { MakesAll (P.stands port.old) (P.stands port.new) counts.old counts.new (events_of step) }
    ensures count { P.count port.new ≡ P.count port.old }
{
    match step {
        LoadStep::One(ask) => make(port, ask, counts, steps),
        LoadStep::Prepare {
            cpu,
            x,
            page,
            place,
        } => {
            let linked = x + 4096;
            let last = x + 8192;
            let args = [page, place, x, 0, 0];
            make(
                port,
                Ask::Store {
                    cpu,
                    va: x,
                    word: linked,
                },
                counts,
                steps,
            );
            make(
                port,
                Ask::Store {
                    cpu,
                    va: linked,
                    word: last,
                },
                counts,
                steps,
            );
            make(
                port,
                Ask::Call {
                    cpu,
                    no: PREPARE,
                    args,
                },
                counts,
                steps,
            );
        }
    }
}

// Writes a word on processor 0.
fn store<P: Port, L: Ledger>(port: &mut P, va: u32, word: u32, steps: &mut Steps<L>)
    requires { 2 ≤ P.count port.old }
    ensures worlds { (w : World) → P.stands port.old w → P.stands port.new (event w (E.Store 0 va Word word)).world }
    ensures count { P.count port.new ≡ P.count port.old }
{
    port.store(0, va, Size::Word, word, steps);
}

// Makes the stores that come before the load: entries of the root's handler table, and of one that a child may get.
fn make_stores<P: Port, L: Ledger>(port: &mut P, steps: &mut Steps<L>)
    requires { 2 ≤ P.count port.old }
    ensures worlds { (w : World) → P.stands port.old w → P.stands port.new (after w soak_stores) }
    ensures count { P.count port.new ≡ P.count port.old }
{
    store(port, 0xffff_f038, 0xffff_f400, steps);
    store(port, 0xffff_f080, 0xffff_f400, steps);
    store(port, 0xffff_f084, 0xffff_f400, steps);
    store(port, 0xffff_f100, 0xffff_f400, steps);
    store(port, 0x410100, 0xffff_f400, steps);
    store(port, 0xffff_f0fc, 0xffff_f444, steps);
    store(port, 0x4100fc, 0xffff_f444, steps);
}

/// Makes the load of `count` steps that the number `seed` draws (docs/FORMATS.md, "soak"), after seven stores that are
/// not counted, and counts the outcomes. `seed` is not 0; the machine has two processors at least. For every world that
/// the machine stands for, these are the counts of the model's outcomes from there, and it stands for the model's last
/// world.
pub fn soak_load<P: Port, L: Ledger>(
    port: &mut P,
    count: u32,
    seed: u32,
    steps: &mut Steps<L>,
) -> Counts
    requires processors { 2 ≤ P.count port.old }
    requires count { 3 * count < 2 ^ 32 }
    requires seed { seed ≢ 0 }
    ensures counts { (w : World) → P.stands port.old w → CountsOf result
        (outcomes (after w soak_stores) (soak_events count seed)) }
    ensures worlds { (w : World) → P.stands port.old w → P.stands port.new
        (after (after w soak_stores) (soak_events count seed)) }
    ensures count { P.count port.new ≡ P.count port.old }
{
    make_stores(port, steps);
    let mut generator = Generator::new(seed);
    let mut counts = Counts::new();
    for _i in 0..count {
        let step = draw_step(&mut generator);
        make_step(port, step, &mut counts, steps);
    }
    counts
}
