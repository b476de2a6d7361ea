//! The stores and calls that build a child.
ghost use Rattle.std.specs.Prelude.{◌≡◌, ◌≤◌, ◌<◌, ◌+◌, [], ◌∷◌, length, Some};
ghost use Rattle.pip_model.specs.AddVAddr.{add_vaddr};
ghost use Rattle.pip_model.specs.CreatePartition.{create_partition};
ghost use Rattle.pip_model.specs.DeletePartition.{delete_partition};
ghost use Rattle.pip_model.specs.Events as E;
ghost use Rattle.pip_model.specs.Happens.{is_accepted as is_ok};
ghost use Rattle.pip_model.specs.declared.call_name.MemoryCall.TheVariants.{AddVAddr, CreatePartition, DeletePartition};
ghost use Rattle.pip_model.specs.declared.call_name.MemoryCall.TheVariants.{Prepare};
ghost use Rattle.pip_model.specs.Prepare.{prepare};
ghost use Rattle.pip_model.specs.Soak.{five};
ghost use Rattle.pip_model.specs.Worlds.{World, running, runs_on};
ghost use Rattle.pip_model.specs.declared.processors.Occupant.{Occupant};
ghost use Rattle.pip_parent.specs.Events.{MakesEvents, create_event, link_events};
ghost use Rattle.pip_parent.specs.Pool.{first_five};
ghost use Rattle.pip_parent.specs.Stages.{Called, CalledIn, CanLink, is_accepted_reply, link_caches, link_words};

use pip_base::{Outcome, Size, Status, Steps};
use pip_model::Port;
use pip_model::call_number::{ADD_VADDR, CREATE_PARTITION, DELETE_PARTITION, PREPARE};
use std::sync::ledger::Ledger;

/// Word 0 of `stores` pages of the pool, from place `first` on, becomes the address of the next.
pub fn link<P: Port, L: Ledger>(
    port: &mut P,
    cpu: u32,
    pool: &[u32],
    first: usize,
    stores: usize,
    steps: &mut Steps<L>,
)
    requires cpu { cpu < P.count port.old }
    requires within { first + stores < length pool.now }
    ensures linked { (w : World) → P.stands port.old w → (r : Occupant) → runs_on w cpu ≡ Some r →
        CanLink w.tree r.name pool.now first stores → P.stands port.new
        (record w {
          tree = record w.tree { words = link_words w.tree r.name pool.now first stores };
          caches = link_caches w.tree w.caches cpu r.name pool.now first stores;
        }) }
    ensures count { P.count port.new ≡ P.count port.old }
    ensures work { MakesEvents (P.stands port.old) (P.stands port.new)
        (link_events cpu pool.now first stores) steps.old steps.new }
{
    for k in 0..stores {
        port.store(cpu, pool[first + k], Size::Word, pool[first + k + 1], steps);
    }
}

/// The first five pages of the pool become a child.
pub fn create<P: Port, L: Ledger>(port: &mut P, cpu: u32, pool: &[u32], steps: &mut Steps<L>)
    requires cpu { cpu < P.count port.old }
    requires five { 5 ≤ length pool.now }
    ensures called { Called (P.stands port.old) (P.stands port.new) cpu CreatePartition
        (λ t p. create_partition t p (first_five pool.now)) }
    ensures count { P.count port.new ≡ P.count port.old }
    ensures work { MakesEvents (P.stands port.old) (P.stands port.new)
        (create_event cpu pool.now ∷ []) steps.old steps.new }
{
    port.call(
        cpu,
        CREATE_PARTITION,
        &[pool[0], pool[1], pool[2], pool[3], pool[4]],
        steps,
    );
}

/// A chain of pages becomes a table of the child.
pub fn give_table<P: Port, L: Ledger>(
    port: &mut P,
    cpu: u32,
    child: u32,
    va: u32,
    first: u32,
    steps: &mut Steps<L>,
)
    requires cpu { cpu < P.count port.old }
    ensures called { Called (P.stands port.old) (P.stands port.new) cpu Prepare (λ t p. prepare t p child va first) }
    ensures count { P.count port.new ≡ P.count port.old }
    ensures work { MakesEvents (P.stands port.old) (P.stands port.new)
        (E.Call cpu 3 (five child va first 0 0) ∷ []) steps.old steps.new }
{
    port.call(cpu, PREPARE, &[child, va, first, 0, 0], steps);
}

/// A page is lent to the child. Answers whether that was accepted.
pub fn lend_page<P: Port, L: Ledger>(
    port: &mut P,
    cpu: u32,
    page: u32,
    child: u32,
    va: u32,
    rights: u32,
    steps: &mut Steps<L>,
) -> bool
    requires cpu { cpu < P.count port.old }
    ensures called { Called (P.stands port.old) (P.stands port.new) cpu AddVAddr
        (λ t p. add_vaddr t p page child va rights) }
    ensures accepted { (w : World) → P.stands port.old w → (r : Occupant) → runs_on w cpu ≡ Some r →
        result ≡ is_ok (add_vaddr w.tree r.name page child va rights).status }
    ensures count { P.count port.new ≡ P.count port.old }
    ensures work { MakesEvents (P.stands port.old) (P.stands port.new)
        (E.Call cpu 5 (five page child va rights 0) ∷ []) steps.old steps.new }
{
    is_accepted(port.call(cpu, ADD_VADDR, &[page, child, va, rights, 0], steps))
}

/// The child goes again.
pub fn delete<P: Port, L: Ledger>(port: &mut P, cpu: u32, child: u32, steps: &mut Steps<L>)
    requires cpu { cpu < P.count port.old }
    ensures called { CalledIn (P.stands port.old) (P.stands port.new) cpu DeletePartition
        (λ w p. delete_partition w.tree (running w) p child) }
    ensures count { P.count port.new ≡ P.count port.old }
    ensures work { MakesEvents (P.stands port.old) (P.stands port.new)
        (E.Call cpu 1 (five child 0 0 0 0) ∷ []) steps.old steps.new }
{
    port.call(cpu, DELETE_PARTITION, &[child, 0, 0, 0, 0], steps);
}

fn is_accepted(outcome: Outcome) -> bool
    ensures { result ≡ is_accepted_reply outcome }
{
    match outcome {
        Outcome::Reply {
            status: Status::Ok,
            ..
        } => true,
        _ => false,
    }
}
