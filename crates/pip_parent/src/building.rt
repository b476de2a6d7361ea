//! Building a child.
ghost use Rattle.std.specs.Prelude.{◌≡◌, ◌≤◌, ◌<◌, ◌+◌, [], ◌∷◌, ◌++◌, false, length, MatchResult, ℕ};
ghost use Rattle.pip_model.specs.Worlds.{World};
ghost use Rattle.pip_model.specs.declared.processors.Occupant.{Occupant};
ghost use Rattle.pip_parent.specs.Seen.{CountsTakenWithTable, CountsTaken};
ghost use Rattle.pip_parent.specs.Contract.{Builds, RefusesToBuild};
ghost use Rattle.pip_parent.specs.Events.{MakesEvents, build_events, lend_event, table_events};
ghost use Rattle.pip_parent.specs.Stages.{IsBuilder, Meets, tabled_world, value_of, world_before};
ghost use Rattle.pip_parent.specs.Wants.{is_bad as bad, need as needed, place as place_in};

use crate::built::{BuildError, Built};
use crate::calls::{create, delete, give_table, lend_page, link};
use crate::taken::Taken;
use crate::wants::{Want, first_bad, need};
use pip_base::Steps;
use pip_model::{Port, lists};
use std::sync::ledger::Ledger;

/// Builds a child for what runs on processor `cpu`: makes it of the pool's first five pages, and meets the wants in
/// their order, each by a table of the next pages where it is the first in its directory, and by the page after them,
/// which is lent. It takes `need(wants)` pages. There are at most 4096 wants.
///
/// At each address of the pool, none of which comes twice, the caller has a free page with the rights READ and WRITE.
/// Otherwise only `Want` and `Short` are promised, and nothing of the child. Which events are made, and that they take
/// no more steps than they may, is promised in any case.
pub fn build<P: Port, L: Ledger>(
    port: &mut P,
    cpu: u32,
    pool: &[u32],
    wants: &[Want],
    steps: &mut Steps<L>,
) -> Result<Built, BuildError>
    requires cpu { cpu < P.count port.old }
    requires few { length wants.now ≤ 4096 }
    ensures build { MatchResult result (λ b. Builds (P.stands port.old) (P.stands port.new) cpu pool.now wants.now b)
        (λ e. RefusesToBuild (P.stands port.old) (P.stands port.new) cpu pool.now wants.now e) }
    ensures count { P.count port.new ≡ P.count port.old }
    ensures work { MakesEvents (P.stands port.old) (P.stands port.new)
        (build_events result cpu pool.now wants.now) steps.old steps.new }
{
    if let Some(i) = first_bad(wants) {
        return Err(BuildError::Want(i));
    }
    let needed = need(wants);
    if pool.len() < needed as usize {
        return Err(BuildError::Short {
            have: pool.len() as u32,
            need: needed,
        });
    }
    create(port, cpu, pool, steps);
    let mut taken = Taken::first();
    for i in 0..wants.len() {
        if !meet(port, cpu, pool, wants, i, &mut taken, steps) {
            delete(port, cpu, pool[0], steps);
            return Err(BuildError::NoRight(i as u32));
        }
    }
    Ok(Built {
        child: pool[0],
        used: taken.pages as u32,
    })
}

// Meets want i: it has its table, and its page is lent. False where the caller lacks a right to the page.
fn meet<P: Port, L: Ledger>(
    port: &mut P,
    cpu: u32,
    pool: &[u32],
    wants: &[Want],
    i: usize,
    taken: &mut Taken,
    steps: &mut Steps<L>,
) -> bool
    requires cpu { cpu < P.count port.old }
    requires few { length wants.now ≤ 4096 }
    requires low { i < length wants.now }
    requires room { needed wants.now ≤ length pool.now }
    requires fits { (j : ℕ) → j < length wants.now → bad wants.now j ≡ false }
    requires taken { CountsTaken taken.old wants.now i }
    ensures met { Meets (P.stands port.old) (P.stands port.new) cpu pool.now wants.now i result }
    ensures taken { CountsTaken taken.new wants.now (i + 1) }
    ensures count { P.count port.new ≡ P.count port.old }
    ensures work { MakesEvents (P.stands port.old) (P.stands port.new)
        (table_events cpu pool.now wants.now i ++ lend_event cpu pool.now wants.now i ∷ []) steps.old steps.new }
{
    let page = open_table(port, cpu, pool, wants, i, taken, steps);
    taken.pages = page + 1;
    lend_page(
        port,
        cpu,
        pool[page],
        pool[0],
        wants[i].va,
        wants[i].rights,
        steps,
    )
}

// Opens the table for want i, where it is the first in its directory: the pages for it, each of which names the next in
// its first word. Answers the place of the want's own page in the pool.
fn open_table<P: Port, L: Ledger>(
    port: &mut P,
    cpu: u32,
    pool: &[u32],
    wants: &[Want],
    i: usize,
    taken: &mut Taken,
    steps: &mut Steps<L>,
) -> usize
    requires cpu { cpu < P.count port.old }
    requires few { length wants.now ≤ 4096 }
    requires low { i < length wants.now }
    requires room { needed wants.now ≤ length pool.now }
    requires fits { (j : ℕ) → j < length wants.now → bad wants.now j ≡ false }
    requires taken { CountsTaken taken.old wants.now i }
    ensures place { result ≡ place_in wants.now i }
    ensures tabled { (w : World) (r : Occupant) → IsBuilder w cpu r pool.now →
        P.stands port.old (world_before w cpu r pool.now wants.now i) →
        P.stands port.new (tabled_world w cpu r pool.now wants.now i 0 (value_of wants.now i)) }
    ensures taken { CountsTakenWithTable taken.new wants.now i }
    ensures count { P.count port.new ≡ P.count port.old }
    ensures work { MakesEvents (P.stands port.old) (P.stands port.new)
        (table_events cpu pool.now wants.now i) steps.old steps.new }
{
    let first = taken.pages;
    if !taken.directories.opens(wants, i) {
        return first;
    }
    let stores = (2 + (lists(taken.tables + 1) - lists(taken.tables))) as usize;
    link(port, cpu, pool, first, stores, steps);
    give_table(port, cpu, pool[0], wants[i].va, pool[first], steps);
    taken.tables += 1;
    first + stores + 1
}
