//! The text of one partition.
ghost use Rattle.std.specs.Prelude.{◌≡◌, ℕ, ◌+◌, ◌*◌, ◌<◌, List, MatchResult, length, flat_map};
ghost use Rattle.pip_io.specs.Causes.{HasCause};
ghost use Rattle.pip_io.specs.Taken.{AppendsPart, Taken, Wrote};
ghost use Rattle.pip_model.specs.Dump.{depth_of, head_text, part_text, row_text};
ghost use Rattle.pip_model.specs.Partitions.{HasPartition, InEach};
ghost use Rattle.pip_model.specs.Tree.{Node, Tree};
ghost use Rattle.pip_dump.specs.Tables.{AreGiven, AreLeaves, RowsLeft};

use crate::line::{Head, part_line, push_row};
use crate::place::WalkPlace;
use crate::tables::{count_words, table_words};
use arrayvec::ArrayString;
use pip_base::{Frame, Steps, VPage};
use pip_entry::descriptor::{SELF_VA, TABLES};
use pip_frames::Frames;
use pip_io::{Failed, Sink, write_all};
use pip_kern::parent_of;
use pip_model::Level;
use pip_space::next_tables;
use pip_table::first_index;
use std::sync::ledger::Ledger;

/// How many rows a partition has.
pub(crate) fn count_rows<M: Frames, L: Ledger>(mem: &M, part: Frame, steps: &mut Steps<L>) -> u32
    requires { HasPartition (M.memory mem.now) part }
    ensures { InEach (M.memory mem.now) part (λ t x. result ≡ length x.rows) }
{
    let mut from = 0;
    let mut count = 0;
    while let Some(i) = next_tables(mem, part, from, steps) {
        count += count_words(table_words(mem, part, Level::Mmu, i, steps));
        from = i + 1;
    }
    count
}

// The line of a partition.
fn head_line<M: Frames, L: Ledger>(
    mem: &M,
    place: &WalkPlace,
    steps: &mut Steps<L>,
) -> ArrayString<128>
    requires { HasPartition (M.memory mem.now) place.now.part }
    ensures { InEach (M.memory mem.now) place.now.part (λ t x. place.now.depth ≡ depth_of t x →
        result.bytes ≡ head_text t x) }
{
    let part = place.part;
    let up = parent_of(mem, part, steps);
    let born = mem.word(part, SELF_VA, steps);
    let tables = mem.word(part, TABLES, steps);
    let rows = count_rows(mem, part, steps);
    part_line(&Head {
        name: part.number(),
        depth: place.depth,
        up: up.number(),
        born,
        tables,
        rows,
    })
}

// Writes the lines of the rows in the tables of directory index `i`, by the words of its MMU table and of its first
// shadow.
fn table_text<K: Sink>(
    i: u32,
    leaves: &[u32; 1024],
    given: &[u32; 1024],
    sink: &mut K,
) -> Result<(), Failed>
    requires { i < 1024 }
    ensures text { (t : Tree) (x : Node) (old : Taken) (whole : List ℕ) → AreLeaves t x i leaves.now → AreGiven t x i
        given.now → RowsLeft t x (1024 * i) old (K.history sink.old).written whole → MatchResult result
        (λ _. RowsLeft t x (1024 * i + 1024) old (K.history sink.new).written whole)
        (λ _. AppendsPart old (K.history sink.new).written whole) }
    ensures cause { HasCause (K.history sink.old).faults (K.history sink.new).faults result }
{
    let mut line = ArrayString::new();
    let mut from = 0;
    while let Some(j) = first_index(leaves, from) {
        line.clear();
        push_row(
            &mut line,
            VPage::new(1024 * i + j),
            leaves[j as usize],
            given[j as usize],
        );
        write_all(sink, line.as_bytes())?;
        from = j + 1;
    }
    Ok(())
}

// Writes the lines of a partition's rows.
fn rows_text<M: Frames, K: Sink, L: Ledger>(
    mem: &M,
    part: Frame,
    sink: &mut K,
    steps: &mut Steps<L>,
) -> Result<(), Failed>
    requires { HasPartition (M.memory mem.now) part }
    ensures text { InEach (M.memory mem.now) part
        (λ t x. Wrote result (K.history sink.old).written (K.history sink.new).written
        (flat_map (row_text t x) x.rows)) }
    ensures cause { HasCause (K.history sink.old).faults (K.history sink.new).faults result }
{
    let mut from = 0;
    while let Some(i) = next_tables(mem, part, from, steps) {
        let leaves = table_words(mem, part, Level::Mmu, i, steps);
        let given = table_words(mem, part, Level::Shadow1, i, steps);
        table_text(i, leaves, given, sink)?;
        from = i + 1;
    }
    Ok(())
}

/// Writes the line of a partition and those of its rows.
pub(crate) fn part_text<M: Frames, K: Sink, L: Ledger>(
    mem: &M,
    place: &WalkPlace,
    sink: &mut K,
    steps: &mut Steps<L>,
) -> Result<(), Failed>
    requires { HasPartition (M.memory mem.now) place.now.part }
    ensures text { InEach (M.memory mem.now) place.now.part
        (λ t x. place.now.depth ≡ depth_of t x → Wrote result (K.history sink.old).written (K.history sink.new).written
        (part_text t x)) }
    ensures cause { HasCause (K.history sink.old).faults (K.history sink.new).faults result }
{
    write_all(sink, head_line(mem, place, steps).as_bytes())?;
    rows_text(mem, place.part, sink, steps)
}
