//! What `merge` writes at its end.
ghost use Rattle.std.specs.Prelude.{◌≡◌, ◌≢◌, ◌≤◌, ◌++◌, [], None, codes, decimal, flat_map, length};
ghost use Rattle.pip_io.specs.Writes.{Writes, WritesOut};
ghost use Rattle.pip_model.specs.Text.{line_text};
ghost use Rattle.pip_certificates.specs.Seen.{label_texts, merging_of};
ghost use Rattle.pip_command_contracts.specs.EndsBy.{EndsWithResponse};
ghost use Rattle.pip_command_contracts.specs.Streams.{EndsLine};
ghost use Rattle.pip_certificates.specs.MergeDues.{about_line, bad_numbered, fault_status, fault_text};
ghost use Rattle.pip_certificates.specs.MergeDues.{label_line};
ghost use Rattle.pip_certificates.specs.MergeDues.{merge_response, merged_front, merged_text, uneven_text};

use crate::parts::{MergeFault, Merger, Uneven};
use arrayvec::ArrayString;
use pip_command_contracts::{Ended, end_with, push_decimal};
use pip_every::write_verdict;
use pip_io::{Failed, Sink, write_all};
use pip_search::Extent;

/// Ends where all lines could be merged: with what they say, or with the line that says why that isn't all.
pub fn end_merged<K: Sink>(merger: &Merger, sink: &mut K) -> Ended
    ensures wrote { EndsWithResponse (merge_response (merging_of merger.now)) result.status (K.history sink.old)
        (K.history sink.new) }
    ensures no_faults { result.status ≢ 4 → (K.history sink.new).faults ≡ (K.history sink.old).faults }
    ensures none { result.machine ≡ None }
    ensures flushed { result.status ≢ 4 → (K.history sink.new).written.buffered ≡ [] }
{
    if !merger.begins() {
        return end_with(sink, b"no start\n", 9);
    }
    if !merger.is_whole() {
        return end_with(sink, uneven_line(merger.uneven()), 9);
    }
    match write_merged(merger, sink) {
        Ok(()) => Ended::with_status(0),
        Err(_) => Ended::with_status(4),
    }
}

// The line that names what there isn't as much of as the parts say.
fn uneven_line(what: Uneven) -> &'static [u8]
    ensures { result.now ≡ line_text (uneven_text what) }
{
    match what {
        Uneven::Keys => b"apart keys\n",
        Uneven::Asks => b"apart asks\n",
        Uneven::Labels => b"apart labels\n",
    }
}

// Writes what the parts are of, each label, and the last line, and flushes.
fn write_merged<K: Sink>(merger: &Merger, sink: &mut K) -> Result<(), Failed>
    ensures { WritesOut K.history sink.old sink.new result (merged_text (merging_of merger.now)) }
{
    write_front(merger, sink)?;
    let depth = merger.deepest();
    write_verdict(sink, merger.states(), Extent::Closed { depth })?;
    sink.flush()
}

// Writes what the parts are of, and each label.
fn write_front<K: Sink>(merger: &Merger, sink: &mut K) -> Result<(), Failed>
    ensures { Writes K.history sink.old sink.new result (merged_front (merging_of merger.now)) }
{
    write_about(merger.about(), sink)?;
    write_labels(merger.labels(), sink)
}

// Writes the line of what the parts are of.
fn write_about<K: Sink>(about: &[u8], sink: &mut K) -> Result<(), Failed>
    ensures { Writes K.history sink.old sink.new result (about_line about.now) }
{
    write_all(sink, b"image ")?;
    write_all(sink, about)?;
    write_all(sink, b"\n")
}

// Writes the lines of labels.
fn write_labels<K: Sink>(labels: &[Vec<u8>], sink: &mut K) -> Result<(), Failed>
    ensures { Writes K.history sink.old sink.new result (flat_map label_line (label_texts labels.now)) }
{
    for k in 0..labels.len() {
        write_label(labels[k].as_slice(), sink)?;
    }
    Ok(())
}

fn write_label<K: Sink>(label: &[u8], sink: &mut K) -> Result<(), Failed>
    ensures { Writes K.history sink.old sink.new result (label_line label.now) }
{
    write_all(sink, b"line")?;
    write_all(sink, label)?;
    write_all(sink, b"\n")
}

/// Ends at line `number`, the first that can't be merged, which reads so.
pub fn end_broken<K: Sink>(number: u64, line: &[u8], fault: MergeFault, sink: &mut K) -> Ended
    ensures wrote { EndsLine (fault_status fault) (fault_text number line.now fault) result.status (K.history sink.old)
        (K.history sink.new) }
    ensures no_faults { result.status ≢ 4 → (K.history sink.new).faults ≡ (K.history sink.old).faults }
    ensures none { result.machine ≡ None }
    ensures flushed { result.status ≢ 4 → (K.history sink.new).written.buffered ≡ [] }
{
    match fault {
        MergeFault::Form => end_with(sink, bad_line(number, "form").as_str().as_bytes(), 2),
        MergeFault::Order => end_with(sink, bad_line(number, "order").as_str().as_bytes(), 2),
        MergeFault::Many => end_with(sink, bad_line(number, "many").as_str().as_bytes(), 2),
        MergeFault::Open => end_at_key(b"open ", line, sink),
        MergeFault::Twice => end_at_key(b"twice ", line, sink),
        MergeFault::Apart => end_with(sink, apart_line(number).as_str().as_bytes(), 9),
    }
}

// Ends with a word and the line of a key.
fn end_at_key<K: Sink>(word: &[u8], line: &[u8], sink: &mut K) -> Ended
    ensures wrote { EndsLine 9 (line_text (word.now ++ line.now)) result.status (K.history sink.old)
        (K.history sink.new) }
    ensures no_faults { result.status ≢ 4 → (K.history sink.new).faults ≡ (K.history sink.old).faults }
    ensures none { result.machine ≡ None }
    ensures flushed { result.status ≢ 4 → (K.history sink.new).written.buffered ≡ [] }
{
    if write_two(word, line, sink).is_err() {
        return Ended::with_status(4);
    }
    end_with(sink, b"\n", 9)
}

fn write_two<K: Sink>(first: &[u8], second: &[u8], sink: &mut K) -> Result<(), Failed>
    ensures { Writes K.history sink.old sink.new result (first.now ++ second.now) }
{
    write_all(sink, first)?;
    write_all(sink, second)
}

// `bad line`, its number, what is wrong with it, and a newline.
fn bad_line(number: u64, kind: &str) -> ArrayString<64>
    requires { length kind.now ≤ 10 }
    ensures { result.bytes ≡ bad_numbered number kind.now }
{
    let mut text = ArrayString::new();
    text.push_str("bad line ");
    push_decimal(&mut text, number);
    text.push_str(" ");
    text.push_str(kind);
    text.push_str("\n");
    text
}

// `apart`, a number and a newline.
fn apart_line(number: u64) -> ArrayString<64>
    ensures { result.bytes ≡ line_text (codes "apart " ++ decimal number) }
{
    let mut text = ArrayString::new();
    text.push_str("apart ");
    push_decimal(&mut text, number);
    text.push_str("\n");
    text
}
