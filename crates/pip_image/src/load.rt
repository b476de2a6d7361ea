//! The pages of an image, into memory.
ghost use Rattle.std.specs.Prelude.{ℕ, ◌≡◌, ◌<◌, ◌≤◌, [], length, IfErr, MatchResult, OnOk, Some, is_some, true};
ghost use Rattle.pip_model.specs.Boot.{boot_tree, frame_of_root};
ghost use Rattle.pip_model.specs.Images.{has_row};
ghost use Rattle.pip_model.specs.Layout.{LaysOut};
ghost use Rattle.pip_model.specs.Tree.{Tree};
ghost use Rattle.pip_io.specs.Moments.{joined};
ghost use Rattle.pip_io.specs.Pacing.{MayRead};
ghost use Rattle.pip_image.specs.Coming.{coming, IsAfter};
ghost use Rattle.pip_image.specs.Loading.{AreWords, Loads, LoadsAll, LoadsUpTo, with_page};
ghost use Rattle.pip_image.specs.Pacing.{IsFaultless};
ghost use Rattle.pip_image.specs.Reading.{IsFaultWithin};

use crate::header::Header;
use crate::reader::JointReader;
use pip_base::{Frame, VPage, WORDS};
use pip_frames::Frames;
use pip_io::{Joint, Sink, Source};
use pip_model::{ImageError, root_frame};

/// `load_image` over a source that is joined with a sink.
pub fn load_from_joint<S: Source, K: Sink, M: Frames>(
    reader: &mut JointReader,
    joint: &mut Joint<'_, S, K>,
    head: &Header,
    mem: &mut M,
) -> Result<(), ImageError>
    requires plans { reader.old.place.plans ≡ 0 }
    requires after { IsAfter head.now reader.old.place }
    requires boot { LaysOut (boot_tree head.now.frames) (M.memory mem.old) }
    requires is_open { S.is_open joint.old.source.now }
    requires flushed { (K.history joint.old.sink.now).written.buffered ≡ [] }
    requires paced { MayRead S.allows (IsFaultless (coming reader.old.place)) (joined S.history K.history joint.old) }
    ensures same_source { joint.new.source.ghost_name ≡ joint.old.source.ghost_name }
    ensures sink { joint.new.sink ≡ joint.old.sink }
    ensures loaded { let a = joined S.history K.history joint.old in
        let b = joined S.history K.history joint.new in
        MatchResult result (λ _. LoadsAll head.now.frames (coming reader.old.place) a.left b.left (M.memory mem.new))
        (LoadsUpTo head.now.frames (coming reader.old.place) a.left b.left a.reads b.reads (M.memory mem.new)) }
    ensures later { (S.history joint.old.source.now).faults ≤ (S.history joint.new.source.now).faults }
    ensures no_faults { OnOk result ((S.history joint.new.source.now).faults ≡
        (S.history joint.old.source.now).faults) }
    ensures count { length (M.memory mem.new) ≡ length (M.memory mem.old) }
{
    match load_pages(reader, joint, head, mem) {
        Ok(()) => reader.end(joint),
        Err(error) => Err(error),
    }
}

/// Loads the pages of an image as `load_from_joint` does, and reads nothing after the last.
pub fn load_pages<S: Source, K: Sink, M: Frames>(
    reader: &mut JointReader,
    joint: &mut Joint<'_, S, K>,
    head: &Header,
    mem: &mut M,
) -> Result<(), ImageError>
    requires plans { reader.old.place.plans ≡ 0 }
    requires after { IsAfter head.now reader.old.place }
    requires boot { LaysOut (boot_tree head.now.frames) (M.memory mem.old) }
    requires is_open { S.is_open joint.old.source.now }
    requires flushed { (K.history joint.old.sink.now).written.buffered ≡ [] }
    requires paced { MayRead S.allows (IsFaultless (coming reader.old.place)) (joined S.history K.history joint.old) }
    ensures same_source { joint.new.source.ghost_name ≡ joint.old.source.ghost_name }
    ensures sink { joint.new.sink ≡ joint.old.sink }
    ensures loaded { let a = joined S.history K.history joint.old in
        let b = joined S.history K.history joint.new in
        MatchResult result (λ _. Loads head.now.frames (coming reader.old.place) (coming reader.new.place) a.left b.left
        reader.new.place.seen.items (M.memory mem.new))
        (LoadsUpTo head.now.frames (coming reader.old.place) a.left b.left a.reads b.reads (M.memory mem.new)) }
    ensures plans { OnOk result (reader.new.place.plans ≡ 0) }
    ensures pages { OnOk result (reader.new.place.pages ≡ 0) }
    ensures inside { IfErr result IsFaultWithin }
    ensures is_open { OnOk result (S.is_open joint.new.source.now) }
    ensures later { (S.history joint.old.source.now).faults ≤ (S.history joint.new.source.now).faults }
    ensures no_faults { OnOk result ((S.history joint.new.source.now).faults ≡
        (S.history joint.old.source.now).faults) }
    ensures count { length (M.memory mem.new) ≡ length (M.memory mem.old) }
{
    let mut words = [0; 1024];
    while reader.has_page() {
        match reader.next_page(joint, &mut words) {
            Ok(vpage) => load_page(mem, head.frames, vpage, &words),
            Err(error) => return Err(error),
        }
    }
    Ok(())
}

// The words of a page into its frame.
fn load_page<M: Frames>(mem: &mut M, frames: u32, vpage: VPage, words: &[u32; 1024])
    requires least { 16 ≤ frames }
    requires most { frames ≤ 4096 }
    requires count { length (M.memory mem.old) ≡ frames }
    requires row { has_row frames vpage ≡ true }
    ensures lays { (t : Tree) (f : ℕ) → frame_of_root frames vpage ≡ Some f → is_some (t.words f) ≡ true →
        LaysOut t (M.memory mem.old) → LaysOut (with_page t f words.now) (M.memory mem.new) }
    ensures count { length (M.memory mem.new) ≡ length (M.memory mem.old) }
    ensures small { AreWords words.now }
{
    let frame = root_frame(frames, vpage).unwrap();
    fill_page(mem, frame, words);
}

// Words into a frame.
fn fill_page<M: Frames>(mem: &mut M, frame: Frame, words: &[u32; 1024])
    requires { frame < length (M.memory mem.old) }
    ensures lays { (t : Tree) → is_some (t.words frame) ≡ true → LaysOut t (M.memory mem.old) →
        LaysOut (with_page t frame words.now) (M.memory mem.new) }
    ensures count { length (M.memory mem.new) ≡ length (M.memory mem.old) }
    ensures small { AreWords words.now }
{
    for i in 0..WORDS {
        mem.set_word(frame, i, words[i as usize]);
    }
}
