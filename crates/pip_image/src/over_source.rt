//! Images read from a source that has no sink beside it.
ghost use Rattle.std.specs.Prelude.{◌≡◌, ◌+◌, ◌≤◌, ◌∷◌, [], length, MatchResult, MatchOption, IfOk, IfSome, OnOk};
ghost use Rattle.pip_model.specs.Boot.{boot_tree};
ghost use Rattle.pip_model.specs.Images.{Holds, image_parts};
ghost use Rattle.pip_model.specs.Layout.{LaysOut};
ghost use Rattle.pip_io.specs.Pacing.{MayRead};
ghost use Rattle.pip_io.specs.Moments.{alone};
ghost use Rattle.pip_image.specs.Coming.{coming, IsNew, IsAfter, IsHeader, IsNextPage, header_parts};
ghost use Rattle.pip_image.specs.Loading.{LoadsAll, LoadsUpTo};
ghost use Rattle.pip_image.specs.Pacing.{IsFaultless, IsHeaderless, IsPartless};
ghost use Rattle.pip_image.specs.Reading.{TakesParts, EndsInput, Refuses, RefusesHeader};

use crate::header::Header;
use crate::load::load_from_joint;
use crate::reader::JointReader;
use pip_base::VPage;
use pip_frames::Frames;
use pip_io::{Discard, Joint, Source};
use pip_model::ImageError;

/// Reads an image from the source that it borrows: first the header, then the pages. A call reads no further than its
/// part needs.
#[derive(Drop)]
pub struct ImageReader<'a, S: Source> {
    source: &'a mut S,
    reader: JointReader,
}

impl<'a, S: Source> ImageReader<'a, S> {
    /// A reader of what the source has left.
    pub fn new(source: &'a mut S) -> ImageReader<'a, S>
        ensures same_source { result.source.ghost_name ≡ source.entry.ghost_name }
        ensures source { result.source.now ≡ source.old }
        ensures new { IsNew result.reader.place }
    {
        ImageReader {
            source,
            reader: JointReader::new(),
        }
    }

    /// All that stands before the pages, and the first call of a reader. After an error, which stands there too,
    /// nothing more may be read.
    pub fn header(&mut self) -> Result<Header, ImageError>
        requires new { IsNew self.old.reader.place }
        requires is_open { S.is_open self.old.source.now }
        requires paced { MayRead S.allows IsHeaderless (alone (S.history self.old.source.now)) }
        ensures same_source { self.new.source.ghost_name ≡ self.old.source.ghost_name }
        ensures reads { MatchResult result
            (λ h. TakesParts image_parts (coming self.new.reader.place) (header_parts h)
            (S.history self.old.source.now).left (S.history self.new.source.now).left)
            (RefusesHeader image_parts (S.history self.old.source.now).left (S.history self.new.source.now).left
            (S.history self.old.source.now).faults (S.history self.new.source.now).faults) }
        ensures plans { IfOk result (λ _. self.new.reader.place.plans ≡ 0) }
        ensures place { IfOk result (λ h. IsAfter h self.new.reader.place) }
        ensures limits { IfOk result IsHeader }
        ensures later { (S.history self.old.source.now).faults ≤ (S.history self.new.source.now).faults }
        ensures is_open { OnOk result (S.is_open self.new.source.now) }
        ensures no_faults { OnOk result ((S.history self.new.source.now).faults ≡
            (S.history self.old.source.now).faults) }
    {
        let mut sink = Discard::new();
        let mut joint = Joint::new(&mut *self.source, &mut sink);
        self.reader.header(&mut joint)
    }

    /// The next page and its words, or None at the end of the image.
    pub fn page(&mut self, words: &mut [u32; 1024]) -> Result<Option<VPage>, ImageError>
        requires plans { self.old.reader.place.plans ≡ 0 }
        requires is_open { S.is_open self.old.source.now }
        requires paced { MayRead S.allows (IsPartless (coming self.old.reader.place))
            (alone (S.history self.old.source.now)) }
        ensures same_source { self.new.source.ghost_name ≡ self.old.source.ghost_name }
        ensures reads { MatchResult result
            (λ r. MatchOption r (EndsInput (coming self.old.reader.place) (S.history self.old.source.now).left
            (S.history self.new.source.now).left)
            (λ v. TakesParts (coming self.old.reader.place) (coming self.new.reader.place)
            (Holds (record { vpage = v; words = words.new }) ∷ []) (S.history self.old.source.now).left
            (S.history self.new.source.now).left))
            (Refuses (coming self.old.reader.place) [] (S.history self.old.source.now).left
            (S.history self.new.source.now).left (S.history self.old.source.now).faults
            (S.history self.new.source.now).faults) }
        ensures plans { self.new.reader.place.plans ≡ 0 }
        ensures frames { self.new.reader.place.frames ≡ self.old.reader.place.frames }
        ensures pages { IfOk result
            (λ r. IfSome r (λ _. self.new.reader.place.pages + 1 ≡ self.old.reader.place.pages)) }
        ensures next { IfOk result (λ r. IfSome r (IsNextPage self.old.reader.place self.new.reader.place)) }
        ensures later { (S.history self.old.source.now).faults ≤ (S.history self.new.source.now).faults }
        ensures is_open { IfOk result (λ r. IfSome r (λ _. S.is_open self.new.source.now)) }
        ensures no_faults { OnOk result ((S.history self.new.source.now).faults ≡
            (S.history self.old.source.now).faults) }
    {
        let mut sink = Discard::new();
        let mut joint = Joint::new(&mut *self.source, &mut sink);
        self.reader.page(&mut joint, words)
    }
}

/// Reads the pages of an image into the frames that the root has at their vpages. The memory is that of a machine that
/// has just begun; the reader's `header` answered `head`, and no page was read yet. After an error the pages before it
/// are loaded.
pub fn load_image<S: Source, M: Frames>(
    reader: &mut ImageReader<'_, S>,
    head: &Header,
    mem: &mut M,
) -> Result<(), ImageError>
    requires plans { reader.old.reader.place.plans ≡ 0 }
    requires after { IsAfter head.now reader.old.reader.place }
    requires boot { LaysOut (boot_tree head.now.frames) (M.memory mem.old) }
    requires is_open { S.is_open reader.old.source.now }
    requires paced { MayRead S.allows (IsFaultless (coming reader.old.reader.place))
        (alone (S.history reader.old.source.now)) }
    ensures same_source { reader.new.source.ghost_name ≡ reader.old.source.ghost_name }
    ensures loaded { MatchResult result
        (λ _. LoadsAll head.now.frames (coming reader.old.reader.place) (S.history reader.old.source.now).left
        (S.history reader.new.source.now).left (M.memory mem.new))
        (LoadsUpTo head.now.frames (coming reader.old.reader.place) (S.history reader.old.source.now).left
        (S.history reader.new.source.now).left (S.history reader.old.source.now).faults
        (S.history reader.new.source.now).faults
        (M.memory mem.new)) }
    ensures later { (S.history reader.old.source.now).faults ≤ (S.history reader.new.source.now).faults }
    ensures no_faults { OnOk result ((S.history reader.new.source.now).faults ≡
        (S.history reader.old.source.now).faults) }
    ensures count { length (M.memory mem.new) ≡ length (M.memory mem.old) }
{
    let mut sink = Discard::new();
    let mut joint = Joint::new(&mut *reader.source, &mut sink);
    load_from_joint(&mut reader.reader, &mut joint, head, mem)
}
