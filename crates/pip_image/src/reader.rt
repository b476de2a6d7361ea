//! A reader of images.
ghost use Rattle.std.specs.Prelude.{◌≡◌, ◌+◌, ◌≤◌, ◌<◌, ◌∷◌, [], MatchResult, MatchOption, IfErr, IfOk, IfSome, OnOk};
ghost use Rattle.std.specs.Prelude.{nat_lt};
ghost use Rattle.pip_model.specs.Images.{Head, Line, Holds, image_parts};
ghost use Rattle.pip_io.specs.Moments.{joined};
ghost use Rattle.pip_io.specs.Pacing.{MayRead};
ghost use Rattle.pip_image.specs.Coming.{coming, IsNew, IsAfter, IsHeader, IsNextPage, header_parts};
ghost use Rattle.pip_image.specs.Pacing.{IsHeaderless, IsPartless};
ghost use Rattle.pip_image.specs.Reading.{EndsInput, IsFaultWithin, Refuses, RefusesHeader, TakesParts};
ghost use Rattle.pip_image.specs.Taking.{fields_seen, HasFieldsWithin};

use crate::fields::Fields;
use crate::filling::{Sought, fill};
use crate::header::Header;
use crate::parse;
use crate::place::Place;
use arrayvec::ArrayVec;
use pip_base::{Plan, VPage};
use pip_io::{Joint, Sink, Source};
use pip_model::ImageError;

/// Reads an image: first the fields, then the plans, then the pages. Each call is given the source, joined with a sink
/// that holds nothing, and reads no further than its part needs.
#[derive(Drop)]
pub struct JointReader {
    place: Place,
}

impl JointReader {
    /// A reader that has read nothing.
    pub fn new() -> JointReader
        ensures { IsNew result.place }
    {
        JointReader {
            place: Place::new(),
        }
    }

    /// All that stands before the pages, and the first call of a reader. After an error, which stands there too,
    /// nothing more may be read.
    pub fn header<S: Source, K: Sink>(
        &mut self,
        joint: &mut Joint<'_, S, K>,
    ) -> Result<Header, ImageError>
        requires new { IsNew self.old.place }
        requires is_open { S.is_open joint.old.source.now }
        requires flushed { (K.history joint.old.sink.now).written.buffered ≡ [] }
        requires paced { MayRead S.allows IsHeaderless (joined S.history K.history joint.old) }
        ensures same_source { joint.new.source.ghost_name ≡ joint.old.source.ghost_name }
        ensures sink { joint.new.sink ≡ joint.old.sink }
        ensures reads { let a = joined S.history K.history joint.old in
            let b = joined S.history K.history joint.new in
            MatchResult result (λ h. TakesParts image_parts (coming self.new.place) (header_parts h) a.left b.left)
            (RefusesHeader image_parts a.left b.left a.reads b.reads) }
        ensures plans { IfOk result (λ _. self.new.place.plans ≡ 0) }
        ensures place { IfOk result (λ h. IsAfter h self.new.place) }
        ensures limits { IfOk result IsHeader }
        ensures later { (S.history joint.old.source.now).faults ≤ (S.history joint.new.source.now).faults }
        ensures is_open { OnOk result (S.is_open joint.new.source.now) }
        ensures inside { IfErr result IsFaultWithin }
        ensures no_faults { OnOk result ((S.history joint.new.source.now).faults ≡
            (S.history joint.old.source.now).faults) }
    {
        let fields = self.fields(joint)?;
        let mut plans = ArrayVec::new();
        while self.has_plan() {
            let plan = self.plan(joint)?;
            plans.push(plan);
        }
        Ok(Header {
            frames: fields.frames,
            cpus: fields.cpus,
            plans,
            pages: fields.pages,
        })
    }

    /// Whether a plan is left to be read.
    pub fn has_plan(&self) -> bool
        ensures { result ≡ nat_lt 0 self.now.place.plans }
    {
        self.place.plans > 0
    }

    /// The fields up to offset 24.
    pub fn fields<S: Source, K: Sink>(
        &mut self,
        joint: &mut Joint<'_, S, K>,
    ) -> Result<Fields, ImageError>
        requires new { IsNew self.old.place }
        requires is_open { S.is_open joint.old.source.now }
        requires flushed { (K.history joint.old.sink.now).written.buffered ≡ [] }
        requires paced { MayRead S.allows (IsPartless image_parts) (joined S.history K.history joint.old) }
        ensures same_source { joint.new.source.ghost_name ≡ joint.old.source.ghost_name }
        ensures sink { joint.new.sink ≡ joint.old.sink }
        ensures reads { let a = joined S.history K.history joint.old in
            let b = joined S.history K.history joint.new in
            MatchResult result
            (λ f. TakesParts image_parts (coming self.new.place) (Head (fields_seen f) ∷ []) a.left b.left)
            (Refuses image_parts [] a.left b.left a.reads b.reads) }
        ensures plans { IfOk result (λ f. self.new.place.plans ≡ f.plans) }
        ensures limits { IfOk result HasFieldsWithin }
        ensures line { OnOk result (self.new.place.line ≡ 0) }
        ensures place { IfOk result (λ f. (self.new.place.frames ≡ f.frames) × (self.new.place.pages ≡ f.pages)
            × (self.new.place.seen.items ≡ [])) }
        ensures later { (S.history joint.old.source.now).faults ≤ (S.history joint.new.source.now).faults }
        ensures is_open { OnOk result (S.is_open joint.new.source.now) }
        ensures inside { IfErr result IsFaultWithin }
        ensures no_faults { OnOk result ((S.history joint.new.source.now).faults ≡
            (S.history joint.old.source.now).faults) }
    {
        let mut bytes = [0; 24];
        let filled = fill(joint, &Sought::Fields, &mut bytes);
        match parse::read_fields(&bytes[..filled.count]) {
            Ok((fields, _)) => {
                self.place.pass_fields(fields);
                Ok(fields)
            }
            Err(error) => Err(filled.fault(error)),
        }
    }

    /// The next plan. There must be one.
    pub fn plan<S: Source, K: Sink>(
        &mut self,
        joint: &mut Joint<'_, S, K>,
    ) -> Result<Plan, ImageError>
        requires plans { 0 < self.old.place.plans }
        requires is_open { S.is_open joint.old.source.now }
        requires flushed { (K.history joint.old.sink.now).written.buffered ≡ [] }
        requires paced { MayRead S.allows (IsPartless (coming self.old.place)) (joined S.history K.history joint.old) }
        ensures same_source { joint.new.source.ghost_name ≡ joint.old.source.ghost_name }
        ensures sink { joint.new.sink ≡ joint.old.sink }
        ensures reads { let a = joined S.history K.history joint.old in
            let b = joined S.history K.history joint.new in
            MatchResult result
            (λ p. TakesParts (coming self.old.place) (coming self.new.place) (Line p ∷ []) a.left b.left)
            (Refuses (coming self.old.place) [] a.left b.left a.reads b.reads) }
        ensures plans { IfOk result (λ _. self.new.place.plans + 1 ≡ self.old.place.plans) }
        ensures line { IfOk result (λ p. (self.old.place.line ≤ p.line) × (p.line < 16)
            × (self.new.place.line ≡ p.line + 1)) }
        ensures place { IfOk result (λ _. (self.new.place.frames ≡ self.old.place.frames)
            × (self.new.place.pages ≡ self.old.place.pages) × (self.new.place.seen ≡ self.old.place.seen)) }
        ensures later { (S.history joint.old.source.now).faults ≤ (S.history joint.new.source.now).faults }
        ensures is_open { OnOk result (S.is_open joint.new.source.now) }
        ensures inside { IfErr result IsFaultWithin }
        ensures no_faults { OnOk result ((S.history joint.new.source.now).faults ≡
            (S.history joint.old.source.now).faults) }
    {
        let mut bytes = [0; 12];
        let sought = Sought::Plan {
            at: self.place.at,
            least: self.place.line,
        };
        let filled = fill(joint, &sought, &mut bytes);
        match parse::plan(self.place.at, self.place.line, &bytes[..filled.count]) {
            Ok((plan, _)) => {
                self.place.pass_plan(plan);
                Ok(plan)
            }
            Err(error) => Err(filled.fault(error)),
        }
    }

    /// Whether a page is left to be read.
    pub fn has_page(&self) -> bool
        ensures { result ≡ nat_lt 0 self.now.place.pages }
    {
        self.place.pages > 0
    }

    /// The next page and its words, or None at the end of the image. All plans were read.
    pub fn page<S: Source, K: Sink>(
        &mut self,
        joint: &mut Joint<'_, S, K>,
        words: &mut [u32; 1024],
    ) -> Result<Option<VPage>, ImageError>
        requires plans { self.old.place.plans ≡ 0 }
        requires is_open { S.is_open joint.old.source.now }
        requires flushed { (K.history joint.old.sink.now).written.buffered ≡ [] }
        requires paced { MayRead S.allows (IsPartless (coming self.old.place)) (joined S.history K.history joint.old) }
        ensures same_source { joint.new.source.ghost_name ≡ joint.old.source.ghost_name }
        ensures sink { joint.new.sink ≡ joint.old.sink }
        ensures reads { let a = joined S.history K.history joint.old in
            let b = joined S.history K.history joint.new in
            MatchResult result (λ r. MatchOption r (EndsInput (coming self.old.place) a.left b.left)
            (λ v. TakesParts (coming self.old.place) (coming self.new.place)
            (Holds (record { vpage = v; words = words.new }) ∷ []) a.left b.left))
            (Refuses (coming self.old.place) [] a.left b.left a.reads b.reads) }
        ensures plans { self.new.place.plans ≡ 0 }
        ensures frames { self.new.place.frames ≡ self.old.place.frames }
        ensures pages { IfOk result (λ r. IfSome r (λ _. self.new.place.pages + 1 ≡ self.old.place.pages)) }
        ensures next { IfOk result (λ r. IfSome r (IsNextPage self.old.place self.new.place)) }
        ensures later { (S.history joint.old.source.now).faults ≤ (S.history joint.new.source.now).faults }
        ensures is_open { IfOk result (λ r. IfSome r (λ _. S.is_open joint.new.source.now)) }
        ensures no_faults { OnOk result ((S.history joint.new.source.now).faults ≡
            (S.history joint.old.source.now).faults) }
    {
        if self.place.pages == 0 {
            self.end(joint)?;
            return Ok(None);
        }
        let vpage = self.next_page(joint, words)?;
        Ok(Some(vpage))
    }

    /// The end of the input, after the last page.
    pub(crate) fn end<S: Source, K: Sink>(
        &mut self,
        joint: &mut Joint<'_, S, K>,
    ) -> Result<(), ImageError>
        requires plans { self.old.place.plans ≡ 0 }
        requires pages { self.old.place.pages ≡ 0 }
        requires is_open { S.is_open joint.old.source.now }
        requires flushed { (K.history joint.old.sink.now).written.buffered ≡ [] }
        requires paced { MayRead S.allows (IsPartless (coming self.old.place)) (joined S.history K.history joint.old) }
        ensures same_source { joint.new.source.ghost_name ≡ joint.old.source.ghost_name }
        ensures sink { joint.new.sink ≡ joint.old.sink }
        ensures place { self.new.place ≡ self.old.place }
        ensures reads { let a = joined S.history K.history joint.old in
            let b = joined S.history K.history joint.new in
            MatchResult result (λ _. EndsInput (coming self.old.place) a.left b.left)
            (Refuses (coming self.old.place) [] a.left b.left a.reads b.reads) }
        ensures later { (S.history joint.old.source.now).faults ≤ (S.history joint.new.source.now).faults }
        ensures no_faults { OnOk result ((S.history joint.new.source.now).faults ≡
            (S.history joint.old.source.now).faults) }
    {
        let mut byte = [0];
        match joint.read(&mut byte) {
            Ok(0) => Ok(()),
            Ok(_) => Err(ImageError::Long { at: self.place.at }),
            Err(_) => Err(ImageError::Read),
        }
    }

    /// A page that is there.
    pub(crate) fn next_page<S: Source, K: Sink>(
        &mut self,
        joint: &mut Joint<'_, S, K>,
        words: &mut [u32; 1024],
    ) -> Result<VPage, ImageError>
        requires plans { self.old.place.plans ≡ 0 }
        requires pages { 0 < self.old.place.pages }
        requires is_open { S.is_open joint.old.source.now }
        requires flushed { (K.history joint.old.sink.now).written.buffered ≡ [] }
        requires paced { MayRead S.allows (IsPartless (coming self.old.place)) (joined S.history K.history joint.old) }
        ensures same_source { joint.new.source.ghost_name ≡ joint.old.source.ghost_name }
        ensures sink { joint.new.sink ≡ joint.old.sink }
        ensures reads { let a = joined S.history K.history joint.old in
            let b = joined S.history K.history joint.new in
            MatchResult result (λ v. TakesParts (coming self.old.place) (coming self.new.place)
            (Holds (record { vpage = v; words = words.new }) ∷ []) a.left b.left)
            (Refuses (coming self.old.place) [] a.left b.left a.reads b.reads) }
        ensures plans { self.new.place.plans ≡ 0 }
        ensures frames { self.new.place.frames ≡ self.old.place.frames }
        ensures pages { IfOk result (λ _. self.new.place.pages + 1 ≡ self.old.place.pages) }
        ensures next { IfOk result (IsNextPage self.old.place self.new.place) }
        ensures later { (S.history joint.old.source.now).faults ≤ (S.history joint.new.source.now).faults }
        ensures is_open { OnOk result (S.is_open joint.new.source.now) }
        ensures inside { IfErr result IsFaultWithin }
        ensures no_faults { OnOk result ((S.history joint.new.source.now).faults ≡
            (S.history joint.old.source.now).faults) }
    {
        let mut bytes = [0; 4100];
        let place = &self.place;
        let sought = Sought::Page {
            frames: place.frames,
            before: &place.seen,
            at: place.at,
        };
        let filled = fill(joint, &sought, &mut bytes);
        match parse::page(
            place.frames,
            &place.seen,
            place.at,
            &bytes[..filled.count],
            words,
        ) {
            Ok(vpage) => {
                self.place.pass_page(vpage);
                Ok(vpage)
            }
            Err(error) => Err(filled.fault(error)),
        }
    }
}
