//! A reader of images that is fed their bytes.
ghost use Rattle.std.specs.Prelude.{◌≡◌, ◌≢◌, ◌≤◌, ◌<◌, [], length, MatchResult, IfErr, IfOk, IsTrue, false, true};
ghost use Rattle.pip_image.specs.Feeding.{IsFaultAt, IsPartAt, is_short};

use crate::fields::Fields;
use crate::parse;
use crate::place::Place;
use pip_base::{Plan, VPage};
use pip_model::ImageError;

/// A part that was read. The words of a page are beside it.
#[derive(Clone, Copy, Debug, PartialEq, Eq)]
pub enum PartRead {
    Fields(Fields),
    Plan(Plan),
    Page(VPage),
}

/// Whether bytes end too early.
pub fn is_short(fault: ImageError) -> bool
    ensures { result ≡ is_short fault }
{
    match fault {
        ImageError::Short { .. } => true,
        _ => false,
    }
}

/// Where a reader is in an image.
#[derive(Drop)]
pub struct PartReader {
    place: Place,
    begun: bool,
    ghost fresh: { begun ≡ false → place.seen.items ≡ [] },
}

impl PartReader {
    ghost use Rattle.pip_image.specs.Fed.{is_all_fed, left, size, told};
    ghost use Rattle.pip_image.specs.Reading.{no_more_parts};
    ghost use Rattle.pip_model.specs.Images.{image_parts};

    /// Before the first byte.
    pub fn new() -> PartReader
        ensures { told result ≡ image_parts }
    {
        PartReader {
            place: Place::new(),
            begun: false,
        }
    }

    /// How many bytes the next part has, and 1 after the last.
    pub fn size(&self) -> usize
        ensures value { result ≡ size self.now }
        ensures some { 0 < result }
        ensures most { result ≤ 4100 }
    {
        if !self.begun {
            24
        } else if self.place.plans > 0 {
            12
        } else if self.place.pages > 0 {
            4100
        } else {
            1
        }
    }

    /// Whether all parts were read.
    #[tactic(auto, using(crate::proofs::Fed::whole_fed))]
    pub fn is_all_fed(&self) -> bool
        ensures value { result ≡ is_all_fed self.now }
        ensures ends { IsTrue result → told self.now [] ≡ no_more_parts }
    {
        self.begun && self.place.plans == 0 && self.place.pages == 0
    }

    /// Takes the next part, which is all of these bytes, or says their first fault.
    pub fn part(&mut self, front: &[u8], words: &mut [u32; 1024]) -> Result<PartRead, ImageError>
        requires fits { length front.now ≤ size self.old }
        requires more { is_all_fed self.old ≡ true → front.now ≢ [] }
        ensures told { MatchResult result (IsPartAt (told self.old) (told self.new) words.new front.now)
            (IsFaultAt (told self.old) (size self.old) front.now) }
        ensures fewer { IfOk result (λ p. left self.new < left self.old) }
        ensures same { IfErr result (λ e. self.new ≡ self.old) }
    {
        if !self.begun {
            return match parse::read_fields(front) {
                Ok((fields, _)) => {
                    self.begun = true;
                    self.place.pass_fields(fields);
                    Ok(PartRead::Fields(fields))
                }
                Err(fault) => Err(fault),
            };
        }
        let place = &mut self.place;
        if place.plans > 0 {
            return match parse::plan(place.at, place.line, front) {
                Ok((plan, _)) => {
                    place.pass_plan(plan);
                    Ok(PartRead::Plan(plan))
                }
                Err(fault) => Err(fault),
            };
        }
        if place.pages > 0 {
            return match parse::page(place.frames, &place.seen, place.at, front, words) {
                Ok(vpage) => {
                    place.pass_page(vpage);
                    Ok(PartRead::Page(vpage))
                }
                Err(fault) => Err(fault),
            };
        }
        Err(ImageError::Long { at: place.at })
    }
}
