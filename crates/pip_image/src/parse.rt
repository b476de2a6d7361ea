//! Parts of an image, read from slices.
ghost use Rattle.std.specs.Prelude.{◌≡◌, ◌+◌, ◌<◌, ◌≤◌, ◌^◌, length, drop, IfErr, IfOk, IsTrue, true, false};
ghost use Rattle.pip_model.specs.Images.{words_in, front_word, magic_of, frames_at, cpus_at, plans_at, pages_at};
ghost use Rattle.pip_model.specs.Images.{fields_of, plan_at, front_page, has_row, is_seen};
ghost use Rattle.pip_image.specs.Reading.{IsFaultWithin};
ghost use Rattle.pip_image.specs.Sought.{is_fault};
ghost use Rattle.pip_image.specs.Taking.{seen, fields_seen, HasFieldsWithin};

use crate::fields::Fields;
use byteorder::{ByteOrder, LittleEndian};
use pip_base::{Plan, VPage};
use pip_model::{ImageError, root_frame};

fn word(at: u64, bytes: &[u8]) -> Result<(u32, &[u8]), ImageError>
    requires { at + length bytes.now < 2 ^ 64 }
    ensures same { seen (λ x. (x.0, x.1.now)) result ≡ front_word at bytes.now }
    ensures inside { IfErr result IsFaultWithin }
{
    if bytes.len() < 4 {
        return Err(ImageError::Short {
            at: at + bytes.len() as u64,
        });
    }
    Ok((LittleEndian::read_u32(bytes), &bytes[4..]))
}

fn magic(bytes: &[u8]) -> Result<&[u8], ImageError>
    requires { length bytes.now < 2 ^ 64 }
    ensures same { seen (λ x. x.now) result ≡ magic_of bytes.now }
    ensures inside { IfErr result IsFaultWithin }
{
    if bytes.len() < 8 {
        return Err(ImageError::Short {
            at: bytes.len() as u64,
        });
    }
    let (front, rest) = bytes.split_at(8);
    if front == b"PIPIMG2\n".as_slice() {
        Ok(rest)
    } else if front == b"PIPIMG1\n".as_slice() {
        Err(ImageError::OldVersion { at: 0 })
    } else {
        Err(ImageError::Magic { at: 0 })
    }
}

#[tactic(auto, unfolding(pip_model::specs::Images::frames_at))]
fn frames(bytes: &[u8]) -> Result<(u32, &[u8]), ImageError>
    requires { length bytes.now < 2 ^ 63 }
    ensures same { seen (λ x. (x.0, x.1.now)) result ≡ frames_at bytes.now }
    ensures within { IfOk result (λ x. (16 ≤ x.0) × (x.0 ≤ 4096)) }
    ensures inside { IfErr result IsFaultWithin }
{
    let (number, rest) = word(8, bytes)?;
    if 16 <= number && number <= 4096 {
        Ok((number, rest))
    } else {
        Err(ImageError::Frames { at: 8 })
    }
}

#[tactic(auto, unfolding(pip_model::specs::Images::cpus_at))]
fn cpus(bytes: &[u8]) -> Result<(u32, &[u8]), ImageError>
    requires { length bytes.now < 2 ^ 63 }
    ensures same { seen (λ x. (x.0, x.1.now)) result ≡ cpus_at bytes.now }
    ensures within { IfOk result (λ x. (1 ≤ x.0) × (x.0 ≤ 4)) }
    ensures inside { IfErr result IsFaultWithin }
{
    let (number, rest) = word(12, bytes)?;
    if 1 <= number && number <= 4 {
        Ok((number, rest))
    } else {
        Err(ImageError::Cpus { at: 12 })
    }
}

#[tactic(auto, unfolding(pip_model::specs::Images::plans_at))]
fn plans(bytes: &[u8]) -> Result<(u32, &[u8]), ImageError>
    requires { length bytes.now < 2 ^ 63 }
    ensures same { seen (λ x. (x.0, x.1.now)) result ≡ plans_at bytes.now }
    ensures within { IfOk result (λ x. x.0 ≤ 16) }
    ensures inside { IfErr result IsFaultWithin }
{
    let (number, rest) = word(16, bytes)?;
    if number <= 16 {
        Ok((number, rest))
    } else {
        Err(ImageError::Plan { at: 16 })
    }
}

#[tactic(auto, unfolding(pip_model::specs::Images::pages_at))]
fn pages(bytes: &[u8]) -> Result<(u32, &[u8]), ImageError>
    requires { length bytes.now < 2 ^ 63 }
    ensures same { seen (λ x. (x.0, x.1.now)) result ≡ pages_at bytes.now }
    ensures within { IfOk result (λ x. x.0 ≤ 4096) }
    ensures inside { IfErr result IsFaultWithin }
{
    let (number, rest) = word(20, bytes)?;
    if number <= 4096 {
        Ok((number, rest))
    } else {
        Err(ImageError::Page { at: 20 })
    }
}

/// The fields up to offset 24.
#[tactic(auto, unfolding(pip_model::specs::Images::fields_of))]
pub fn read_fields(bytes: &[u8]) -> Result<(Fields, &[u8]), ImageError>
    ensures same { seen (λ x. (fields_seen x.0, x.1.now)) result ≡ fields_of bytes.now }
    ensures within { IfOk result (λ x. HasFieldsWithin x.0) }
    ensures inside { IfErr result IsFaultWithin }
{
    let rest = magic(bytes)?;
    let (frames, rest) = frames(rest)?;
    let (cpus, rest) = cpus(rest)?;
    let (plans, rest) = plans(rest)?;
    let (pages, rest) = pages(rest)?;
    Ok((
        Fields {
            frames,
            cpus,
            plans,
            pages,
        },
        rest,
    ))
}

/// Whether bytes have a fault of the fields, whatever follows them.
pub fn are_wrong_fields(bytes: &[u8]) -> bool
    ensures { result ≡ is_fault (fields_of bytes.now) }
{
    match read_fields(bytes) {
        Ok(_) | Err(ImageError::Short { .. }) => false,
        Err(_) => true,
    }
}

/// A plan at an offset.
#[tactic(auto, unfolding(pip_model::specs::Images::plan_at))]
pub fn plan(at: u64, least: u32, bytes: &[u8]) -> Result<(Plan, &[u8]), ImageError>
    requires { at + length bytes.now < 2 ^ 64 }
    ensures same { seen (λ x. (x.0, x.1.now)) result ≡ plan_at at least bytes.now }
    ensures line { IfOk result (λ x. (least ≤ x.0.line) × (x.0.line < 16)) }
    ensures inside { IfErr result IsFaultWithin }
{
    if bytes.len() < 12 {
        return Err(ImageError::Short {
            at: at + bytes.len() as u64,
        });
    }
    let line = LittleEndian::read_u32(bytes);
    if line < least || line >= 16 {
        return Err(ImageError::Plan { at });
    }
    let first = LittleEndian::read_u32(&bytes[4..]);
    let period = LittleEndian::read_u32(&bytes[8..]);
    Ok((
        Plan {
            line,
            first,
            period,
        },
        &bytes[12..],
    ))
}

/// Whether bytes have a fault of a plan, whatever follows them.
pub fn is_wrong_plan(at: u64, least: u32, bytes: &[u8]) -> bool
    requires { at ≤ 2 ^ 32 }
    ensures { result ≡ is_fault (plan_at at least bytes.now) }
{
    match plan(at, least, bytes) {
        Ok(_) | Err(ImageError::Short { .. }) => false,
        Err(_) => true,
    }
}

/// The page that stands at an offset, in an image of that many frames, after pages with the vpages `before`.
#[tactic(auto, using(crate::proofs::PageWords::words_cut), unfolding(pip_model::specs::Images::front_page))]
pub fn page(
    frames: u32,
    before: &[u32],
    at: u64,
    bytes: &[u8],
    words: &mut [u32; 1024],
) -> Result<VPage, ImageError>
    requires least { 16 ≤ frames }
    requires most { frames ≤ 4096 }
    requires at { at + length bytes.now < 2 ^ 64 }
    ensures same { seen (λ v. (record { vpage = v; words = words.new }, drop 4100 bytes.now)) result
        ≡ front_page frames before.now at bytes.now }
    ensures row { IfOk result (λ v. has_row frames v ≡ true) }
    ensures unseen { IfOk result (λ v. is_seen v before.now ≡ false) }
    ensures inside { IfErr result IsFaultWithin }
{
    if bytes.len() < 4 {
        return Err(ImageError::Short {
            at: at + bytes.len() as u64,
        });
    }
    let number = LittleEndian::read_u32(bytes);
    if before.contains(&number) {
        return Err(ImageError::Twice { at });
    }
    if !is_root_page(frames, number) {
        return Err(ImageError::Page { at });
    }
    if bytes.len() < 4100 {
        return Err(ImageError::Short {
            at: at + bytes.len() as u64,
        });
    }
    page_words(&bytes[4..4100], words);
    Ok(VPage::new(number))
}

/// Whether bytes have a fault of a page, whatever follows them.
#[tactic(auto, using(crate::proofs::Parsing::wrong_page))]
pub fn is_wrong_page(frames: u32, before: &[u32], at: u64, bytes: &[u8]) -> bool
    requires least { 16 ≤ frames }
    requires most { frames ≤ 4096 }
    ensures { result ≡ is_fault (front_page frames before.now at bytes.now) }
{
    if bytes.len() < 4 {
        return false;
    }
    let number = LittleEndian::read_u32(bytes);
    before.contains(&number) || !is_root_page(frames, number)
}

// Whether the root of that many frames has a row at this vpage when the machine begins.
#[tactic(auto, using(crate::proofs::RootPages::no_row))]
fn is_root_page(frames: u32, number: u32) -> bool
    requires least { 16 ≤ frames }
    requires most { frames ≤ 4096 }
    ensures row { result ≡ has_row frames number }
    ensures small { IsTrue result → number < 2 ^ 20 }
{
    number < 0x10_0000 && root_frame(frames, VPage::new(number)).is_some()
}

// The words of a page in its bytes.
#[tactic(auto, using(crate::proofs::PageWords::words_read))]
fn page_words(bytes: &[u8], words: &mut [u32; 1024])
    requires { length bytes.now ≡ 4096 }
    ensures { words.new ≡ words_in 1024 bytes.now }
{
    LittleEndian::read_u32_into(bytes, words);
}
