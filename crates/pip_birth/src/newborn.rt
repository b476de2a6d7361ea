//! The frames of a partition that has no tables yet.
ghost use Rattle.std.specs.Prelude.{◌≡◌, ◌<◌, None, All, length};
ghost use Rattle.pip_model.specs.Answers.{pair_frames};
ghost use Rattle.pip_base.specs.declared.types.Pair.{Pair};
ghost use Rattle.pip_model.specs.NodeIn.{OthersStay, Space};
ghost use Rattle.pip_model.specs.Tree.{Base, base_pairs};
ghost use Rattle.pip_birth.specs.Newborn.{AreFrames, bare, put_descriptor, zero_frames};

use pip_base::{Frame, Pair};
use pip_config::write_pair;
use pip_entry::descriptor::{LIST_VA, MMU_VA, PARENT, SELF_VA, SHADOW1_VA, SHADOW2_VA};
use pip_frames::Frames;

/// Zeroes pages.
pub(crate) fn zero_pages<M: Frames>(mem: &mut M, pages: &[Pair])
    requires { All (λ (p : Pair). p.frame < length (M.memory mem.old)) pages.now }
    ensures words { M.memory mem.new ≡ zero_frames (M.memory mem.old) (pair_frames pages.now) }
    ensures count { length (M.memory mem.new) ≡ length (M.memory mem.old) }
{
    for page in pages {
        mem.zero(page.frame);
    }
}

// Writes the words of a descriptor that aren't 0 in a partition without tables.
fn set_descriptor<M: Frames>(mem: &mut M, part: Frame, base: &[Pair; 5], up: Frame)
    requires { part < length (M.memory mem.old) }
    ensures words { M.memory mem.new ≡ put_descriptor (M.memory mem.old) part base.now up }
    ensures count { length (M.memory mem.new) ≡ length (M.memory mem.old) }
{
    let [descriptor, mmu, shadow1, shadow2, list] = *base;
    write_pair(mem, part, SELF_VA, descriptor);
    write_pair(mem, part, MMU_VA, mmu);
    write_pair(mem, part, SHADOW1_VA, shadow1);
    write_pair(mem, part, SHADOW2_VA, shadow2);
    write_pair(mem, part, LIST_VA, list);
    mem.set_word(part, PARENT, up.number());
}

/// Writes a partition without tables into the five different frames of its base, whatever they held. No other frame
/// changes.
pub(crate) fn write_newborn<M: Frames>(mem: &mut M, base: &[Pair; 5], up: Frame)
    requires { AreFrames (M.memory mem.old) base.now }
    ensures count { length (M.memory mem.new) ≡ length (M.memory mem.old) }
    ensures node { (b : Base) → base_pairs b ≡ base.now → Space (M.memory mem.new) (bare b up) (λ v. None)
        × OthersStay (bare b up) (M.memory mem.old) (M.memory mem.new) }
{
    zero_pages(mem, base);
    set_descriptor(mem, base[0].frame, base, up);
}
