//! Pages that are linked into a chain, as prepare follows it.
ghost use Rattle.std.specs.Prelude.{◌≡◌, ◌<◌, length};
ghost use Rattle.pip_model.specs.Collect.{first_va};
ghost use Rattle.pip_space.specs.Tables.{page_list};
ghost use Rattle.pip_grow.specs.Chain.{chain_pages};
ghost use Rattle.pip_grow.specs.Links.{ArePagesIn, link_page, links};

use crate::chain::TablePages;
use pip_base::{Frame, Pair};
use pip_frames::Frames;

// Zeroes a page, and writes the address of the next one as its word 0.
fn set_link<M: Frames>(mem: &mut M, page: Frame, next: u32)
    requires { page < length (M.memory mem.old) }
    ensures words { M.memory mem.new ≡ link_page (M.memory mem.old) page next }
    ensures count { length (M.memory mem.new) ≡ length (M.memory mem.old) }
{
    mem.zero(page);
    mem.set_word(page, 0, next);
}

// Links the last page of a chain, if there is one, to 0. Answers its address, 0 where there is none.
fn link_last<M: Frames>(mem: &mut M, last: Option<Pair>) -> u32
    requires { ArePagesIn (M.memory mem.old) (page_list last) }
    ensures words { M.memory mem.new ≡ links (M.memory mem.old) (page_list last) }
    ensures address { result ≡ first_va (page_list last) }
    ensures count { length (M.memory mem.new) ≡ length (M.memory mem.old) }
{
    match last {
        None => 0,
        Some(page) => {
            set_link(mem, page.frame, 0);
            page.va
        }
    }
}

/// Links pages into a chain: word 0 of each is the address of the next one, 0 in the last, and all other words are 0.
pub(crate) fn link_pages<M: Frames>(mem: &mut M, pages: &TablePages)
    requires { ArePagesIn (M.memory mem.old) (chain_pages pages.now) }
    ensures words { M.memory mem.new ≡ links (M.memory mem.old) (chain_pages pages.now) }
    ensures count { length (M.memory mem.new) ≡ length (M.memory mem.old) }
{
    let next = link_last(mem, pages.list);
    set_link(mem, pages.shadow2.frame, next);
    set_link(mem, pages.shadow1.frame, pages.shadow2.va);
    set_link(mem, pages.mmu.frame, pages.shadow1.va);
}
