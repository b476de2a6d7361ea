//! The steps of the load, drawn by the generator (docs/FORMATS.md, "soak").
ghost use Rattle.std.specs.Prelude.{◌≡◌, ℕ, ◌+◌, ◌*◌, ◌<◌, [], ◌∷◌, slice_index_or};
ghost use Rattle.pip_base.specs.declared.types.Size.TheVariants.{Word};
ghost use Rattle.pip_model.specs.Events as E;
ghost use Rattle.pip_model.specs.Answers.{five_of};
ghost use Rattle.pip_model.specs.Soak.{Drawn, by_kind, draw, draw_both, draw_goal, draw_page, draw_place, drawn};
ghost use Rattle.pip_model.specs.Soak.{drawn_call, drawn_poll, drawn_prepare, five, soak_step};
ghost use Rattle.pip_soak.specs.Asks.{AreAsksOf, IsDrawn, events_of};

use crate::asks::{Ask, LoadStep};
use pip_model::call_number::{
    ADD_VADDR, COLLECT, COUNT_TO_MAP, CREATE_PARTITION, DELETE_PARTITION, MAPPED_IN_CHILD,
    NOT_SAVED, REMOVE_VADDR, SAVED, YIELD,
};
use pip_script::Generator;

/// The first address of the root's pages.
const PAGES: u32 = 0x400000;

/// The first address of a child's pages.
const PLACES: u32 = 0x1000_0000;

/// The address of a child's handlers.
const HANDLERS: u32 = 0xffff_f000;

// The address of one of the root's first 16 pages.
fn draw_page(generator: &mut Generator) -> u32
    ensures { (f : ℕ → ℕ → Drawn) → draw_page f generator.old ≡ f result generator.new }
{
    PAGES + 4096 * generator.draw(16)
}

// An address in a child: of one of four pages, or of its handlers.
fn draw_place(generator: &mut Generator) -> u32
    ensures { (f : ℕ → ℕ → Drawn) → draw_place f generator.old ≡ f result generator.new }
{
    let page = generator.draw(4);
    if generator.draw(2) == 0 {
        PLACES + 4096 * page
    } else {
        HANDLERS
    }
}

// To whom control goes: to the parent, which is 0, or to a child at one of the root's pages.
fn draw_goal(generator: &mut Generator) -> u32
    ensures { (f : ℕ → ℕ → Drawn) → draw_goal f generator.old ≡ f result generator.new }
{
    if generator.draw(4) == 0 {
        0
    } else {
        draw_page(generator)
    }
}

// A call.
fn call(cpu: u32, no: u32, args: [u32; 5]) -> LoadStep
    requires { cpu < 2 }
    ensures asks { AreAsksOf 2 result }
    ensures events { events_of result ≡ E.Call cpu no (five_of args) ∷ [] }
{
    LoadStep::One(Ask::Call { cpu, no, args })
}

// A call with a page alone.
fn draw_page_call(generator: &mut Generator, cpu: u32, no: u32) -> LoadStep
    requires { cpu < 2 }
    ensures asks { AreAsksOf 2 result }
    ensures drawn { IsDrawn (draw_page (λ page. drawn_call cpu no (five page 0 0 0 0)))
        generator.old generator.new result }
{
    let page = draw_page(generator);
    call(cpu, no, [page, 0, 0, 0, 0])
}

// A call with a child and a place in it.
fn draw_child_call(generator: &mut Generator, cpu: u32, no: u32) -> LoadStep
    requires { cpu < 2 }
    ensures asks { AreAsksOf 2 result }
    ensures drawn { IsDrawn (draw_both (λ page place. drawn_call cpu no (five page place 0 0 0)))
        generator.old generator.new result }
{
    let page = draw_page(generator);
    let place = draw_place(generator);
    call(cpu, no, [page, place, 0, 0, 0])
}

// A word is read at an address.
fn load(cpu: u32, va: u32) -> LoadStep
    requires { cpu < 2 }
    ensures asks { AreAsksOf 2 result }
    ensures events { events_of result ≡ E.Load cpu va Word ∷ [] }
{
    LoadStep::One(Ask::Load { cpu, va })
}

// A page's address is written into a page.
fn draw_store(generator: &mut Generator, cpu: u32) -> LoadStep
    requires { cpu < 2 }
    ensures asks { AreAsksOf 2 result }
    ensures drawn { IsDrawn (draw_page (λ page. draw_page (λ word. drawn (E.Store cpu page Word word ∷ []))))
        generator.old generator.new result }
{
    let va = draw_page(generator);
    let word = draw_page(generator);
    LoadStep::One(Ask::Store { cpu, va, word })
}

// A child is created of five pages in a row.
fn draw_create(generator: &mut Generator, cpu: u32) -> LoadStep
    requires { cpu < 2 }
    ensures asks { AreAsksOf 2 result }
    ensures drawn { IsDrawn (draw 11 (λ j. drawn_call cpu 0 (five (0x401000 + 4096 * j) (0x402000 + 4096 * j)
        (0x403000 + 4096 * j) (0x404000 + 4096 * j) (0x405000 + 4096 * j)))) generator.old generator.new result }
{
    let first = PAGES + 4096 + 4096 * generator.draw(11);
    let args = [
        first,
        first + 4096,
        first + 8192,
        first + 12288,
        first + 16384,
    ];
    call(cpu, CREATE_PARTITION, args)
}

// Three pages in a row are linked, and a child is prepared with them.
fn draw_prepare(generator: &mut Generator, cpu: u32) -> LoadStep
    requires { cpu < 2 }
    ensures asks { AreAsksOf 2 result }
    ensures drawn { IsDrawn (draw 13 (λ j. draw_both (drawn_prepare cpu (0x400000 + 4096 * j))))
        generator.old generator.new result }
{
    let x = PAGES + 4096 * generator.draw(13);
    let page = draw_page(generator);
    let place = draw_place(generator);
    LoadStep::Prepare {
        cpu,
        x,
        page,
        place,
    }
}

// A page is lent to a child.
fn draw_lend(generator: &mut Generator, cpu: u32) -> LoadStep
    requires { cpu < 2 }
    ensures asks { AreAsksOf 2 result }
    ensures drawn { IsDrawn (draw 17 (λ v. draw_both (λ page place. draw 7
        (λ r. drawn_call cpu 5 (five (0x400000 + 4096 * v) page place (1 + r) 0)))))
        generator.old generator.new result }
{
    let lent = PAGES + 4096 * generator.draw(17);
    let page = draw_page(generator);
    let place = draw_place(generator);
    let rights = 1 + generator.draw(7);
    call(cpu, ADD_VADDR, [lent, page, place, rights, 0])
}

// Control goes to another partition, through the vector 64, and the caller is saved.
fn draw_handing_on(generator: &mut Generator, cpu: u32) -> LoadStep
    requires { cpu < 2 }
    ensures asks { AreAsksOf 2 result }
    ensures drawn { IsDrawn (draw_goal (λ goal. drawn_call cpu 8 (five goal 64 63 0 0)))
        generator.old generator.new result }
{
    let goal = draw_goal(generator);
    call(cpu, YIELD, [goal, 64, SAVED, 0, 0])
}

// Control goes back to another partition, where it was saved, and the caller isn't saved.
fn draw_giving_up(generator: &mut Generator, cpu: u32) -> LoadStep
    requires { cpu < 2 }
    ensures asks { AreAsksOf 2 result }
    ensures drawn { IsDrawn (draw_goal (λ goal. drawn_call cpu 8 (five goal 63 256 0 0)))
        generator.old generator.new result }
{
    let goal = draw_goal(generator);
    call(cpu, YIELD, [goal, SAVED, NOT_SAVED, 0, 0])
}

// What is drawn for a kind below 16.
fn draw_kind(generator: &mut Generator, cpu: u32, kind: u32) -> LoadStep
    requires cpu { cpu < 2 }
    requires kind { kind < 16 }
    ensures asks { AreAsksOf 2 result }
    ensures drawn { IsDrawn (slice_index_or (by_kind cpu) kind (drawn_poll cpu)) generator.old generator.new result }
{
    match kind {
        0 | 1 => load(cpu, draw_page(generator)),
        2 => load(cpu, draw_place(generator)),
        3 => draw_store(generator, cpu),
        4 => draw_create(generator, cpu),
        5 => draw_prepare(generator, cpu),
        6 => draw_lend(generator, cpu),
        7 => draw_child_call(generator, cpu, REMOVE_VADDR),
        8 => draw_page_call(generator, cpu, MAPPED_IN_CHILD),
        9 => draw_child_call(generator, cpu, COUNT_TO_MAP),
        10 => draw_child_call(generator, cpu, COLLECT),
        11 => draw_page_call(generator, cpu, DELETE_PARTITION),
        12 => draw_handing_on(generator, cpu),
        13 => draw_giving_up(generator, cpu),
        14 => LoadStep::One(Ask::Raise {
            line: generator.draw(2),
        }),
        _ => LoadStep::One(Ask::Poll { cpu }),
    }
}

/// The next step of the load: a processor, a kind, and what belongs to it.
pub(crate) fn draw_step(generator: &mut Generator) -> LoadStep
    ensures asks { AreAsksOf 2 result }
    ensures drawn { IsDrawn soak_step generator.old generator.new result }
{
    let cpu = generator.draw(2);
    let kind = generator.draw(16);
    draw_kind(generator, cpu, kind)
}
