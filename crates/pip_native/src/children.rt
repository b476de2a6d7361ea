//! The children are built.
ghost use Rattle.std.specs.Prelude.{◌≡◌, ◌+◌, ◌<◌, ◌≤◌};
ghost use Rattle.pip_model.specs.Worlds.{IsSoundWorld, World};
ghost use Rattle.pip_native.specs.Rooms.{HasRoomForChildren};
ghost use Rattle.pip_native.specs.Watching.{addresses, fresh as fresh_page, page_address as address_of};
ghost use Rattle.pip_native.specs.Watching.{pool_of as pool_in, with_child, with_children, with_entry};
ghost use Rattle.pip_native.specs.Watching.{with_handlers};

use arrayvec::ArrayVec;
use pip_base::{Size, Steps, never};
use pip_model::Port;
use pip_parent::{Want, build};
use std::sync::ledger::Ledger;

/// The block of which all handlers of the root take their words.
const BLOCK: u32 = 0xfffff400;

// The address of page `k` of the root, from 0x400000 on.
fn page_address(k: u32) -> u32
    requires { k ≤ 1000 }
    ensures { result ≡ address_of k }
{
    0x400000 + 4096 * k
}

// Page `j` of the twelve that child `i` takes beside its program's.
fn fresh(n: u32, i: u32, j: u32) -> u32
    requires most { n ≤ 8 }
    requires low { i < n }
    requires twelve { j < 12 }
    ensures { result ≡ fresh_page n i j }
{
    page_address(n + 12 * i + j)
}

// The pages of child `i`, in the order in which it is built of them.
fn pool_of(n: u32, i: u32) -> [u32; 13]
    requires most { n ≤ 8 }
    requires low { i < n }
    ensures { result ≡ pool_in n i }
{
    [
        fresh(n, i, 0),
        fresh(n, i, 1),
        fresh(n, i, 2),
        fresh(n, i, 3),
        fresh(n, i, 4),
        fresh(n, i, 5),
        fresh(n, i, 6),
        fresh(n, i, 7),
        page_address(i),
        fresh(n, i, 8),
        fresh(n, i, 9),
        fresh(n, i, 10),
        fresh(n, i, 11),
    ]
}

/// Each vector of the root has a handler.
pub fn set_handlers<P: Port, L: Ledger>(port: &mut P, steps: &mut Steps<L>)
    requires { 0 < P.count port.old }
    ensures world { (w : World) → P.stands port.old w → P.stands port.new (with_handlers w 256) }
    ensures count { P.count port.new ≡ P.count port.old }
{
    for k in 0..256u32 {
        port.store(0, 0xfffff000 + 4 * k, Size::Word, BLOCK, steps);
    }
}

// Child `i` of `n` has a handler.
fn set_entry<P: Port, L: Ledger>(port: &mut P, n: u32, i: u32, steps: &mut Steps<L>)
    requires some { 0 < P.count port.old }
    requires most { n ≤ 8 }
    requires low { i < n }
    ensures world { (w : World) → P.stands port.old w → P.stands port.new (with_entry w n i) }
    ensures sound { (w : World) → P.stands port.new w → IsSoundWorld w }
    ensures count { P.count port.new ≡ P.count port.old }
{
    let handlers = fresh(n, i, 11);
    port.store(0, handlers + 0xfc, Size::Word, BLOCK, steps);
    port.store(0, handlers + 0x400, Size::Word, 0x400000, steps);
}

// Child `i` of `n` has a handler, and is built. Answers the address of its descriptor.
fn build_child<P: Port, L: Ledger>(port: &mut P, n: u32, i: u32, steps: &mut Steps<L>) -> u32
    requires some { 0 < P.count port.old }
    requires most { n ≤ 8 }
    requires low { i < n }
    requires room { (w : World) × P.stands port.old w × HasRoomForChildren n i w }
    ensures world { (w : World) → P.stands port.old w → HasRoomForChildren n i w →
        P.stands port.new (with_child w n i) × HasRoomForChildren n (i + 1) (with_child w n i) }
    ensures address { result ≡ fresh_page n i 0 }
    ensures count { P.count port.new ≡ P.count port.old }
{
    set_entry(port, n, i, steps);
    let wants = [
        Want {
            va: 0x400000,
            rights: 7,
        },
        Want {
            va: 0xfffff000,
            rights: 3,
        },
    ];
    match build(port, 0, &pool_of(n, i), &wants, steps) {
        Ok(built) => built.child,
        // The root has these pages, and all rights to them.
        Err(_) => never!(),
    }
}

/// Builds `n` children of the root, 1 to 8, where it has the pages for them. Answers the addresses of their
/// descriptors.
pub fn build_children<P: Port, L: Ledger>(
    port: &mut P,
    n: u32,
    steps: &mut Steps<L>,
) -> ArrayVec<u32, 8>
    requires some { 0 < P.count port.old }
    requires most { n ≤ 8 }
    requires room { (w : World) × P.stands port.old w × HasRoomForChildren n 0 w }
    ensures world { (w : World) → P.stands port.old w → HasRoomForChildren n 0 w → P.stands port.new
        (with_children w n n) }
    ensures addresses { result.items ≡ addresses n n }
    ensures count { P.count port.new ≡ P.count port.old }
{
    let mut children = ArrayVec::new();
    for i in 0..n {
        children.push(build_child(port, n, i, steps));
    }
    children
}
