//! What a machine begins with.
ghost use Rattle.std.specs.Prelude.{◌≡◌, ℕ, ◌+◌, ◌-◌, ◌*◌, ◌<◌, ◌≤◌};
ghost use Rattle.pip_model.specs.Boot.{frame_of_root, tables_of_root};

use pip_base::{Frame, MAX_FRAMES, MIN_FRAMES, VIDT, VPage};

/// The frame of the root's descriptor.
pub const ROOT: u32 = 1;

/// How many tables the root of `n` frames has, beside the one for its handler table: the least number, at least 1,
/// whose rows suffice for the other user frames. `n` is 16 to 4096, the result 1 to 4.
pub fn root_tables(n: u32) -> u32
    requires least { MIN_FRAMES ≤ n }
    requires most { n ≤ MAX_FRAMES }
    ensures number { result ≡ tables_of_root n }
    ensures some { 1 ≤ result }
    ensures few { result ≤ 4 }
    ensures enough { n - 6 - 3 * (result + 1) - 1 ≤ 1024 * result }
    ensures fewest { (t : ℕ) → 1 ≤ t → n - 6 - 3 * (t + 1) - 1 ≤ 1024 * t → result ≤ t }
{
    ((n + 1016) / 1027).max(1)
}

/// The frame that the root of `n` frames has at a virtual page when the machine begins; `None` where it has no
/// row there. `n` is 16 to 4096.
pub fn root_frame(n: u32, v: VPage) -> Option<Frame>
    requires least { MIN_FRAMES ≤ n }
    requires most { n ≤ MAX_FRAMES }
    ensures { result ≡ frame_of_root n v }
{
    let first = 9 + 3 * root_tables(n);
    let page = v.number();
    if page == VIDT {
        return Some(Frame::new(n - 1));
    }
    if page >= 1024 && page - 1024 < n - 1 - first {
        return Some(Frame::new(first + (page - 1024)));
    }
    None
}
