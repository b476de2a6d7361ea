//! The words of a memory after a boot, from docs/FORMATS.md: "Packed words" to "Boot with n frames".
ghost use Rattle.std.specs.Prelude.{◌≤◌, ◌<◌};

// How many tables the root has beside that of its handlers, with `n` frames.
fn tables(n: u32) -> u32
    ensures least { 1 ≤ result }
    ensures most { result ≤ 4 }
{
    for t in 1..4 {
        if n <= 6 + 3 * (t + 1) + 1 + 1024 * t {
            return t;
        }
    }
    4
}

// Word `i` of the root's descriptor, with `t` tables beside that of its handlers.
fn descriptor_word(t: u32, i: u32) -> u32
    requires { t ≤ 4 }
{
    match i {
        1 => 1,
        3 => 2,
        5 => 3,
        7 => 4,
        9 => 5,
        11 => 1,
        12 => t + 1,
        _ => 0,
    }
}

// Word `i` of a directory: 0 of the MMU, 1 of the first shadow, 2 of the second shadow.
fn directory_word(t: u32, level: u32, i: u32) -> u32
    requires tables { t ≤ 4 }
    requires level { level < 3 }
{
    if i == 1023 {
        4096 * (6 + 3 * t + level) + 1
    } else if 1 <= i && i <= t {
        4096 * (6 + 3 * (i - 1) + level) + 1
    } else {
        0
    }
}

// Word `i` of the list page: each slot has three frames, and no address.
fn list_word(t: u32, i: u32) -> u32
    requires tables { t ≤ 4 }
    requires index { i < 1024 }
{
    if 2 <= i && i < 2 + 6 * (t + 1) && i % 2 == 1 {
        6 + (i - 2) / 2
    } else {
        0
    }
}

// Word `i` of table `k` of the root's MMU: its pages are open, with all rights.
fn leaf_word(n: u32, t: u32, k: u32, i: u32) -> u32
    requires frames { 16 ≤ n }
    requires most { n ≤ 4096 }
    requires tables { t ≤ 4 }
    requires index { i < 1024 }
{
    let d = if k < t { k + 1 } else { 1023 };
    let v = 1024 * d + i;
    let frame = 3 * t + 9 + (v - 1024);
    if v == 0xfffff {
        4096 * (n - 1) + 0x1f
    } else if frame < n - 1 {
        4096 * frame + 0x1f
    } else {
        0
    }
}

/// Word `i` of frame `f` after a boot with `n` frames.
pub fn expected_word(n: u32, f: u32, i: u32) -> u32
    requires least { 16 ≤ n }
    requires most { n ≤ 4096 }
    requires index { i < 1024 }
{
    let t = tables(n);
    if f == 1 {
        descriptor_word(t, i)
    } else if 2 <= f && f <= 4 {
        directory_word(t, f - 2, i)
    } else if f == 5 {
        list_word(t, i)
    } else if 6 <= f && f <= 3 * t + 8 && (f - 6) % 3 == 0 {
        leaf_word(n, t, (f - 6) / 3, i)
    } else {
        0
    }
}
