use crate::compare::{holds, same};
use pip_dump::Totals;
use pip_io::{Failed, MemSink};
use pip_soak::{Counts, load_text};
use std::test::Fail;

const TEXT: &[u8] = b"events 7
word 1
done 1
switch 1
park 1
idle 1
reply 0 1
reply 1 0
reply 2 0
reply 3 0
reply 4 0
reply 5 0
reply 6 0
reply 7 0
reply 8 0
reply 9 0
reply 10 0
reply 11 0
reply 12 0
reply 13 0
reply 14 0
reply 15 0
reply 16 0
reply 17 1
reply 18 0
parts 2
rows 53
hidden 16
end 5
";

// One outcome of each kind, with replies of the statuses 0 and 17.
fn one_each() -> Counts {
    let mut replies = [0; 19];
    replies[0] = 1;
    replies[17] = 1;
    Counts {
        events: 7,
        words: 1,
        done: 1,
        switched: 1,
        parked: 1,
        idle: 1,
        replies,
    }
}

#[test]
fn a_count_a_line(rt: HostRuntime) -> Result<(), Fail> {
    let totals = Totals {
        parts: 2,
        rows: 53,
        hidden: 16,
    };
    let mut sink = MemSink::new(rt.alloc(), 512, &[])?;
    let whole = load_text(&one_each(), &totals, 5, &mut sink);
    holds(&rt, whole.is_ok(), "all lines");
    same(&rt, sink.bytes(), TEXT, "all lines");
    let mut faulty = MemSink::new(rt.alloc(), 512, &[3])?;
    let part = load_text(&one_each(), &totals, 5, &mut faulty);
    holds(&rt, part == Err(Failed), "a fault");
    let lines = b"events 7\nword 1\n".as_slice();
    same(&rt, faulty.bytes(), lines, "the lines before a fault");
    Ok(())
}
