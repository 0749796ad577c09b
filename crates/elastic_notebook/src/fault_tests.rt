//! Sources and sinks that meet a fault, and words that are no command.

use crate::test_streams::{Asked, answered, answered_reading, answered_writing, frames_of};
use std::alloc::{AllocError, Global};
use std::test::Fail;

// The lengths of the output are those of the second writing of the rules in Python: tests/tools, `Lengths`.

static TWO_CELLS: [Asked; 3] = [
    Asked::Open,
    Asked::Cell("x = 2"),
    Asked::Cell("print(x + 3)"),
];

/// How many bytes are written of none of these frames, of the first, of the first two, and of all.
const OF_TWO_CELLS: [usize; 4] = [0, 1386, 3261, 5605];

static ALIASES: [Asked; 6] = [
    Asked::Open,
    Asked::Cell("a = [1]"),
    Asked::Cell("b = a"),
    Asked::Move([0, 0, 0, 1]),
    Asked::Cell("b.append(2)"),
    Asked::Cell("a"),
];

/// How many whole frames there are in the first so many bytes of `TWO_CELLS`.
fn whole_frames(alloc: Global, given: usize) -> Result<usize, AllocError> {
    let mut whole = 0usize;
    for count in 1..=3usize {
        let first = TWO_CELLS.get(..count).unwrap_or(&TWO_CELLS[..]);
        if frames_of(alloc, first)?.len() <= given {
            whole = count;
        }
    }
    Ok(whole)
}

/// Of reads and writes of one byte, which are thousands, each one with a number that this divides is to fail, and the last ones.
const STEP: usize = 211;

/// Whether that call, of so many that a run makes, is to fail in a run.
fn is_tried(most: usize, call: usize, calls: usize) -> bool {
    1 < most || call % STEP == 0 || calls <= call.saturating_add(2)
}

/// Each read fails in turn, also the one that meets the end, and then one that isn't made; of those of one byte some.
#[test]
fn a_source_whose_kth_read_fails(rt: HostRuntime) -> Result<(), Fail> {
    let alloc = rt.alloc();
    let input = frames_of(alloc, &TWO_CELLS)?;
    let (_, all) = answered(&rt, &["run"], input.as_slice(), &[], &[])?;
    for most in [1, 7, 65_536] {
        let reads = input.len().div_ceil(most.max(1)).saturating_add(1);
        for read in 0..=reads {
            if !is_tried(most, read, reads) {
                continue;
            }
            let fails = (read as u64).saturating_add(1);
            let (status, written) = answered_reading(&rt, &["run"], input.as_slice(), most, fails)?;
            let frames = whole_frames(alloc, most.saturating_mul(read))?;
            let length = OF_TWO_CELLS.get(frames).copied();
            assert_eq!(rt;
                status,
                if read < reads { 3 } else { 0 },
                "read {read} of {most}"
            );
            assert_eq!(rt; Some(written.len()), length, "read {read} of {most}");
            assert!(rt; all.as_slice().starts_with(written.as_slice()));
        }
    }
    Ok(())
}

/// Each write fails in turn, and then one that isn't made; of those of one byte some.
#[test]
fn a_sink_whose_kth_write_fails(rt: HostRuntime) -> Result<(), Fail> {
    let alloc = rt.alloc();
    let words = ["run", "--hosts", "2"];
    for (asked, length) in [(&TWO_CELLS[..], 5605), (&ALIASES[..], 11_293)] {
        let input = frames_of(alloc, asked)?;
        let (_, all) = answered(&rt, &words, input.as_slice(), &[], &[])?;
        assert_eq!(rt; all.len(), length);
        for most in [1, 250, 65_536] {
            let writes = length.div_ceil(most.max(1));
            for write in 0..=writes {
                if !is_tried(most, write, writes) {
                    continue;
                }
                let fails = (write as u64).saturating_add(1);
                let (status, written) = answered_writing(
                    &rt,
                    &words,
                    input.as_slice(),
                    most,
                    fails,
                )?;
                let taken = most.saturating_mul(write).min(length);
                assert_eq!(rt;
                    status,
                    if write < writes { 4 } else { 0 },
                    "write {write} of {most}"
                );
                assert_eq!(rt; written.len(), taken, "write {write} of {most}");
                assert!(rt; all.as_slice().starts_with(written.as_slice()));
            }
        }
    }
    Ok(())
}

#[test]
fn a_sink_that_fails_in_the_middle(rt: HostRuntime) -> Result<(), Fail> {
    let long = [
        Asked::Open,
        Asked::Cell("print('x' * 70000)"),
        Asked::Cell("1"),
    ];
    let input = frames_of(rt.alloc(), &long)?;
    let (_, whole) = answered(&rt, &["run"], input.as_slice(), &[], &[])?;
    let (status, written) = answered(&rt, &["run"], input.as_slice(), &[], &[2])?;
    assert_eq!(rt; status, 4);
    assert_eq!(rt; written.len(), 65_536);
    assert!(rt; written.len() < whole.len());
    assert!(rt; whole.as_slice().starts_with(written.as_slice()));
    Ok(())
}

#[test]
fn a_save_and_what_is_read_of_it(rt: HostRuntime) -> Result<(), Fail> {
    let save = ["save", "0", "0", "0", "1"];
    let plan = ["plan", "0", "0", "0", "1"];
    let input = frames_of(rt.alloc(), &TWO_CELLS[..2])?;
    let (status, saved) = answered(&rt, &save, input.as_slice(), &[], &[])?;
    assert_eq!(rt; status, 0);
    assert_eq!(rt; answered(&rt, &save, input.as_slice(), &[2], &[])?.0, 3);
    assert_eq!(rt; answered(&rt, &save, input.as_slice(), &[], &[1])?.0, 4);
    let planned = answered(&rt, &plan, saved.as_slice(), &[], &[])?;
    assert_eq!(rt; planned.0, 0);
    assert_eq!(rt;
        planned.1.as_slice(),
        "cost 0 flow 0\ncopy v1 x\n".as_bytes()
    );
    assert_eq!(rt; answered(&rt, &plan, saved.as_slice(), &[1], &[])?.0, 3);
    let restored = answered(&rt, &["restore"], saved.as_slice(), &[], &[])?;
    assert_eq!(rt; restored.0, 0);
    assert_eq!(rt;
        restored.1.as_slice(),
        "x = 2\ncount 1 meter 0\n".as_bytes()
    );
    assert_eq!(rt;
        answered(&rt, &["restore"], saved.as_slice(), &[1], &[])?.0,
        3
    );
    assert_eq!(rt;
        answered(&rt, &["restore"], saved.as_slice(), &[], &[1])?.0,
        4
    );
    Ok(())
}

#[test]
fn words_that_are_no_command(rt: HostRuntime) -> Result<(), Fail> {
    let table: [&[&str]; 5] = [
        &[],
        &["run", "--hosts", "0"],
        &["restore", "x"],
        &["plan", "1000001", "0", "0", "0"],
        &["plan", "0", "00", "+1", "0"],
    ];
    let input = frames_of(rt.alloc(), &TWO_CELLS)?;
    for words in table {
        let told = answered(&rt, words, input.as_slice(), &[], &[])?;
        assert_eq!(rt; told.0, 1);
        assert_eq!(rt; told.1.len(), 0);
    }
    Ok(())
}
