//! Sessions whose feeds give what a test says.

use crate::test_streams::{Asked, answered_drawing, frames_of, wrong};
use nb_outside::Drawn;
use std::test::Fail;

/// Some asks of a session, what its feed gives before it fails, and what is written for them, and how often.
struct Row {
    shows: &'static str,
    draws: &'static [Drawn],
    asked: &'static [Asked],
    texts: &'static [(&'static str, usize)],
}

const BY_STEPS: [u32; 4] = [0, 0, 0, 1];

static ROWS: [Row; 3] = [
    Row {
        shows: "a handle is opened again on the new host",
        draws: &[Drawn::Word(7)],
        asked: &[
            Asked::Open,
            Asked::Cell("n = draw()"),
            Asked::Cell("h = handle(\\\"g\\\" + str(n))"),
            Asked::Move(BY_STEPS),
            Asked::Cell("tell(h)"),
            Asked::Cell("h"),
        ],
        texts: &[
            (
                "{\"copied\":1,\"cost\":9,\"flow\":9,\"from\":0,\"objects\":1,\"rerun\":1,\"status\":\"ok\",\"to\":1}",
                1,
            ),
            ("\"text/plain\":\"1\"", 1),
            ("\"text/plain\":\"<handle 'g7'>\"", 1),
        ],
    },
    Row {
        shows: "a handle that needs a draw is stuck",
        draws: &[Drawn::Word(7)],
        asked: &[
            Asked::Open,
            Asked::Cell("n = draw()"),
            Asked::Cell("h = handle(\\\"g\\\" + str(n))"),
            Asked::Cell("n = 0"),
            Asked::Move(BY_STEPS),
            Asked::Cell("tell(h)"),
        ],
        texts: &[
            (
                "{\"cell\":1,\"ename\":\"Stuck\",\"evalue\":\"neither copied nor recomputed\",\"names\":[\"h\"],\"size\":1,\"status\":\"error\",\"version\":2}",
                1,
            ),
            ("\"text/plain\":\"1\"", 1),
        ],
    },
    Row {
        shows: "a draw that failed isn't drawn again",
        draws: &[Drawn::Failed, Drawn::Word(7)],
        asked: &[
            Asked::Open,
            Asked::Cell("a = 1\\nb = draw()\\nc = 2"),
            Asked::Move([1000, 0, 0, 0]),
            Asked::Cell("a"),
            Asked::Cell("b"),
            Asked::Cell("draw()"),
        ],
        texts: &[
            ("[\"OSError: feed\"]", 2),
            (
                "{\"copied\":1,\"cost\":1000,\"flow\":1000,\"from\":0,\"objects\":0,\"rerun\":0,\"status\":\"ok\",\"to\":1}",
                1,
            ),
            ("\"text/plain\":\"1\"", 1),
            ("[\"NameError: name 'b' is not defined\"]", 2),
            ("\"text/plain\":\"7\"", 1),
        ],
    },
];

/// A cell that draws four times, a move, and every name.
static FOUR_DRAWS: [Asked; 7] = [
    Asked::Open,
    Asked::Cell("a = draw()\\nb = draw()\\nc = draw()\\nd = draw()"),
    Asked::Move([1000, 0, 0, 0]),
    Asked::Cell("a"),
    Asked::Cell("b"),
    Asked::Cell("c"),
    Asked::Cell("d"),
];

/// Which of the four draws fails, what the feed gives, and what is written, and how often.
struct Failing {
    shows: &'static str,
    draws: &'static [Drawn],
    texts: &'static [(&'static str, usize)],
}

/// Each draw fails in turn, and then one that isn't made. What was bound before it is copied, for 1,000 each; later names have no value.
static FAILING: [Failing; 5] = [
    Failing {
        shows: "the first draw fails",
        draws: &[Drawn::Failed, Drawn::Word(11)],
        texts: &[
            ("[\"OSError: feed\"]", 2),
            (
                "{\"copied\":0,\"cost\":0,\"flow\":0,\"from\":0,\"objects\":0,\"rerun\":0,\"status\":\"ok\",\"to\":1}",
                1,
            ),
            ("text/plain", 0),
            ("[\"NameError: name 'a' is not defined\"]", 2),
            ("[\"NameError: name 'b' is not defined\"]", 2),
            ("[\"NameError: name 'c' is not defined\"]", 2),
            ("[\"NameError: name 'd' is not defined\"]", 2),
        ],
    },
    Failing {
        shows: "the second draw fails",
        draws: &[Drawn::Word(7), Drawn::Failed, Drawn::Word(11)],
        texts: &[
            ("[\"OSError: feed\"]", 2),
            (
                "{\"copied\":1,\"cost\":1000,\"flow\":1000,\"from\":0,\"objects\":0,\"rerun\":0,\"status\":\"ok\",\"to\":1}",
                1,
            ),
            ("\"text/plain\":\"7\"", 1),
            ("text/plain", 1),
            ("[\"NameError: name 'a' is not defined\"]", 0),
            ("[\"NameError: name 'b' is not defined\"]", 2),
            ("[\"NameError: name 'c' is not defined\"]", 2),
            ("[\"NameError: name 'd' is not defined\"]", 2),
        ],
    },
    Failing {
        shows: "the third draw fails",
        draws: &[
            Drawn::Word(7),
            Drawn::Word(8),
            Drawn::Failed,
            Drawn::Word(11),
        ],
        texts: &[
            ("[\"OSError: feed\"]", 2),
            (
                "{\"copied\":2,\"cost\":2000,\"flow\":2000,\"from\":0,\"objects\":0,\"rerun\":0,\"status\":\"ok\",\"to\":1}",
                1,
            ),
            ("\"text/plain\":\"7\"", 1),
            ("\"text/plain\":\"8\"", 1),
            ("text/plain", 2),
            ("[\"NameError: name 'a' is not defined\"]", 0),
            ("[\"NameError: name 'b' is not defined\"]", 0),
            ("[\"NameError: name 'c' is not defined\"]", 2),
            ("[\"NameError: name 'd' is not defined\"]", 2),
        ],
    },
    Failing {
        shows: "the fourth draw fails",
        draws: &[
            Drawn::Word(7),
            Drawn::Word(8),
            Drawn::Word(9),
            Drawn::Failed,
            Drawn::Word(11),
        ],
        texts: &[
            ("[\"OSError: feed\"]", 2),
            (
                "{\"copied\":3,\"cost\":3000,\"flow\":3000,\"from\":0,\"objects\":0,\"rerun\":0,\"status\":\"ok\",\"to\":1}",
                1,
            ),
            ("\"text/plain\":\"7\"", 1),
            ("\"text/plain\":\"8\"", 1),
            ("\"text/plain\":\"9\"", 1),
            ("text/plain", 3),
            ("[\"NameError: name 'a' is not defined\"]", 0),
            ("[\"NameError: name 'b' is not defined\"]", 0),
            ("[\"NameError: name 'c' is not defined\"]", 0),
            ("[\"NameError: name 'd' is not defined\"]", 2),
        ],
    },
    Failing {
        shows: "no draw fails",
        draws: &[
            Drawn::Word(7),
            Drawn::Word(8),
            Drawn::Word(9),
            Drawn::Word(10),
        ],
        texts: &[
            ("[\"OSError: feed\"]", 0),
            (
                "{\"copied\":4,\"cost\":4000,\"flow\":4000,\"from\":0,\"objects\":0,\"rerun\":0,\"status\":\"ok\",\"to\":1}",
                1,
            ),
            ("\"text/plain\":\"7\"", 1),
            ("\"text/plain\":\"8\"", 1),
            ("\"text/plain\":\"9\"", 1),
            ("\"text/plain\":\"10\"", 1),
            ("text/plain", 4),
            ("[\"NameError: name 'a' is not defined\"]", 0),
            ("[\"NameError: name 'b' is not defined\"]", 0),
            ("[\"NameError: name 'c' is not defined\"]", 0),
            ("[\"NameError: name 'd' is not defined\"]", 0),
        ],
    },
];

#[test]
fn a_cell_whose_kth_draw_fails_moves_with_what_it_bound(rt: HostRuntime) -> Result<(), Fail> {
    let input = frames_of(rt.alloc(), &FOUR_DRAWS)?;
    let words = ["run", "--hosts", "3", "--workers=2"];
    for row in &FAILING {
        let found = wrong(&rt, &words, input.as_slice(), row.draws, row.texts)?;
        assert_eq!(rt; found.as_str(), "", "{}", row.shows);
    }
    Ok(())
}

#[test]
fn sessions_draw_what_their_feeds_give(rt: HostRuntime) -> Result<(), Fail> {
    for row in &ROWS {
        let input = frames_of(rt.alloc(), row.asked)?;
        let words = ["run", "--hosts", "3", "--workers=2"];
        let found = wrong(&rt, &words, input.as_slice(), row.draws, row.texts)?;
        assert_eq!(rt; found.as_str(), "", "{}", row.shows);
    }
    Ok(())
}

#[test]
fn a_session_that_is_stuck_is_not_saved(rt: HostRuntime) -> Result<(), Fail> {
    let stuck = [
        Asked::Open,
        Asked::Cell("n = draw()"),
        Asked::Cell("h = handle(\\\"g\\\" + str(n))"),
        Asked::Cell("n = 0"),
        Asked::Cell("tell(h)"),
    ];
    let input = frames_of(rt.alloc(), &stuck)?;
    let words = ["save", "0", "0", "0", "1"];
    let told = answered_drawing(&rt, &words, input.as_slice(), &[Drawn::Word(7)])?;
    assert_eq!(rt; told.0, 6);
    assert_eq!(rt; told.1.len(), 0);
    Ok(())
}
