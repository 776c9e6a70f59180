//! The worked scripts of freezes and experts.

use crate::rows::{Lines, Row, SEVEN_BYTES, USUAL, WIDE};

pub(super) const LISTS: &[Row] = &[
    Row {
        name: "a freeze that keeps its value unobserved",
        script: &[Lines::Once(
            "var y int -1\nlet f freeze y when pos\nstabilize\nset y 4\nstabilize\nset y 9\nstabilize\nobserve o f\n\
                 stabilize\nshow o\n",
            "ok\nok\nstable 1\ncalls 1\nok\nstable 2\ncalls 1\nok\nstable 3\ncalls 0\nok\nstable 4\ncalls 0\no = 4\n",
        )],
        outside: USUAL,
        status: 0,
    },
    Row {
        name: "an expert that is made stale, watched",
        script: &[Lines::Once(
            "var x int 5\nvar z int 7\nexpert e fold add from 0\nlink e x\nlink e x\nunlink e x\nobserve o e\nwatch o\n\
                 stabilize\nstale e\nstabilize\nunlink e z\n",
            "ok\nok\nok\nok\nok\nok\nok\nok\nstable 1\no init 5\ncalls 1\nok\nstable 2\ncalls 1\nrefused 23\n",
        )],
        outside: USUAL,
        status: 1,
    },
    Row {
        name: "an expert that is made stale, shown, seven bytes a read",
        script: &[Lines::Once(
            "var x int 5\nvar z int 7\nexpert e fold add from 0\nlink e x\nlink e x\nunlink e x\nobserve o e\nstabilize\n\
                 show o\nstale e\nstabilize\nunlink e z\n",
            "ok\nok\nok\nok\nok\nok\nok\nstable 1\ncalls 1\no = 5\nok\nstable 2\ncalls 1\nrefused 23\n",
        )],
        outside: SEVEN_BYTES,
        status: 1,
    },
    Row {
        name: "an expert in its own list",
        script: &[Lines::Once(
            "expert e fold add from 0\nlink e e\nobserve o e\nstabilize\n",
            "ok\nok\nok\nrefused 20 cycle e e\n",
        )],
        outside: USUAL,
        status: 1,
    },
    Row {
        name: "a list of 4,096 links, and one more",
        script: &[
            Lines::Once("var x int 1\nexpert e fold add from 0\n", "ok\nok\n"),
            Lines::Each((0, 4_096), ("", 0), "link e x\n", "ok\n"),
            Lines::Once("link e x\n", "refused 24\n"),
        ],
        outside: WIDE,
        status: 1,
    },
];
