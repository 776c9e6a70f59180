//! The worked scripts, and runs that are cut off.

/// What the outside of a run is like.
#[derive(Clone, Copy)]
pub(super) struct Outside {
    /// How many bytes may be taken, up to four million.
    pub(super) limit: u64,

    /// How many bytes a read gives; one where this is none.
    pub(super) piece: usize,

    /// The number of the read that fails, from 1; 0 for none.
    pub(super) failing_read: u64,

    /// How many bytes the sink has room for.
    pub(super) room: usize,
}

/// Lines of a script, with the answers to them: behind `stable N` stands how many functions are called, and how many right
/// sides are built where there are any.
#[derive(Clone, Copy)]
pub(super) enum Lines {
    /// As they stand.
    Once(&'static str, &'static str),

    /// For each number from the first up to the end, which stands in place of `$`, with the next one in place of `%`, and
    /// with a piece so often in place of `*`.
    Each((u64, u64), (&'static str, usize), &'static str, &'static str),
}

/// A script, and what its run is to be like.
#[derive(Clone, Copy)]
pub(super) struct Row {
    pub(super) name: &'static str,
    pub(super) script: &'static [Lines],
    pub(super) outside: Outside,
    pub(super) status: u8,
}

/// With room for all, and five bytes a read.
pub(super) const USUAL: Outside = Outside {
    limit: 4_000_000,
    piece: 5,
    failing_read: 0,
    room: 100_000,
};

/// With room for all, and a page a read.
pub(super) const WIDE: Outside = Outside {
    limit: 4_000_000,
    piece: 4_096,
    failing_read: 0,
    room: 100_000,
};

/// With one byte a read.
const BYTE_BY_BYTE: Outside = Outside {
    limit: 4_000_000,
    piece: 1,
    failing_read: 0,
    room: 100_000,
};

/// With seven bytes a read.
pub(super) const SEVEN_BYTES: Outside = Outside {
    limit: 4_000_000,
    piece: 7,
    failing_read: 0,
    room: 100_000,
};

/// With 32 bytes a read, of which the second one fails.
const SECOND_READ_FAILS: Outside = Outside {
    limit: 4_000_000,
    piece: 32,
    failing_read: 2,
    room: 100_000,
};

/// With a sink that has room for four bytes.
const FOUR_BYTES: Outside = Outside {
    limit: 4_000_000,
    piece: 5,
    failing_read: 0,
    room: 4,
};

/// With a limit of twelve bytes.
const TWELVE_BYTES: Outside = Outside {
    limit: 12,
    piece: 5,
    failing_read: 0,
    room: 100_000,
};

/// With a limit of no byte.
const NOTHING: Outside = Outside {
    limit: 0,
    piece: 5,
    failing_read: 0,
    room: 100_000,
};

/// With the first line and no more in the first read, and a second read that fails.
const LINE_AND_FAULT: Outside = Outside {
    limit: 4_000_000,
    piece: 10,
    failing_read: 2,
    room: 100_000,
};

/// Sums and what stays as it is.
pub(super) const SUMS: &[Row] = &[
    Row {
        name: "nothing",
        script: &[Lines::Once("", "")],
        outside: USUAL,
        status: 0,
    },
    Row {
        name: "a sum",
        script: &[Lines::Once(
            "var x int 3\nlet y add(x, 4)\nobserve o y\nstabilize\nshow o\n",
            "ok\nok\nok\nstable 1\ncalls 1\no = 7\n",
        )],
        outside: USUAL,
        status: 0,
    },
    Row {
        name: "a sum, shown before the first stabilize",
        script: &[Lines::Once(
            "var x int 3\nlet y add(x, 4)\nobserve o y\nshow o\n",
            "ok\nok\nok\nrefused 13\n",
        )],
        outside: USUAL,
        status: 1,
    },
    Row {
        name: "a sum, shown before and behind a stabilize",
        script: &[Lines::Once(
            "var x int 3\nlet y add(x, 4)\nobserve o y\nstabilize\nshow o\nset x 5\nshow o\n\
                 stabilize\nshow o\n",
            "ok\nok\nok\nstable 1\ncalls 1\no = 7\nok\no = 7\nstable 2\ncalls 1\no = 9\n",
        )],
        outside: USUAL,
        status: 0,
    },
    Row {
        name: "a diamond",
        script: &[Lines::Once(
            "var x int 2\nlet a neg(x)\nlet b neg(x)\nlet c add(a, b)\nobserve o c\nstabilize\n\
                 set x 3\nstabilize\nshow o\n",
            "ok\nok\nok\nok\nok\nstable 1\ncalls 3\nok\nstable 2\ncalls 3\no = -6\n",
        )],
        outside: USUAL,
        status: 0,
    },
    Row {
        name: "a variable set to its own value",
        script: &[Lines::Once(
            "var x int 3\nlet y add(x, 4)\nobserve o y\nstabilize\nshow o\nset x 3\nstabilize\n",
            "ok\nok\nok\nstable 1\ncalls 1\no = 7\nok\nstable 2\ncalls 0\n",
        )],
        outside: USUAL,
        status: 0,
    },
    Row {
        name: "a truth that stays the same",
        script: &[Lines::Once(
            "var x int 3\nlet p lt(0, x)\nlet q pick(p, 1, 2)\nobserve o q\nstabilize\nset x 5\n\
                 stabilize\nshow o\n",
            "ok\nok\nok\nok\nstable 1\ncalls 2\nok\nstable 2\ncalls 1\no = 1\n",
        )],
        outside: USUAL,
        status: 0,
    },
];

/// Binds and grabs.
pub(super) const BINDS: &[Row] = &[
    Row {
        name: "a bind",
        script: &[Lines::Once(
            "var x int 1\nvar z int 10\nlet b bind v = x in add(z, v)\nobserve o b\nstabilize\n\
                 show o\nset x 2\nstabilize\nshow o\nset z 20\nstabilize\nshow o\n",
            "ok\nok\nok\nok\nstable 1\ncalls 1\nbuilds 1\no = 11\nok\nstable 2\ncalls 1\nbuilds 1\n\
                 o = 12\nok\nstable 3\ncalls 1\no = 22\n",
        )],
        outside: USUAL,
        status: 0,
    },
    Row {
        name: "a bind, grabbed before it is built",
        script: &[Lines::Once(
            "var x int 1\nvar z int 10\nlet b bind v = x in add(z, v)\ngrab r b\nobserve o b\n\
                 stabilize\nshow o\nset x 2\nstabilize\nshow o\nset z 20\nstabilize\nshow o\n",
            "ok\nok\nok\nrefused 9\nok\nstable 1\ncalls 1\nbuilds 1\no = 11\nok\nstable 2\ncalls 1\n\
                 builds 1\no = 12\nok\nstable 3\ncalls 1\no = 22\n",
        )],
        outside: USUAL,
        status: 1,
    },
    Row {
        name: "a grab whose scope dies",
        script: &[Lines::Once(
            "var x int 1\nvar z int 10\nlet b bind v = x in add(z, v)\nobserve o b\nstabilize\n\
                 show o\nset x 2\nstabilize\nshow o\nset z 20\nstabilize\nshow o\ngrab r b\n\
                 observe p r\nstabilize\nshow p\nset x 3\nstabilize\nshow p\nset x 2\nstabilize\n\
                 show p\nshow o\n",
            "ok\nok\nok\nok\nstable 1\ncalls 1\nbuilds 1\no = 11\nok\nstable 2\ncalls 1\nbuilds 1\n\
                 o = 12\nok\nstable 3\ncalls 1\no = 22\nok\nok\nstable 4\ncalls 0\np = 22\nok\n\
                 stable 5\ncalls 1\nbuilds 1\np = invalid\nok\nstable 6\ncalls 1\nbuilds 1\n\
                 p = invalid\no = 22\n",
        )],
        outside: USUAL,
        status: 0,
    },
    Row {
        name: "a bind within a bind",
        script: &[Lines::Once(
            "var x int 1\nvar y int 2\nlet b bind v = x in bind w = y in add(v, w)\nobserve o b\n\
                 stabilize\nshow o\nset y 5\nstabilize\nshow o\nset x 3\nstabilize\nshow o\n",
            "ok\nok\nok\nok\nstable 1\ncalls 1\nbuilds 2\no = 3\nok\nstable 2\ncalls 1\nbuilds 1\n\
                 o = 6\nok\nstable 3\ncalls 1\nbuilds 2\no = 8\n",
        )],
        outside: USUAL,
        status: 0,
    },
    Row {
        name: "an if within a body",
        script: &[Lines::Once(
            "var x int 1\nvar h node int &x\n\
                 let b bind v = x in if lt(v, 2) then join(h) else neg(v)\nobserve o b\nstabilize\n\
                 show o\nset x 3\nstabilize\nshow o\n",
            "ok\nok\nok\nok\nstable 1\ncalls 1\nbuilds 1\no = 1\nok\nstable 2\ncalls 2\nbuilds 1\n\
                 o = -3\n",
        )],
        outside: USUAL,
        status: 0,
    },
    Row {
        name: "a reader outside of a scope that dies",
        script: &[Lines::Once(
            "var x int 1\nvar h node int &x\nlet b bind v = x in neg(v)\nobserve o b\nstabilize\n\
                 grab r b\nset h &r\nlet j join(h)\nobserve q j\nstabilize\nshow q\nset x 2\nstabilize\n\
                 show q\nset h &x\nstabilize\nshow q\n",
            "ok\nok\nok\nok\nstable 1\ncalls 1\nbuilds 1\nok\nok\nok\nok\nstable 2\ncalls 0\n\
                 q = -1\nok\nstable 3\ncalls 1\nbuilds 1\nq = invalid\nok\nstable 4\ncalls 0\nq = 2\n",
        )],
        outside: USUAL,
        status: 0,
    },
    Row {
        name: "what only a dying right side reads",
        script: &[Lines::Once(
            "var x int 1\nvar w int 1\nlet z neg(w)\nlet b bind v = x in neg(z)\nobserve o b\n\
                 stabilize\ngrab r b\nunobserve o\nset w 5\nset x 2\nobserve p r\nstabilize\nshow p\n",
            "ok\nok\nok\nok\nok\nstable 1\ncalls 2\nbuilds 1\nok\nok\nok\nok\nok\nstable 2\n\
                 calls 0\nbuilds 1\np = invalid\n",
        )],
        outside: USUAL,
        status: 0,
    },
    Row {
        name: "a circle through a right side that dies",
        script: &[Lines::Once(
            "var x int 1\nvar w int 1\nvar h node int &w\nlet z join(h)\n\
                 let b bind v = x in neg(z)\nobserve o b\nstabilize\ngrab r b\nlet y neg(r)\n\
                 observe p y\nstabilize\nset x 2\nset h &y\nstabilize\nshow o\nshow p\n",
            "ok\nok\nok\nok\nok\nok\nstable 1\ncalls 1\nbuilds 1\nok\nok\nok\nstable 2\ncalls 1\n\
                 ok\nok\nstable 3\ncalls 0\nbuilds 1\no = invalid\np = invalid\n",
        )],
        outside: USUAL,
        status: 0,
    },
];

/// Ifs, joins and references.
pub(super) const CHOICES: &[Row] = &[
    Row {
        name: "a join that reads itself",
        script: &[Lines::Once(
            "var x int 1\nvar h node int &x\nlet j join(h)\nobserve o j\nset h &j\nstabilize\nshow o\n",
            "ok\nok\nok\nok\nok\nrefused 20 cycle j j\nrefused 22 20\n",
        )],
        outside: USUAL,
        status: 1,
    },
    Row {
        name: "a join that reads itself, observed last",
        script: &[Lines::Once(
            "var x int 1\nvar h node int &x\nlet j join(h)\nset h &j\nobserve o j\nstabilize\nshow o\n",
            "ok\nok\nok\nok\nok\nrefused 20 cycle j j\nrefused 22 20\n",
        )],
        outside: USUAL,
        status: 1,
    },
    Row {
        name: "ifs that read each other in turn",
        script: &[Lines::Once(
            "var c bool true\nvar u int 1\nvar hx node int &u\nvar hy node int &u\n\
                 let x if c then join(hx) else u\nlet y if c then u else join(hy)\nset hx &y\n\
                 set hy &x\nobserve o x\nobserve p y\nstabilize\nshow o\nset c false\nstabilize\n\
                 show o\nshow p\n",
            "ok\nok\nok\nok\nok\nok\nok\nok\nok\nok\nstable 1\ncalls 0\no = 1\nok\nstable 2\n\
                 calls 0\no = 1\np = 1\n",
        )],
        outside: USUAL,
        status: 0,
    },
    Row {
        name: "the side of an if that is read",
        script: &[Lines::Once(
            "var c bool true\nvar x int 1\nvar y int 2\nlet q if c then neg(x) else neg(y)\n\
                 observe o q\nstabilize\nshow o\nset c false\nstabilize\nshow o\nset x 5\nstabilize\n\
                 show o\n",
            "ok\nok\nok\nok\nok\nstable 1\ncalls 1\no = -1\nok\nstable 2\ncalls 1\no = -2\nok\n\
                 stable 3\ncalls 0\no = -2\n",
        )],
        outside: USUAL,
        status: 0,
    },
    Row {
        name: "a join that is read no more",
        script: &[Lines::Once(
            "var c bool true\nvar d bool true\nvar x int 1\nvar h node int &x\n\
                 let g if not(not(d)) then h else h\nlet j join(g)\nlet q if c then j else x\n\
                 observe o q\nstabilize\nset c false\nset h &j\nstabilize\nshow o\n",
            "ok\nok\nok\nok\nok\nok\nok\nok\nstable 1\ncalls 2\nok\nok\nstable 2\ncalls 0\no = 1\n",
        )],
        outside: USUAL,
        status: 0,
    },
    Row {
        name: "a reference to a second name",
        script: &[Lines::Once(
            "var t text \"a\\\"b\"\nlet u cat(t, \"c\")\nobserve o u\nvar x int 1\nlet y x\n\
                 var h node int &y\nobserve q h\nstabilize\nshow o\nshow q\n",
            "ok\nok\nok\nok\nok\nok\nok\nstable 1\ncalls 1\no = \"a\\\"bc\"\nq = &x\n",
        )],
        outside: USUAL,
        status: 0,
    },
];

/// Scripts at the limits.
pub(super) const LIMITS: &[Row] = &[
    Row {
        name: "the longest chain, and one more",
        script: &[
            Lines::Once("var n0 int 1\n", "ok\n"),
            Lines::Each((0, 128), ("", 0), "let n% neg(n$)\n", "ok\n"),
            Lines::Once(
                "observe o n128\nstabilize\nshow o\nlet n129 neg(n128)\nobserve p n129\nstabilize\n\
                 show o\n",
                "ok\nstable 1\ncalls 128\no = 1\nok\nok\nrefused 21 height n129\nrefused 22 21\n",
            ),
        ],
        outside: USUAL,
        status: 1,
    },
    Row {
        name: "the longest chain of folds, and one more",
        script: &[
            Lines::Once("var n0 int 1\n", "ok\n"),
            Lines::Each((0, 128), ("", 0), "let n% fold add from 1 [n$]\n", "ok\n"),
            Lines::Once(
                "observe o n128\nstabilize\nshow o\nlet n129 fold add from 1 [n128]\nobserve p n129\n\
                 stabilize\nshow o\n",
                "ok\nstable 1\ncalls 128\no = 129\nok\nok\nrefused 21 height n129\nrefused 22 21\n",
            ),
        ],
        outside: USUAL,
        status: 1,
    },
    Row {
        name: "a line that is too long, and a last one without a newline",
        script: &[
            Lines::Once(
                "var x int 9223372036854775807\nlet y add(x, 1)\nobserve o y\nstabilize\n",
                "ok\nok\nok\nstable 1\ncalls 1\n",
            ),
            Lines::Each(
                (0, 1),
                ("a", 4_097),
                "*\nshow o",
                "refused 2\no = -9223372036854775808\n",
            ),
        ],
        outside: SEVEN_BYTES,
        status: 1,
    },
    Row {
        name: "the longest line",
        script: &[Lines::Each((0, 1), ("a", 4_096), "*\n", "refused 1\n")],
        outside: USUAL,
        status: 1,
    },
    Row {
        name: "all places taken, and one more",
        script: &[
            Lines::Each(
                (0, 1_023),
                (",1", 1_022),
                "let a$ fold add from 0 [1*]\n",
                "ok\n",
            ),
            Lines::Each(
                (1023, 1_024),
                (",1", 1_021),
                "let a$ fold add from 0 [1*]\n",
                "ok\n",
            ),
            Lines::Once("let z 1\n", "refused 19\n"),
        ],
        outside: WIDE,
        status: 1,
    },
];

/// Observers, functions, and lines of each kind.
pub(super) const LANGUAGE: &[Row] = &[
    Row {
        name: "an observer that ends",
        script: &[Lines::Once(
            "var x int 3\nlet y add(x, 4)\nobserve o y\nstabilize\nshow o\nunobserve o\nset x 9\n\
                 stabilize\nshow o\n",
            "ok\nok\nok\nstable 1\ncalls 1\no = 7\nok\nok\nstable 2\ncalls 0\nrefused 11\n",
        )],
        outside: USUAL,
        status: 1,
    },
    Row {
        name: "an observer that takes the place of another",
        script: &[Lines::Once(
            "var x int 3\nlet y add(x, 4)\nobserve o y\nstabilize\nshow o\nunobserve o\n\
                 observe q y\nstabilize\nshow q\n",
            "ok\nok\nok\nstable 1\ncalls 1\no = 7\nok\nok\nstable 2\ncalls 0\nq = 7\n",
        )],
        outside: USUAL,
        status: 0,
    },
    Row {
        name: "nine arguments, and a fold from the left",
        script: &[Lines::Once(
            "var x int 2\nlet s sum9(x, x, x, x, x, x, x, x, x)\nlet f fold sub from 100 [x, x, 5]\n\
                 observe o s\nobserve p f\nstabilize\nshow o\nshow p\nset x 3\nstabilize\nshow p\n",
            "ok\nok\nok\nok\nok\nstable 1\ncalls 4\no = 18\np = 91\nok\nstable 2\ncalls 4\np = 89\n",
        )],
        outside: USUAL,
        status: 0,
    },
    Row {
        name: "a text",
        script: &[Lines::Once(
            "var t text \"a\\\"b\"\nlet u cat(t, \"c\")\nobserve o u\nstabilize\nshow o\n",
            "ok\nok\nok\nstable 1\ncalls 1\no = \"a\\\"bc\"\n",
        )],
        outside: USUAL,
        status: 0,
    },
    Row {
        name: "functions at their edges",
        script: &[
            Lines::Each((0, 1), ("a", 2_048), "var t text \"*\"\n", "ok\n"),
            Lines::Once(
                "let h cat(t, t)\nlet i len(cat(h, h))\nobserve oi i\nlet a div(-7, 2)\nobserve oa a\n\
                 let b rem(-7, 2)\nobserve ob b\nlet c div(7, 0)\nobserve oc c\nlet d rem(7, 0)\n\
                 observe od d\nlet e div(-9223372036854775808, -1)\nobserve oe e\n\
                 let f rem(-9223372036854775808, -1)\nobserve of f\nlet g clamp(5, 1, 3)\nobserve og g\n",
                "ok\nok\nok\nok\nok\nok\nok\nok\nok\nok\nok\nok\nok\nok\nok\nok\nok\n",
            ),
            Lines::Once(
                "stabilize\nshow oi\nshow oa\nshow ob\nshow oc\nshow od\nshow oe\nshow of\nshow og\n",
                "stable 1\ncalls 10\noi = 4096\noa = -3\nob = -1\noc = 0\nod = 0\n\
                 oe = -9223372036854775808\nof = 0\nog = 3\n",
            ),
        ],
        outside: USUAL,
        status: 0,
    },
    Row {
        name: "lines of each kind",
        script: &[
            Lines::Once(
                "var x int 1\nlet x 2\nlet y q\nlet y foo(x)\nlet y add(x, true)\nlet y add(x)\n\
                 let y add()\nlet y neg(x)\nset y 2\ngrab g y\nwatch o\nobserve o x\nobserve o y\n",
                "ok\nrefused 3\nrefused 4\nrefused 5\nrefused 6\nrefused 6\nrefused 1\nok\nrefused 7\n\
                 refused 8\nrefused 11\nok\nrefused 12\n",
            ),
            Lines::Once(
                "let z add(after 1s, 1)\nlet z every 0s\nlet z at 9223372037s\nlet z at 9223372036s\n",
                "refused 14\nrefused 18\nrefused 16\nok\n",
            ),
            Lines::Each(
                (0, 1),
                ("neg(", 64),
                "let w *x))))))))))))))))))))))))))))))))))))))))))))))))))))))))))))))))\n",
                "ok\n",
            ),
            Lines::Each(
                (0, 1),
                ("neg(", 65),
                "let v *x)))))))))))))))))))))))))))))))))))))))))))))))))))))))))))))))))\n",
                "refused 25\n",
            ),
            Lines::Once(
                "advance 9223372036854775807ns\nadvance 1ns\n",
                "ok\nrefused 16\n",
            ),
            Lines::Once("# note\n\nshow o\nshow q\n", "refused 13\nrefused 11\n"),
        ],
        outside: USUAL,
        status: 1,
    },
];

/// Formulas that read the clock, which scripts move.
pub(super) const CLOCK: &[Row] = &[
    Row {
        name: "a time that comes",
        script: &[Lines::Once(
            "let a at 5s\nobserve o a\nstabilize\nshow o\nadvance 4999999999ns\nstabilize\nshow o\n\
                 advance 1ns\nstabilize\nshow o\nadvance 0ns\n",
            "ok\nok\nstable 1\ncalls 0\no = false\nok\nstable 2\ncalls 0\no = false\nok\nstable 3\n\
                 calls 0\no = true\nok\n",
        )],
        outside: USUAL,
        status: 0,
    },
    Row {
        name: "spans that went by",
        script: &[Lines::Once(
            "advance 3s\nlet t every 10s\nobserve o t\nstabilize\nshow o\nadvance-to 12s\nstabilize\nshow o\n\
                 advance-to 13s\nstabilize\nshow o\nadvance-to 43s\nstabilize\nshow o\nadvance-to 42s\n",
            "ok\nok\nok\nstable 1\ncalls 0\no = 0\nok\nstable 2\ncalls 0\no = 0\nok\nstable 3\ncalls 0\n\
                 o = 1\nok\nstable 4\ncalls 0\no = 4\nrefused 15\n",
        )],
        outside: USUAL,
        status: 1,
    },
    Row {
        name: "steps that began",
        script: &[Lines::Once(
            "advance 9s\nlet s steps 0 [5s: 1, 9s: 2]\nobserve o s\nstabilize\nshow o\n\
                 let w steps 0 [5s: 1, 5s: 2]\n",
            "ok\nok\nok\nstable 1\ncalls 0\no = 2\nrefused 17\n",
        )],
        outside: USUAL,
        status: 1,
    },
    Row {
        name: "the clock itself",
        script: &[Lines::Once(
            "let n now\nobserve o n\nstabilize\nshow o\nadvance 5s\nshow o\nstabilize\nshow o\n",
            "ok\nok\nstable 1\ncalls 0\no = 0\nok\no = 0\nstable 2\ncalls 0\no = 5000000000\n",
        )],
        outside: USUAL,
        status: 0,
    },
    Row {
        name: "a bind over a count of spans, whose right side reads the clock",
        script: &[Lines::Once(
            "let t every 10s\nlet b bind v = t in if at 15s then add(v, 100) else v\nobserve o b\nstabilize\n\
                 show o\nadvance 10s\nstabilize\nshow o\nadvance 5s\nstabilize\nshow o\nadvance 5s\nstabilize\n\
                 show o\n",
            "ok\nok\nok\nstable 1\ncalls 0\nbuilds 1\no = 0\nok\nstable 2\ncalls 0\nbuilds 1\no = 1\nok\n\
                 stable 3\ncalls 1\no = 101\nok\nstable 4\ncalls 1\nbuilds 1\no = 102\n",
        )],
        outside: USUAL,
        status: 0,
    },
];

/// What is told of watched observers.
pub(super) const WATCHES: &[Row] = &[
    Row {
        name: "two observers, of which one is watched twice and ends",
        script: &[Lines::Once(
            "var x int 1\nobserve o x\nwatch o\nwatch o\nobserve p x\nwatch p\nstabilize\nset x 2\nunobserve o\n\
                 stabilize\n",
            "ok\nok\nok\nok\nok\nok\nstable 1\no init 1\np init 1\ncalls 0\nok\nok\nstable 2\np change 1 2\n\
                 calls 0\n",
        )],
        outside: USUAL,
        status: 0,
    },
    Row {
        name: "a reference to a grab that dies, watched",
        script: &[Lines::Once(
            "var x int 1\nvar h node int &x\nlet b bind v = x in neg(v)\nobserve o b\nstabilize\ngrab r b\nset h &r\n\
                 let j join(h)\nobserve q j\nwatch q\nstabilize\nset x 2\nstabilize\nset h &x\nstabilize\n",
            "ok\nok\nok\nok\nstable 1\ncalls 1\nbuilds 1\nok\nok\nok\nok\nok\nstable 2\nq init -1\ncalls 0\nok\n\
                 stable 3\nq invalid\ncalls 1\nbuilds 1\nok\nstable 4\nq change invalid 2\ncalls 0\n",
        )],
        outside: USUAL,
        status: 0,
    },
    Row {
        name: "the same, seven bytes a read",
        script: &[Lines::Once(
            "var x int 1\nvar h node int &x\nlet b bind v = x in neg(v)\nobserve o b\nstabilize\ngrab r b\nset h &r\n\
                 let j join(h)\nobserve q j\nwatch q\nstabilize\nset x 2\nstabilize\nset h &x\nstabilize\n",
            "ok\nok\nok\nok\nstable 1\ncalls 1\nbuilds 1\nok\nok\nok\nok\nok\nstable 2\nq init -1\ncalls 0\nok\n\
                 stable 3\nq invalid\ncalls 1\nbuilds 1\nok\nstable 4\nq change invalid 2\ncalls 0\n",
        )],
        outside: SEVEN_BYTES,
        status: 0,
    },
    Row {
        name: "a sum that is told once, though it is asked for again",
        script: &[Lines::Once(
            "var x int 5\nlet e fold add from 0 [x]\nobserve o e\nwatch o\nstabilize\nset x 6\nset x 5\nstabilize\n\
                 watch p\n",
            "ok\nok\nok\nok\nstable 1\no init 5\ncalls 1\nok\nok\nstable 2\ncalls 0\nrefused 11\n",
        )],
        outside: USUAL,
        status: 1,
    },
    Row {
        name: "an observer that is watched late, and one that has its name again",
        script: &[Lines::Once(
            "var t text \"a\"\nvar h node text &t\nobserve z h\nobserve a t\nstabilize\nwatch a\nset t \"b\"\nwatch z\n\
                 stabilize\nunobserve z\nset t \"c\"\nstabilize\nobserve z t\nset t \"d\"\nstabilize\nwatch z\nstabilize\n",
            "ok\nok\nok\nok\nstable 1\ncalls 0\nok\nok\nok\nstable 2\nz init &t\na init \"b\"\ncalls 0\nok\nok\n\
                 stable 3\na change \"b\" \"c\"\ncalls 0\nok\nok\nstable 4\na change \"c\" \"d\"\ncalls 0\nok\n\
                 stable 5\nz init \"d\"\ncalls 0\n",
        )],
        outside: USUAL,
        status: 0,
    },
];

/// Reads in pieces, and runs that are cut off.
pub(super) const STREAMS: &[Row] = &[
    Row {
        name: "a sum, byte by byte",
        script: &[Lines::Once(
            "var x int 3\nlet y add(x, 4)\nobserve o y\nstabilize\nshow o\n",
            "ok\nok\nok\nstable 1\ncalls 1\no = 7\n",
        )],
        outside: BYTE_BY_BYTE,
        status: 0,
    },
    Row {
        name: "a sum, seven bytes a read",
        script: &[Lines::Once(
            "var x int 3\nlet y add(x, 4)\nobserve o y\nstabilize\nshow o\n",
            "ok\nok\nok\nstable 1\ncalls 1\no = 7\n",
        )],
        outside: SEVEN_BYTES,
        status: 0,
    },
    Row {
        name: "a sum, whose second read fails",
        script: &[Lines::Once(
            "var x int 3\nlet y add(x, 4)\nobserve o y\nstabilize\nshow o\n",
            "ok\nok\n",
        )],
        outside: SECOND_READ_FAILS,
        status: 3,
    },
    Row {
        name: "a sum, into a sink of four bytes",
        script: &[Lines::Once(
            "var x int 3\nlet y add(x, 4)\nobserve o y\nstabilize\nshow o\n",
            "ok\no",
        )],
        outside: FOUR_BYTES,
        status: 4,
    },
    Row {
        name: "a sum, of which twelve bytes may be taken",
        script: &[Lines::Once(
            "var x int 3\nlet y add(x, 4)\nobserve o y\nstabilize\nshow o\n",
            "ok\n",
        )],
        outside: TWELVE_BYTES,
        status: 6,
    },
    Row {
        name: "one line of twelve bytes",
        script: &[Lines::Once("var x int 3\n", "ok\n")],
        outside: TWELVE_BYTES,
        status: 0,
    },
    Row {
        name: "twelve bytes and an empty line",
        script: &[Lines::Once("var x int 3\n\n", "ok\n")],
        outside: TWELVE_BYTES,
        status: 6,
    },
    Row {
        name: "one byte, where none may be taken",
        script: &[Lines::Once("a", "")],
        outside: NOTHING,
        status: 6,
    },
    Row {
        name: "a read that fails behind a line",
        script: &[Lines::Once("stabilize\nstabilize\n", "stable 1\ncalls 0\n")],
        outside: LINE_AND_FAULT,
        status: 3,
    },
    Row {
        name: "a read that fails within a line",
        script: &[Lines::Once("stabilize\nstab", "stable 1\ncalls 0\n")],
        outside: LINE_AND_FAULT,
        status: 3,
    },
    Row {
        name: "a read that fails behind a refused line",
        script: &[Lines::Once("unobserve\nstabilize\n", "refused 1\n")],
        outside: LINE_AND_FAULT,
        status: 3,
    },
    Row {
        name: "a read that fails before the first line ends",
        script: &[Lines::Once("observe o x\n", "")],
        outside: LINE_AND_FAULT,
        status: 3,
    },
];
