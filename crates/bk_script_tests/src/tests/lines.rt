use super::{is_shown, run};

/// Scripts and their output.
static SCRIPTS: [(&str, &str); 16] = [
    ("", ""),
    ("\n\n", ""),
    ("swap", "nothing\n"),
    ("\nswap\n\n\nwrite", "nothing\nno flush\n"),
    ("add 0 0\ntake 0 0 0", "accepted\ncached -\n"),
    ("add 1 0  \ntake 0 1 0", "accepted\ncached 20\n"),
    (
        "add 1 0 a  b ~\ntake 0 1 0",
        "accepted\ncached 61202062207e\n",
    ),
    ("pad 1 0 0\ntake 0 1 0", "accepted\ncached -\n"),
    ("pad 1 0 3\ntake 0 1 0", "accepted\ncached 000000\n"),
    (
        "pad 9223372036854775807 9223372036854775807 1\ntake 3 9223372036854775807 9223372036854775807",
        "accepted\ncached 00\n",
    ),
    ("pad 1 0 8388608", "fault too long 8388624\n"),
    (
        "fetch 3\nrelease 3\nroll\nretire 2147483647\nrebuild",
        "no lease\nno lease\nnothing open\nno log\nrebuilt 0\n",
    ),
    (
        "copy 4294967295\nswitch 4294967295\nend\nfinish\ngiveup",
        "no job\nno job\nno job\nno job\nno job\n",
    ),
    (
        "add 1 0 a\nstats\nswap\nstats",
        "accepted\nstats cached 17 flushing 0 marks 1 durable 0\nswapped 1\nstats cached 0 flushing 17 marks 1 durable 0\n",
    ),
    (
        "minor\nmajor\nremove 2147483647",
        "nothing to do\nnothing to do\nno log\n",
    ),
    (
        "add 9223372036854775807 9223372036854775807 x\ntake 3 9223372036854775807 9223372036854775807",
        "accepted\ncached 78\n",
    ),
];

#[test]
fn lines_are_read_to_the_letter(rt: HostRuntime) {
    for (script, output) in &SCRIPTS {
        let shown = run(rt.alloc(), script);
        assert!(rt; is_shown(&shown, 0, output, ""), "{script:?}");
    }
}

/// Lines that encode no step.
static NO_STEPS: [&str; 107] = [
    "add 1 0 ",
    "add 1",
    "add",
    "add ",
    "add 1 ",
    "add  1 0",
    "add 01 0 x",
    "add +1 0 x",
    "add -1 0 x",
    "add 1 00 x",
    "add x 0 x",
    "add 9223372036854775808 0 x",
    "add 1 18446744073709551616 x",
    "add 1 0 \u{e9}",
    "add 1 0 \u{7f}",
    "pad",
    "pad ",
    "pad 1",
    "pad 1 0",
    "pad 1 0 ",
    "pad 1 0  3",
    "pad 1 0 3 ",
    "pad 1 0 3 4",
    "pad 1 0 x",
    "pad 1 0 03",
    "pad 1 0 +3",
    "pad 1 0 -3",
    "pad 1 0 8388609",
    "pad 1 0 18446744073709551619",
    "pad 9223372036854775808 0 1",
    "pad 1 9223372036854775808 1",
    "take 4 1 0",
    "take 0 1 0 ",
    "take 0 1",
    "take 0 1 0 0",
    "fetch",
    "fetch ",
    "fetch 4",
    "fetch 00",
    "fetch 0 ",
    "fetch 0 1 0",
    "fetch -1",
    "release",
    "release ",
    "release 4",
    "release 03",
    "release 0 0",
    "release  0",
    "delete",
    "delete ",
    "delete 01",
    "delete -1",
    "delete 1 0",
    "delete  1",
    "delete 9223372036854775808",
    "retire",
    "retire ",
    "retire 00",
    "retire 0 0",
    "retire 2147483648",
    "retire 4294967296",
    "close",
    "close 01",
    "close 2147483648",
    "rebuild ",
    "minor ",
    "minor 0",
    "Minor",
    "major 1",
    "copy",
    "copy ",
    "copy 01",
    "copy -1",
    "copy 1 1",
    "copy 4294967296",
    "end ",
    "end 1",
    "switch",
    "switch +1",
    "switch  1",
    "switch 4294967296",
    "finish 0",
    "giveup ",
    "giveup 0",
    "give up",
    "remove",
    "remove 01",
    "remove 0 0",
    "remove 2147483648",
    "rebuild 1",
    "roll ",
    "roll 0",
    "Roll",
    "stats ",
    "stats 0",
    "swap ",
    " swap",
    "swap 1",
    "swap\r",
    "\tswap",
    "swap\u{0}",
    "Swap",
    "write 1",
    "publish 0",
    "frob",
    " ",
    "  ",
];

#[test]
fn a_line_that_is_no_step_refuses_the_script(rt: HostRuntime) {
    for line in &NO_STEPS {
        let shown = run(rt.alloc(), line);
        assert!(rt;
            is_shown(&shown, 1, "", "line 1: bad command\n"),
            "{line:?}"
        );
    }
}

/// Scripts with bad lines, and the reported line.
static BAD: [(&str, &str); 3] = [
    ("add 1 0 a\n\nfrob\nfrob\n", "line 3: bad command\n"),
    ("\n\n\n \n", "line 4: bad command\n"),
    ("swap\nswap\nswap x", "line 3: bad command\n"),
];

#[test]
fn the_first_bad_line_is_told_and_no_step_runs(rt: HostRuntime) {
    for (script, errors) in &BAD {
        let shown = run(rt.alloc(), script);
        assert!(rt; is_shown(&shown, 1, "", errors), "{script:?}");
    }
}
