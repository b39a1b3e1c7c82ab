use super::{File, HELLO, OPEN, Row, SEALED_LOG, check, disk_of, done, find};
use bk_inspect::DirCommand;
use std::test::Fail;

/// A log with one entry that was not sealed.
const OPEN_LOG: File<'static> = File {
    log: 3,
    head: OPEN,
    behind: HELLO,
    length: 1049,
};

#[test]
fn a_sealed_log(rt: HostRuntime) -> Result<(), Fail> {
    let rows = [
        done(DirCommand::Logs, "0 1089 sealed\n"),
        done(DirCommand::Header(0), "version 1 map 1049 count 1\n"),
        done(DirCommand::Map(0), "1 25\n"),
        done(
            DirCommand::Scan(0),
            "1028 1 0 25\nentries 1 foreign 1 torn 0\n",
        ),
        done(find(&rt, 1, 0), "0 1028 68656c6c6f\n"),
        done(find(&rt, 1, 1), "not found\n"),
        done(DirCommand::Check, "0 ok\n"),
        Row {
            command: DirCommand::Header(9),
            status: 1,
            output: "",
            errors: "fault no log\n",
        },
        Row {
            command: DirCommand::Map(9),
            status: 1,
            output: "",
            errors: "fault no log\n",
        },
        Row {
            command: DirCommand::Scan(4_294_967_295),
            status: 1,
            output: "",
            errors: "fault no log\n",
        },
    ];
    let mut disk = disk_of(rt.alloc(), &[SEALED_LOG])?;
    check(&rt, rt.alloc(), &mut disk, &rows, "one log");
    Ok(())
}

/// A log that is shorter than a header.
const SHORT_LOG: File<'static> = File {
    log: 7,
    head: b"",
    behind: b"",
    length: 1023,
};

/// A log with two records of an entry, and a torn end.
const TWICE_LOG: File<'static> = File {
    log: 31,
    head: OPEN,
    behind: b"\0\0\0\x10\0\0\0\0\0\0\0\x02\0\0\0\0\0\0\0\x05\
\0\0\0\x12\0\0\0\0\0\0\0\x02\0\0\0\0\0\0\0\x05\x00\xff\0\0",
    length: 1068,
};

#[test]
fn several_logs(rt: HostRuntime) -> Result<(), Fail> {
    let files = [OPEN_LOG, SEALED_LOG, SHORT_LOG, TWICE_LOG];
    let rows = [
        done(
            DirCommand::Logs,
            "0 1089 sealed\n3 1049 open\n7 1023 short\n31 1068 open\n",
        ),
        done(
            DirCommand::Check,
            "0 ok\n3 unsealed\n7 short\n31 unsealed\n",
        ),
        done(find(&rt, 1, 0), "3 1028 68656c6c6f\n"),
        done(find(&rt, 2, 5), "31 1048 00ff\n"),
        done(DirCommand::Map(3), "no map\n"),
        done(DirCommand::Map(7), "short\n"),
        done(DirCommand::Header(7), "short\n"),
        done(DirCommand::Header(3), "version 1 map 0 count 0\n"),
        done(DirCommand::Scan(7), "entries 0 foreign 0 torn 0\n"),
        done(
            DirCommand::Scan(31),
            "1028 2 5 20\n1048 2 5 22\nentries 2 foreign 0 torn 2\n",
        ),
    ];
    let mut disk = disk_of(rt.alloc(), &files)?;
    check(&rt, rt.alloc(), &mut disk, &rows, "several logs");
    Ok(())
}

/// A log of version 0, in which bytes stand where later versions have the map's place.
const OLD_LOG: File<'static> = File {
    log: 0,
    head: b"BKLO\0\0\0\0\xff\xff\xff\xff\xff\xff\xff\xff\xff\xff\xff\xff",
    behind: b"\0\0\0\x15\0\0\0\0\0\0\0\x01\0\0\0\0\0\0\0\0hello\
\0\0\0\x14\0\0\0\0\0\0\0\x02\0\0\0\0\0\0\0\0gone",
    length: 1073,
};

#[test]
fn a_log_of_version_0(rt: HostRuntime) -> Result<(), Fail> {
    let rows = [
        done(DirCommand::Logs, "0 1073 open\n"),
        done(DirCommand::Header(0), "version 0 map 0 count 0\n"),
        done(DirCommand::Map(0), "no map\n"),
        done(
            DirCommand::Scan(0),
            "1028 1 0 25\n1053 2 0 24\nentries 2 foreign 0 torn 0\n",
        ),
        done(find(&rt, 1, 0), "0 1028 68656c6c6f\n"),
        done(DirCommand::Check, "0 unsealed\n"),
    ];
    let mut disk = disk_of(rt.alloc(), &[OLD_LOG])?;
    check(&rt, rt.alloc(), &mut disk, &rows, "an old log");
    Ok(())
}

#[test]
fn an_entry_without_data(rt: HostRuntime) -> Result<(), Fail> {
    let file = File {
        log: 1,
        head: OPEN,
        behind: b"\0\0\0\x10\x7f\xff\xff\xff\xff\xff\xff\xff\x7f\xff\xff\xff\xff\xff\xff\xff",
        length: 1044,
    };
    let last = 9_223_372_036_854_775_807;
    let rows = [
        done(find(&rt, last, last), "1 1028 -\n"),
        done(
            DirCommand::Scan(1),
            "1028 9223372036854775807 9223372036854775807 20\nentries 1 foreign 0 torn 0\n",
        ),
    ];
    let mut disk = disk_of(rt.alloc(), &[file])?;
    check(&rt, rt.alloc(), &mut disk, &rows, "no data");
    Ok(())
}

#[test]
fn no_logs(rt: HostRuntime) -> Result<(), Fail> {
    let rows = [
        done(DirCommand::Logs, ""),
        done(DirCommand::Check, ""),
        done(find(&rt, 0, 0), "not found\n"),
    ];
    let mut disk = disk_of(rt.alloc(), &[])?;
    check(&rt, rt.alloc(), &mut disk, &rows, "no logs");
    Ok(())
}
