//! Texts of faults: the program prints the text that a fault has by itself.

use super::{DEFAULTS, is_shown, run_from};
use bk_drive::{AddFault, CollectFault, DeleteFault, OpenFault, Settings, StepFault};
use bk_log::FetchFault;
use bk_record::RecordFault;
use bk_script::{ScriptFault, Text};
use std::alloc::{AllocError, Global};
use std::test::Fail;

/// Reasons why scripts are not run.
static SCRIPTS: [ScriptFault; 7] = [
    ScriptFault::Read,
    ScriptFault::Bad(3),
    ScriptFault::Open(OpenFault::Disk),
    ScriptFault::Open(OpenFault::Memory),
    ScriptFault::Open(OpenFault::Odd),
    ScriptFault::Open(OpenFault::Settings),
    ScriptFault::Memory,
];

/// The line of each reason.
const TOLD: &str = "\
read fault
line 3: bad command
fault disk
fault memory
fault odd disk
fault settings
fault memory
";

/// Returns the texts of the reasons, one line each.
fn of_scripts(alloc: Global) -> Result<String, AllocError> {
    let mut texts = String::new(alloc);
    for fault in &SCRIPTS {
        write!(texts, "{fault}\n")?;
    }
    Ok(texts)
}

/// Settings without slots, which no store allows.
const NO_SLOTS: Settings = Settings {
    slots: 0,
    ..DEFAULTS
};

#[test]
fn why_a_script_is_not_run_goes_to_the_error_stream(rt: HostRuntime) -> Result<(), Fail> {
    let texts = of_scripts(rt.alloc())?;
    assert!(rt; texts.as_str() == TOLD, "{texts}");
    let shown = run_from(rt.alloc(), NO_SLOTS, &[], &mut "swap".as_bytes());
    assert!(rt; is_shown(&shown, 1, "", "fault settings\n"), "no slots");
    Ok(())
}

static RECORDS: [RecordFault; 4] = [
    RecordFault::Short(15),
    RecordFault::Negative,
    RecordFault::TooLong(5_000_001),
    RecordFault::Memory,
];

static ADDS: [AddFault; 4] = [
    AddFault::Bad(RecordFault::Short(15)),
    AddFault::Deleted,
    AddFault::Full {
        used: 100,
        limit: 115,
    },
    AddFault::Memory,
];

static DELETIONS: [DeleteFault; 2] = [DeleteFault::AlreadyDeleted, DeleteFault::Memory];

static FETCHES: [FetchFault; 4] = [
    FetchFault::Disk,
    FetchFault::NotThere,
    FetchFault::Memory,
    FetchFault::Odd,
];

static STEPS: [StepFault; 5] = [
    StepFault::Disk,
    StepFault::Memory { done: 7 },
    StepFault::LogsFull,
    StepFault::NoMoreIds,
    StepFault::Odd,
];

static COLLECTIONS: [CollectFault; 3] = [
    CollectFault::Disk,
    CollectFault::Memory,
    CollectFault::Odd,
];

/// The text of each fault, as the program prints it and as the fault has it.
const PRINTED: &str = "\
short 15 | short 15
negative number | negative number
too long 5000001 | too long 5000001
memory | memory
short 15 | short 15
deleted | deleted
full 100 115 | full 100 115
memory | memory
already deleted | already deleted
memory | memory
disk | disk
not there | not there
memory | memory
odd disk | odd disk
disk | disk
memory after 7 | memory after 7
logs full | logs full
no more ids | no more ids
odd disk | odd disk
disk | disk
memory | memory
odd disk | odd disk
";

fn push_records(texts: &mut String) -> Result<(), AllocError> {
    for fault in &RECORDS {
        write!(texts, "{} | {fault}\n", Text(fault))?;
    }
    Ok(())
}

fn push_adds(texts: &mut String) -> Result<(), AllocError> {
    for fault in &ADDS {
        write!(texts, "{} | {fault}\n", Text(fault))?;
    }
    Ok(())
}

fn push_deletions(texts: &mut String) -> Result<(), AllocError> {
    for fault in &DELETIONS {
        write!(texts, "{} | {fault}\n", Text(fault))?;
    }
    Ok(())
}

fn push_fetches(texts: &mut String) -> Result<(), AllocError> {
    for fault in &FETCHES {
        write!(texts, "{} | {fault}\n", Text(fault))?;
    }
    Ok(())
}

fn push_steps(texts: &mut String) -> Result<(), AllocError> {
    for fault in &STEPS {
        write!(texts, "{} | {fault}\n", Text(fault))?;
    }
    Ok(())
}

fn push_collections(texts: &mut String) -> Result<(), AllocError> {
    for fault in &COLLECTIONS {
        write!(texts, "{} | {fault}\n", Text(fault))?;
    }
    Ok(())
}

/// Returns the texts of all these faults, one line each.
fn of_steps(alloc: Global) -> Result<String, AllocError> {
    let mut texts = String::new(alloc);
    push_records(&mut texts)?;
    push_adds(&mut texts)?;
    push_deletions(&mut texts)?;
    push_fetches(&mut texts)?;
    push_steps(&mut texts)?;
    push_collections(&mut texts)?;
    Ok(texts)
}

#[test]
fn faults_of_steps_print_their_own_texts(rt: HostRuntime) -> Result<(), Fail> {
    let texts = of_steps(rt.alloc())?;
    assert!(rt; texts.as_str() == PRINTED, "{texts}");
    Ok(())
}
