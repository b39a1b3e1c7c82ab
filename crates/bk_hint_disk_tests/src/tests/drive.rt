//! Steps of a store over hints: each answer is that of a store over the logs alone.

use super::logs::{SETTINGS, hint, make};
use bk_disk::{LogDisk, MemDisk};
use bk_drive::{Answer, Kind, LedgerRead, Step, Work, drive};
use bk_hint_disk::{HintedDisk, MemHints};
use bk_record::Key;
use std::alloc::{AllocError, Global};
use std::process::Abort;
use std::test::Fail;

/// Entry 0 of ledger 20, with the data `hello`.
const HELLO: [u8; 21] = *b"\0\0\0\0\0\0\0\x14\0\0\0\0\0\0\0\0hello";

/// Steps of the store alone: a flush, and a compaction of a log.
const WORK: [Work; 15] = [
    Work::Swap,
    Work::WriteOne,
    Work::Publish,
    Work::Roll,
    Work::Begin(Kind::Major),
    Work::Copy(1000),
    Work::EndCopy,
    Work::Switch(1000),
    Work::Finish,
    Work::Close(1),
    Work::Remove(1),
    Work::Rebuild,
    Work::Retire(2),
    Work::Close(2),
    Work::Remove(2),
];

/// Ids of entries of the logs, and of one that none has.
const KEYS: [(u64, u64); 6] = [
    (1, 1000),
    (2, 2019),
    (10, 3020),
    (11, 3039),
    (10, 5038),
    (20, 7),
];

/// Appends steps that take these entries and read them.
fn push_reads(steps: &mut Vec<Step>) -> Result<(), AllocError> {
    for (ledger, id) in KEYS {
        let Some(key) = Key::new(ledger, id) else {
            return Err(AllocError);
        };
        steps.push(Step::Take(0, key))?;
        steps.push(Step::Fetch(0))?;
        steps.push(Step::Release(0))?;
    }
    steps.push(Step::Read(LedgerRead::Entries(10, 0, 100)))?;
    steps.push(Step::Read(LedgerRead::Ledgers(0, 100)))?;
    steps.push(Step::Stats)?;
    Ok(())
}

/// Returns the steps.
fn steps(alloc: Global) -> Result<Vec<Step>, AllocError> {
    let mut steps = Vec::new(alloc);
    push_reads(&mut steps)?;
    steps.push(Step::Add(Vec::from_slice(alloc, &HELLO)?))?;
    steps.push(Step::Delete(1))?;
    for work in WORK {
        steps.push(Step::Work(work))?;
    }
    push_reads(&mut steps)?;
    Ok(steps)
}

/// Returns the answers to steps as texts, and how many entries were read from logs. `None` if no
/// store opens.
pub(super) fn told<D: LogDisk>(alloc: Global, disk: D, steps: &[Step]) -> Option<(String, u32)> {
    let ran = drive(alloc, disk, SETTINGS, &[], steps).ok()?;
    let mut read: u32 = 0;
    for answer in &ran.answers {
        if let Answer::Fetch(Ok(_)) = answer {
            read = read.wrapping_add(1);
        }
    }
    let text = format!(in alloc; "{:?}", ran.answers).ok()?;
    Some((text, read))
}

#[test]
fn steps_over_hints_have_the_answers_of_the_logs(rt: HostRuntime) -> Result<(), Fail> {
    let alloc = rt.alloc();
    let mut plain = MemDisk::new(alloc);
    assert!(rt; make(alloc, &mut plain).is_some());
    let mut hinted = HintedDisk::new(alloc, MemDisk::new(alloc), MemHints::new(alloc));
    assert!(rt; make(alloc, &mut hinted).is_some());
    assert_eq!(rt; hint(alloc, &mut hinted), Some(3));
    let watch = hinted.unused_watch(alloc)?;
    let steps = steps(alloc)?;
    let (text, read) = told(alloc, plain, &steps).expect(&rt, "a store");
    let (hinted_text, hinted_read) = told(alloc, hinted, &steps).expect(&rt, "a store");
    assert_eq!(rt; hinted_text.as_str(), text.as_str());
    assert_eq!(rt; hinted_read, read);
    assert!(rt; read >= 8, "{read} entries read");
    assert!(rt; watch.list(alloc)?.is_empty());
    Ok(())
}
