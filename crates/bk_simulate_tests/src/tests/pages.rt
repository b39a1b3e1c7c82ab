//! Pages: each run is shown, numbers have units, and a write that fails is reported.

use super::runs::{LOAD, UPKEEP};
use bk_sim_disk::SimDisk;
use bk_simulation::{Cost, Load, Outcome, Plan, Scale, SimFault, Upkeep, simulate};
use bk_simulation_page::write_page;
use std::alloc::Global;
use std::io;
use std::io::{ErrorKind, Write};
use std::test::Fail;

/// What a page shows of `short`.
static PARTS: [&str; 7] = [
    "<p>Load: 6 d of 80,000 bytes a day, entries of 100 bytes, ledgers of 5,000 bytes on average, ",
    "5 of them written at the same time; seed 7.<br>\nUpkeep: 4,800 bytes of cache, 1,000 slots for ",
    "logs. Logs without live entries are removed every 15 min. Minor compactions: every 60 min; ",
    "major ones: every 1 d.</p>\n",
    "<h2>Retention exponential 1.0 days; thresholds 200\u{2030} and 800\u{2030}; log limit 51,024 bytes</h2>",
    "<p>Bytes in KiB: <span class=\"disk\">all logs</span> <span class=\"live\">live records</span></p>",
    "<text x=\"750\" y=\"252\" text-anchor=\"middle\">day 6</text>",
];

/// Returns the page of these runs.
fn page_of(alloc: Global, outcomes: &[Outcome]) -> Result<String, Fail> {
    let mut out = Vec::new(alloc);
    write_page(alloc, &mut out, outcomes)?;
    Ok(String::from_utf8(out)?)
}

/// Returns the run of a load and an upkeep whose records stand for an entry each.
fn run_of(alloc: Global, load: Load, upkeep: Upkeep) -> Result<Outcome, SimFault> {
    let scale = Scale {
        batch: 1,
        record: 40,
    };
    match Plan::new(load, upkeep, scale) {
        Ok(plan) => simulate(alloc, SimDisk::new(alloc), plan, Cost::MEASURED),
        Err(_) => Err(SimFault::Answer("plan")),
    }
}

/// Returns a run of 4,800 records.
fn short(alloc: Global) -> Result<Outcome, SimFault> {
    let load = Load {
        rate: 80_000,
        ..LOAD
    };
    run_of(alloc, load, UPKEEP)
}

/// Returns a run in which no record comes in.
fn empty(alloc: Global) -> Result<Outcome, SimFault> {
    let load = Load {
        seconds: 30,
        rate: 1,
        ..LOAD
    };
    let upkeep = Upkeep {
        minor_every: 0,
        ..UPKEEP
    };
    run_of(alloc, load, upkeep)
}

/// Returns the numbers of rows, sections, pictures and curves of a page.
fn counts(page: &str) -> (usize, usize, usize, usize) {
    (
        page.matches("<tr><td class=\"name\">").count(),
        page.matches("<section>").count(),
        page.matches("<svg ").count(),
        page.matches("<polyline ").count(),
    )
}

#[test]
fn a_page_has_a_row_and_two_pictures_for_each_run(rt: HostRuntime) -> Result<(), Fail> {
    let mut outcomes = Vec::new(rt.alloc());
    assert_eq!(rt; counts(&page_of(rt.alloc(), &outcomes)?), (0, 0, 0, 0));
    outcomes.push(short(rt.alloc())?)?;
    outcomes.push(empty(rt.alloc())?)?;
    let page = page_of(rt.alloc(), &outcomes)?;
    assert_eq!(rt; counts(&page), (2, 2, 4, 6));
    assert!(rt; !page.contains("<script"));
    Ok(())
}

#[test]
fn numbers_of_a_page_have_units(rt: HostRuntime) -> Result<(), Fail> {
    let outcomes = vec![in rt.alloc(); short(rt.alloc())?]?;
    let page = page_of(rt.alloc(), &outcomes)?;
    for part in &PARTS {
        assert!(rt; page.contains(*part), "{part}");
    }
    Ok(())
}

#[test]
fn a_run_without_a_record_has_zeros_and_no_points(rt: HostRuntime) -> Result<(), Fail> {
    let outcomes = vec![in rt.alloc(); empty(rt.alloc())?]?;
    let page = page_of(rt.alloc(), &outcomes)?;
    assert_eq!(rt;
        page.matches("<td>0.00</td><td>0.00</td><td>0.00</td>")
            .count(),
        1
    );
    assert_eq!(rt; page.matches(" points=\"\"/>").count(), 3);
    assert!(rt; page.contains("<p>Load: 30 s of 1 bytes a day"));
    assert!(rt; page.contains("Minor compactions: never; major ones: every 1 d.</p>"));
    Ok(())
}

#[test]
fn a_run_that_ends_early_says_when(rt: HostRuntime) -> Result<(), Fail> {
    let mut upkeep = UPKEEP;
    upkeep.settings.slots = 2;
    let outcomes = vec![in rt.alloc(); run_of(rt.alloc(), LOAD, upkeep)?]?;
    let page = page_of(rt.alloc(), &outcomes)?;
    assert!(rt;
        page.contains("<p>The run ended on day 0.1: no slot for a further log was free.</p>")
    );
    Ok(())
}

/// A writer with room for so many bytes.
#[derive(Drop)]
struct Full {
    room: usize,
}

impl Write for Full {
    fn write(&mut self, buf: &[u8]) -> io::Result<usize> {
        if buf.len() > self.room {
            return Err(io::Error::from(ErrorKind::StorageFull));
        }
        self.room -= buf.len();
        Ok(buf.len())
    }

    fn flush(&mut self) -> io::Result<()> {
        Ok(())
    }
}

#[test]
fn a_write_that_fails_is_reported(rt: HostRuntime) -> Result<(), Fail> {
    let outcomes = vec![in rt.alloc(); empty(rt.alloc())?]?;
    let length = page_of(rt.alloc(), &outcomes)?.len();
    assert!(rt; length > 5000);
    for room in [0, 400, 2500, 3200, 4000, 4500, 5000] {
        let mut out = Full { room };
        assert!(rt;
            write_page(rt.alloc(), &mut out, &outcomes).is_err(),
            "with room for {room}"
        );
    }
    let mut out = Full { room: length };
    assert!(rt; write_page(rt.alloc(), &mut out, &outcomes).is_ok());
    Ok(())
}
