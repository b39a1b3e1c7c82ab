//! The runs, each with its row.

use crate::options::Options;
use bk_disk::DirDisk;
use bk_sim_disk::SimDisk;
use bk_simulation::{
    Cost, HEAD, Outcome, Plan, PlanFault, SimFault, simulate, write_counts, write_holds, write_row,
};
use bk_simulation_page::write_page;
use std::alloc::AllocError;
use std::io::Write;
use std::{fs, io};
use thiserror::Error;

/// Why a run ended early.
#[derive(Clone, Copy, Debug, Error)]
enum Fault {
    #[error("{0}")]
    Plan(PlanFault),
    #[error("{0}")]
    Sim(SimFault),
    #[error("the directory cannot be opened")]
    Folder,
    #[error("the page cannot be written")]
    Page,
    #[error("memory")]
    Memory,
    #[error("output")]
    Output,
}

impl From<PlanFault> for Fault {
    fn from(fault: PlanFault) -> Fault {
        Fault::Plan(fault)
    }
}

impl From<SimFault> for Fault {
    fn from(fault: SimFault) -> Fault {
        Fault::Sim(fault)
    }
}

impl From<AllocError> for Fault {
    fn from(_error: AllocError) -> Fault {
        Fault::Memory
    }
}

impl From<io::Error> for Fault {
    fn from(_error: io::Error) -> Fault {
        Fault::Output
    }
}

/// Does all runs and prints the table. Returns the exit status.
pub(crate) fn run<E: Write>(rt: &HostRuntime, options: &Options<'_>, errors: &mut E) -> u8 {
    match run_all(rt, options) {
        Ok(()) => 0,
        Err(fault) => {
            let _ = writeln!(errors, "fault {fault}");
            1
        }
    }
}

/// Does all runs, prints the table and writes the page.
fn run_all(rt: &HostRuntime, options: &Options<'_>) -> Result<(), Fault> {
    rt.stdout().write_all(HEAD.as_bytes())?;
    let mut outcomes = Vec::new(rt.alloc());
    for log_limit in &options.log_limits {
        for thresholds in &options.thresholds {
            for retention in &options.retentions {
                let plan = options.plan(*retention, *thresholds, *log_limit)?;
                let outcome = run_one(rt, options, plan)?;
                outcomes.push(outcome).map_err(|_| Fault::Memory)?;
            }
        }
    }
    match options.html {
        Some(path) => write_html(rt, path, &outcomes),
        None => Ok(()),
    }
}

/// Does one run and prints its row.
fn run_one(rt: &HostRuntime, options: &Options<'_>, plan: Plan) -> Result<Outcome, Fault> {
    let outcome = outcome_of(rt, options, plan)?;
    let mut text = Vec::new(rt.alloc());
    write_row(&mut text, &outcome)?;
    if options.holds {
        write_counts(&mut text, &outcome)?;
        write_holds(&mut text, &outcome)?;
    }
    rt.stdout().write_all(&text)?;
    Ok(outcome)
}

/// Writes the page to a file.
fn write_html(rt: &HostRuntime, path: &str, outcomes: &[Outcome]) -> Result<(), Fault> {
    let mut page = Vec::new(rt.alloc());
    write_page(rt.alloc(), &mut page, outcomes)?;
    match fs::write(rt, path, page.as_slice()) {
        Ok(()) => Ok(()),
        Err(_) => Err(Fault::Page),
    }
}

/// Does one run, on the simulated disk or on a directory.
fn outcome_of(rt: &HostRuntime, options: &Options<'_>, plan: Plan) -> Result<Outcome, Fault> {
    let alloc = rt.alloc();
    let Some(path) = options.folder else {
        return Ok(simulate(alloc, SimDisk::new(alloc), plan, Cost::MEASURED)?);
    };
    match DirDisk::open_to_write(rt, path) {
        Ok(disk) => Ok(simulate(alloc, disk, plan, Cost::MEASURED)?),
        Err(_) => Err(Fault::Folder),
    }
}
