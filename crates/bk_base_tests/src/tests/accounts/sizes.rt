//! Hundreds of logs, thousands of ledgers, and the largest ids.
use super::super::pass;
use super::Call::{Count, Name, Open};
use super::{make, sums};
use bk_accounts::{AccountFault, Accounts};
use std::test::Fail;

const LOGS: u32 = 400;

const LEDGERS: u64 = 3000;

/// Ids far apart, from 0 to 2^31 - 1.
fn log_of(n: u32) -> u32 {
    (n % LOGS) * (0x7fff_ffff / (LOGS - 1))
}

/// Ids far apart, up to 2^63 - 1.
fn ledger_of(n: u64) -> u64 {
    0x7fff_ffff_ffff_ffff - (n % LEDGERS) * 1_000_000_007
}

/// Opens all logs, and counts 10 bytes of each ledger and one name in each of two adjacent logs.
fn fill(accounts: &mut Accounts) -> Result<(), AccountFault> {
    for n in 0..LOGS {
        make(accounts, Open(log_of(n)))?;
    }
    for n in 0..6000u32 {
        let log = log_of(n / 2 + n % 2);
        make(accounts, Count(log, ledger_of(u64::from(n / 2)), 10))?;
        make(accounts, Name(log))?;
    }
    Ok(())
}

/// Total, what remains and names of a log, `None` if it is not open.
type Sums = Option<(u32, u32, u64)>;

/// Each log has seven or eight ledgers of its own, and those of the log before it.
static FILLED: [(u32, Sums); 5] = [
    (0, Some((150, 150, 15))),
    (1, Some((160, 160, 16))),
    (200, Some((150, 150, 15))),
    (201, Some((140, 140, 14))),
    (399, Some((140, 140, 14))),
];

/// All ledgers but the last are forgotten. The names stay.
static FORGOTTEN: [(u32, Sums); 5] = [
    (0, Some((150, 0, 15))),
    (199, Some((160, 10, 16))),
    (200, Some((150, 10, 15))),
    (7, None),
    (399, Some((140, 0, 14))),
];

/// Returns the number of the first row with other sums, counted from 1.
fn first_other(accounts: &Accounts, rows: &[(u32, Sums)]) -> Option<usize> {
    for (number, (log, expected)) in rows.iter().enumerate() {
        if sums(accounts, log_of(*log)) != *expected {
            return Some(number.saturating_add(1));
        }
    }
    None
}

/// Forgets all ledgers but the last, and drops a log.
fn forget_all(accounts: &mut Accounts) {
    for n in 0..LEDGERS - 1 {
        accounts.forget(ledger_of(n));
    }
    accounts.drop_log(log_of(7));
}

#[test]
fn sums_of_hundreds_of_logs_and_thousands_of_ledgers(rt: HostRuntime) -> Result<(), Fail> {
    let mut accounts = Accounts::new(rt.alloc());
    fill(&mut accounts)?;
    pass(&rt, "filled", first_other(&accounts, &FILLED));
    forget_all(&mut accounts);
    pass(&rt, "forgotten", first_other(&accounts, &FORGOTTEN));
    Ok(())
}
