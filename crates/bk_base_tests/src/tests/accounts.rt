//! Lists of calls with their results, many logs and ledgers, refused memory, texts.
mod memory;
mod sizes;
mod worked;

use bk_accounts::{AccountFault, Accounts};
use std::test::Fail;

/// A call of `Accounts`.
#[derive(Clone, Copy)]
enum Call {
    Open(u32),
    Count(u32, u64, u32),
    CountDead(u32, u32),
    Name(u32),
    Unname(u32),
    Forget(u64),
    Drop(u32),
}

/// Makes a call if its requirements hold.
fn make(accounts: &mut Accounts, call: Call) -> Result<(), AccountFault> {
    match call {
        Call::Open(log) if accounts.total(log).is_err() => accounts.open(log)?,
        Call::Open(_) => {}
        Call::Count(log, ledger, size) => count(accounts, log, ledger, size)?,
        Call::CountDead(log, size) if accounts.total(log)? <= u32::MAX - size => {
            accounts.count_dead(log, size)
        }
        Call::CountDead(_, _) => {}
        Call::Name(log) if accounts.named(log) != Ok(u64::MAX) => accounts.name(log),
        Call::Unname(log) if accounts.named(log) != Ok(0) => accounts.unname(log),
        Call::Name(_) | Call::Unname(_) => {}
        Call::Forget(ledger) => accounts.forget(ledger),
        Call::Drop(log) => accounts.drop_log(log),
    }
    Ok(())
}

/// Makes room and counts, unless the total would exceed 2^32 - 1.
fn count(accounts: &mut Accounts, log: u32, ledger: u64, size: u32) -> Result<(), AccountFault> {
    accounts.ready(log, ledger)?;
    if accounts.total(log)? <= u32::MAX - size {
        accounts.count(log, ledger, size);
    }
    Ok(())
}

/// The total, what remains and the names of a log, `None` if it is not open.
fn sums(accounts: &Accounts, log: u32) -> Option<(u32, u32, u64)> {
    match (
        accounts.total(log),
        accounts.remaining(log),
        accounts.named(log),
    ) {
        (Ok(total), Ok(remaining), Ok(named)) => Some((total, remaining, named)),
        _ => None,
    }
}

#[test]
fn a_fault_is_told_by_its_text(rt: HostRuntime) -> Result<(), Fail> {
    for (fault, text) in [
        (AccountFault::Memory, "memory"),
        (AccountFault::NoLog, "no log"),
    ] {
        assert_eq!(rt; fault.to_string(rt.alloc())?.as_str(), text);
    }
    Ok(())
}
