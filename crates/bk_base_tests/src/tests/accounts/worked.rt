//! Lists of calls with their sums, and choices with their logs.
use super::super::pass;
use super::Call::{self, Count, CountDead, Drop, Forget, Name, Open, Unname};
use super::{make, sums};
use bk_accounts::{AccountFault, Accounts};
use std::alloc::Global;
use std::test::Fail;

/// The accounts after a list of calls.
fn after(alloc: Global, calls: &[Call]) -> Result<Accounts, AccountFault> {
    let mut accounts = Accounts::new(alloc);
    for call in calls {
        make(&mut accounts, *call)?;
    }
    Ok(accounts)
}

// A ledger that is counted, forgotten and counted again, and one that stays; a log that is opened
// again; one with entries of deleted ledgers only; and one that is never opened.
static CALLS: [Call; 19] = [
    Open(3),
    Count(3, 1, 1000),
    Name(3),
    Drop(3),
    Open(3),
    Open(4),
    Open(5),
    Count(3, 8, 25),
    Count(3, 9, 7),
    Count(4, 8, 30),
    CountDead(4, 70),
    CountDead(5, 44),
    Name(3),
    Name(3),
    Name(3),
    Unname(3),
    Forget(8),
    Count(3, 8, 40),
    Name(6),
];

/// Total, what remains and names of each log after these calls.
static SUMS: [(u32, Option<(u32, u32, u64)>); 4] = [
    (3, Some((72, 47, 2))),
    (4, Some((100, 0, 0))),
    (5, Some((44, 0, 0))),
    (6, None),
];

/// Returns the number of the first row with other sums, counted from 1.
fn first_other_sums(accounts: &Accounts) -> Option<usize> {
    for (number, (log, expected)) in SUMS.iter().enumerate() {
        if sums(accounts, *log) != *expected {
            return Some(number.saturating_add(1));
        }
    }
    None
}

#[test]
fn sums_are_those_of_the_calls(rt: HostRuntime) -> Result<(), Fail> {
    let mut accounts = after(rt.alloc(), &CALLS)?;
    pass(&rt, "sums", first_other_sums(&accounts));
    assert_eq!(rt; accounts.ready(6, 1), Err(AccountFault::NoLog));
    Ok(())
}

/// The choice among the allowed logs, `None` if one of them is not open.
fn choice(accounts: &Accounts, threshold: u32, allowed: &[u32]) -> Option<u32> {
    for log in allowed {
        accounts.total(*log).ok()?;
    }
    accounts.lowest_below(threshold, allowed)
}

// Remaining and total of each log: 0 50 of 250; 1 120 of 220; 2 21 of 121; 3 nothing; 4 70 of 70; 5
// 3 of 10; 7 30 of 100; 8 the largest sums, and 9 one byte less of them.
static USED: [Call; 24] = [
    Open(0),
    Count(0, 1, 50),
    Count(0, 2, 200),
    Open(1),
    Count(1, 1, 120),
    CountDead(1, 100),
    Open(2),
    Count(2, 1, 21),
    Count(2, 2, 100),
    Open(3),
    Open(4),
    Count(4, 1, 70),
    Open(5),
    Count(5, 1, 3),
    Count(5, 2, 7),
    Open(7),
    Count(7, 1, 30),
    CountDead(7, 70),
    Open(8),
    Count(8, 1, u32::MAX - 1),
    CountDead(8, 1),
    Open(9),
    Count(9, 1, u32::MAX - 2),
    Forget(2),
];

/// Thresholds, allowed logs, and the log that is chosen.
static CHOICES: [(u32, [u32; 4], Option<u32>); 14] = [
    // 50 * 1000 is 200 * 250, and not below it.
    (200, [0; 4], None),
    (800, [0; 4], Some(0)),
    // 120,000 is above 200 * 220 and below 800 * 220.
    (200, [1; 4], None),
    (800, [1; 4], Some(1)),
    // 21,000 is below 200 * 121.
    (200, [2; 4], Some(2)),
    (1000, [3; 4], None),
    (1000, [4; 4], None),
    // 3 of 10 and 30 of 100 are the same part.
    (800, [7, 1, 5, 4], Some(5)),
    (800, [5, 7, 1, 1], Some(5)),
    (300, [7, 1, 5, 4], None),
    (800, [1, 7, 0, 4], Some(0)),
    // The largest products.
    (1000, [8, 9, 9, 8], Some(9)),
    (u32::MAX, [9, 8, 8, 9], Some(9)),
    (999, [8, 9, 9, 8], None),
];

/// Returns the number of the first row with another choice, counted from 1.
fn first_other_choice(accounts: &Accounts) -> Option<usize> {
    for (number, (threshold, allowed, chosen)) in CHOICES.iter().enumerate() {
        if choice(accounts, *threshold, allowed) != *chosen {
            return Some(number.saturating_add(1));
        }
    }
    None
}

#[test]
fn the_least_part_below_the_threshold_is_chosen_and_then_the_lower_id(
    rt: HostRuntime,
) -> Result<(), Fail> {
    let mut accounts = after(rt.alloc(), &USED)?;
    make(&mut accounts, CountDead(9, 2))?;
    pass(&rt, "choices", first_other_choice(&accounts));
    assert_eq!(rt; choice(&accounts, 800, &[]), None);
    Ok(())
}
