//! A refused call leaves the accounts unchanged and can be made again.
//!
//! Run with one allocation refused, this test meets `Memory` once; run without, never.
use super::Call::{Count, Open};
use super::{make, sums};
use bk_accounts::{AccountFault, Accounts};
use std::test::Fail;

#[test]
fn a_refused_allocation_leaves_the_accounts_as_they_were(rt: HostRuntime) -> Result<(), Fail> {
    let mut accounts = Accounts::new(rt.alloc());
    // Enough logs, and ledgers in one of them, for several nodes of a tree.
    for n in 0..40 {
        for call in [Open(n), Count(n, 0, 7), Count(0, u64::from(n), 7)] {
            let before = sums(&accounts, n);
            if make(&mut accounts, call) == Err(AccountFault::Memory) {
                assert_eq!(rt; sums(&accounts, n), before);
                make(&mut accounts, call)?;
            }
        }
    }
    accounts.forget(0);
    assert_eq!(rt; sums(&accounts, 0), Some((287, 273, 0)));
    for n in 1..40 {
        assert_eq!(rt; sums(&accounts, n), Some((7, 0, 0)));
    }
    Ok(())
}
