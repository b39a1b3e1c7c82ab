//! Leases given back in other threads.

use super::{lease, one_log};
use bk_lease::Leased;
use std::test::Fail;
use std::thread;

#[test]
fn counts_only_fall_while_two_threads_give_back(rt: HostRuntime) -> Result<(), Fail> {
    let (mut keeper, view) = one_log(rt.alloc(), 2)?;
    let released = lease(&mut keeper, 0, &view)?;
    let dropped = lease(&mut keeper, 0, &view)?;

    let first = thread::spawn(&rt, move || released.release().end())?;
    let second = thread::spawn(&rt, move || drop(dropped))?;
    let mut least = 2;
    let mut is_closed = false;
    for _ in 0..1000 {
        let Err(Leased { count }) = keeper.close(0) else {
            is_closed = true;
            break;
        };
        assert!(rt; count == 1 || count == 2);
        assert!(rt; count <= least);
        least = count;
        thread::yield_now();
    }
    first.join(&rt);
    second.join(&rt);
    assert!(rt; is_closed || keeper.close(0).is_ok());
    Ok(())
}
