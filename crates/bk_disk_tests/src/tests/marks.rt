//! Logs with durability watermarks of earlier releases in their headers: the tag `mark` at byte 20,
//! and a length. They are read as logs without.

use super::change::Change::Marked;
use super::sight::Sight::HasAt;
use super::stage::{Act, run};
use super::table::{Call, Row, Want};

const MARK: &[u8] = b"mark\x00\x00\x00\x00\x00\x00\x04\x06";

const GROWN: [Row; 5] = [
    (Call::Length(0), Want::Number(1040)),
    (Call::Append(0, b"0123456789"), Want::Done),
    (Call::Sync(0), Want::Done),
    (Call::Patch(0, b"twelve bytes"), Want::Done),
    (Call::Length(0), Want::Number(1050)),
];

const READ_WHOLE: [Act; 4] = [
    Act::Do(Marked("0.log", MARK, 1040)),
    Act::Open,
    Act::Calls(&GROWN),
    Act::See(HasAt("0.log", 20, MARK)),
];

#[test]
fn a_mark_in_a_header_is_left_alone(rt: HostRuntime) {
    run(&rt, &rt, "bk_disk_marked", &READ_WHOLE);
}
