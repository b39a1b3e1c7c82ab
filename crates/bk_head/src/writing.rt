//! Writing of the ledgers map. All room is reserved first, so that an error leaves the bytes
//! unchanged.

ghost use Rattle.std.specs.Prelude.{◌≡◌, ◌+◌, ◌≤◌, ◌++◌, length, OnOk, OnErr, IsOkUnless, vec_len, vec_capacity};
ghost use Rattle.bk_head.specs.declared.fault.HeadFault.TheVariants.{Memory};
ghost use Rattle.bk_head.specs.Ledgers.{map_of, SpellsMap};
ghost use Rattle.bk_head.specs.Written.{written_map, IsWritable};

use crate::HeadFault;
use crate::batch::{BATCH_HEAD, BATCH_PAIRS, PAIR, batch_head, pair_bytes};
use std::collections::BTreeMap;

/// Appends the ledgers map: its pairs by rising ledger, in batches of 10,000 and one with the rest.
/// Appends nothing for an empty map. (Order and size of the batches are project rules; the form of
/// a batch is the BookKeeper entry log format.)
///
/// The map has at most 2^31 - 1 ledgers, and no id or size above 2^63 - 1.
///
/// # Errors
///
/// - `Memory` if `out` cannot grow; `out` is unchanged.
pub fn write_map(map: &BTreeMap<u64, u64>, out: &mut Vec<u8>) -> Result<(), HeadFault>
    requires { IsWritable (map_of map.now) }
    ensures ok { OnOk result (out.new.items ≡ out.old.items ++ written_map (map_of map.now)) }
    ensures spells { SpellsMap (written_map (map_of map.now)) (map_of map.now) }
    ensures only { IsOkUnless result Memory }
    ensures err { OnErr result (out.new.items ≡ out.old.items) }
{
    let mut left = map.len();
    if out
        .reserve(left.div_ceil(BATCH_PAIRS) * BATCH_HEAD + left * PAIR)
        .is_err()
    {
        return Err(HeadFault::Memory);
    }
    // Number of pairs that the current batch still has room for.
    let mut room = 0;
    for (ledger, size) in map {
        if room == 0 {
            room = left.min(BATCH_PAIRS);
            append(&batch_head(room), out);
        }
        append(&pair_bytes(*ledger, *size), out);
        room -= 1;
        left -= 1;
    }
    Ok(())
}

/// Appends bytes for which there is room.
fn append(bytes: &[u8], out: &mut Vec<u8>)
    requires { vec_len out.old + length bytes.now ≤ vec_capacity out.old }
    ensures items { out.new.items ≡ out.old.items ++ bytes.now }
    ensures room { vec_capacity out.old ≤ vec_capacity out.new }
{
    out.extend_from_slice(bytes).unwrap();
}
