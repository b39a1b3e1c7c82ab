//! Theorems about the definitions: a written map is read again. Each is a function that does
//! nothing.

ghost use Rattle.std.specs.Prelude.{◌≡◌, ℕ, ◌+◌, ◌<◌, ◌≤◌, ◌^◌, pos, List, Option, Result, length};
ghost use Rattle.std.specs.FinMap as ledgers;
ghost use Rattle.bk_head.specs.declared.header.Header.{Header};
ghost use Rattle.bk_head.specs.declared.fault.HeadFault.{HeadFault as Fault};
ghost use Rattle.bk_head.specs.Header.{IsHeader, patched_header, version_field};
ghost use Rattle.bk_head.specs.Ledgers.{LedgersMap, SpellsMap};
ghost use Rattle.bk_head.specs.Reading.{MapAnswer};
ghost use Rattle.bk_head.specs.Written.{written_map, AreWritten, IsWritable};

/// Bytes parse as at most one map. The written form of a map has full batches and one with the
/// rest, and it parses as the map. After a header with its offset and its number of ledgers, it is
/// read again.
pub fn written_map_is_read()
    ensures one { (bytes : List ℕ) (m n : LedgersMap) → SpellsMap bytes m → SpellsMap bytes n → m ≡ n }
    ensures batches { (map : LedgersMap) → AreWritten (ledgers.entries map) (written_map map) }
    ensures spells { (map : LedgersMap) → IsWritable map → SpellsMap (written_map map) map }
    ensures read { (map : LedgersMap) (offset : ℕ) → IsWritable map → 1024 ≤ offset
        → MapAnswer (written_map map) (offset + length (written_map map))
        (record { version = 1; map_offset = pos offset; count = pos (ledgers.len map) }) (Ok (Some map)) }
{}

/// A patched header is a header. One of version 1 has the new offset and count; one of version 0
/// still has no map.
pub fn patched_header_is_read()
    ensures patched { (bytes : List ℕ) (header : Header) (offset count : ℕ)
        → IsHeader bytes header → header.version ≡ 1 → offset < 2 ^ 63 → count < 2 ^ 31
        → IsHeader (patched_header bytes offset count)
        (record { version = 1; map_offset = pos offset; count = pos count }) }
    ensures old { (bytes : List ℕ) (header : Header) (offset count : ℕ)
        → IsHeader bytes header → header.version ≡ 0 → IsHeader (patched_header bytes offset count) header }
{}

/// A log with a header of version 0 has no map, whatever its bytes are.
pub fn old_header_has_no_map()
    ensures { (bytes : List ℕ) (header : Header) (tail : List ℕ) (length : ℕ) (answer : Result (Option LedgersMap) Fault)
        → IsHeader bytes header → version_field bytes ≡ 0 → MapAnswer tail length header answer → answer ≡ Ok None }
{}
