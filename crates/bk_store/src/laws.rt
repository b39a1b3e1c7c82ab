//! Theorems about the definitions, stated once for all stores. The functions do nothing.

ghost use Rattle.std.specs.Prelude.{◌≡◌, ◌≢◌, ◌↔◌, ℕ, List, Some, None, Result, ◌||◌, is_some, if◌then◌else◌, IsTrue, true};
ghost use Rattle.std.specs.FinMap as finite;
ghost use Rattle.std.specs.FinSet as set;
ghost use Rattle.std.specs.Option.{option_or};
ghost use Rattle.bk_record.specs.Files.{Files, file_of};
ghost use Rattle.bk_record.specs.Key.{EntryKey};
ghost use Rattle.bk_record.specs.Keyed.{without_ledger, Places};
ghost use Rattle.bk_record.specs.Scan.{Payloads, Ledgers, scan_of, live};
ghost use Rattle.bk_store.specs.Entries.{Bytes, IsIndexOf};
ghost use Rattle.bk_store.specs.Representation.{Cached, Represents};
ghost use Rattle.bk_store.specs.Published.{IndexIsPublished};
ghost use Rattle.bk_store.specs.Trail.{MapMatchesTrail, HasAddMark, WasDeleted, HasDigest, replay_of};
ghost use Rattle.bk_store.specs.Ledgers.{LedgersMatchTrail};
ghost use Rattle.bk_store.specs.State.{State};
ghost use Rattle.bk_store.specs.Transitions.{AddTransition, TakeTransition, SwapTransition, DeleteTransition, FenceTransition, valid_ledgers};
ghost use Rattle.bk_store.specs.Contents.{IsContents, SameContents, written_at};
ghost use Rattle.bk_store.specs.Opening.{IsOpened};
ghost use Rattle.bk_store.specs.declared.settings.Settings.{Settings};
ghost use Rattle.bk_store.specs.Abstract.{AbstractState, AbstractAdd, AbstractTake, AbstractDelete, AbstractFence, abstract_after_swap, StoreRefines, SatisfiesInvariant};
ghost use Rattle.bk_store.specs.declared.mark.Mark.{Mark};
ghost use Rattle.bk_store.specs.declared.adding.AddKind.{AddKind};
ghost use Rattle.bk_store.specs.declared.answer.Added.{Added};
ghost use Rattle.bk_store.specs.declared.answer.AddFault.{AddFault};
ghost use Rattle.bk_store.specs.declared.answer.Taken.{Taken};
ghost use Rattle.bk_store.specs.declared.answer.TakeFault.{TakeFault};
ghost use Rattle.bk_store.specs.declared.answer.DeleteFault.{DeleteFault};
ghost use Rattle.bk_store.specs.declared.answer.Fence.{Fence};
ghost use Rattle.bk_store.specs.declared.answer.FenceFault.{FenceFault};
ghost use Rattle.bk_cache.specs.declared.swap.Swap.{Swap};

use bk_disk::LogView;

/// The represented map is the logical contents: in a live ledger, what a cache has of a key, else
/// the payload of its last record in the files; in a deleted ledger nothing.
pub fn represented_map_is_contents()
    ensures { (files : Files) (index : Places) (cached : Cached) (dead : Ledgers) (map : Payloads)
        → Represents (file_of files) index cached dead map → (key : EntryKey)
        → finite.get map key ≡ (if set.contains dead key.ledger then None else option_or (cached key) (finite.get (scan_of files) key)) }
{}

/// The same bytes, index, caches and deleted ledgers represent at most one map.
pub fn represented_map_is_unique()
    ensures { (bytes : Bytes) (index : Places) (cached : Cached) (dead : Ledgers) (first second : Payloads)
        → Represents bytes index cached dead first → Represents bytes index cached dead second → first ≡ second }
{}

/// The represented map has a key exactly if a cache or the index has it.
pub fn represented_keys_are_held()
    ensures { (bytes : Bytes) (index : Places) (cached : Cached) (dead : Ledgers) (map : Payloads)
        → Represents bytes index cached dead map → (key : EntryKey)
        → is_some (finite.get map key) ≡ (is_some (cached key) || is_some (finite.get index key)) }
{}

/// Bytes and deleted ledgers determine the index.
pub fn index_is_one()
    ensures { (bytes : Bytes) (dead : Ledgers) (first second : Places)
        → IsIndexOf bytes dead first → IsIndexOf bytes dead second → first ≡ second }
{}

/// The index of all entries of the files, with nothing cached, represents the scan of the files
/// without the deleted ledgers.
pub fn opened_index_represents()
    ensures { (files : Files) (dead : Ledgers) (index : Places) → IsIndexOf (file_of files) dead index
        → Represents (file_of files) index (λ _. None) dead (live (scan_of files) dead) }
{}

/// An index rebuilt from the published parts of the logs represents the same map, whatever older
/// entries the files have.
pub fn rebuilt_index_represents()
    ensures { (bytes parts : Bytes) (index rebuilt : Places) (cached : Cached) (dead : Ledgers) (map : Payloads)
        → Represents bytes index cached dead map → IndexIsPublished bytes parts index → IsIndexOf parts dead rebuilt
        → Represents bytes rebuilt cached dead map }
{}

/// The entries of any files have an index, whatever ledgers are deleted.
pub fn files_have_an_index()
    ensures { (files : Files) (dead : Ledgers) → (index : Places) × IsIndexOf (file_of files) dead index }
{}

/// Removing a deleted ledger from index and caches removes it from the represented map, and changes
/// nothing else there.
pub fn delete_keeps_representation()
    ensures { (bytes : Bytes) (index : Places) (cached left : Cached) (dead : Ledgers) (map : Payloads) (ledger : ℕ)
        → Represents bytes index cached dead map
        → ((key : EntryKey) → key.ledger ≡ ledger → left key ≡ None)
        → ((key : EntryKey) → key.ledger ≢ ledger → left key ≡ cached key)
        → Represents bytes (without_ledger index ledger) left (set.insert dead ledger) (without_ledger map ledger) }
{}

/// An add of a store refines that of the abstract map.
pub fn add_refines_abstract()
    ensures { (s t : State) (p : AbstractState) (kind : AddKind) (payload : List ℕ) (answer : Result Added AddFault) → SatisfiesInvariant s → IsTrue s.honest
        → StoreRefines s p → AddTransition s kind payload answer t → (q : AbstractState) × AbstractAdd s.caches.limit kind p payload answer q × StoreRefines t q }
{}

/// A take of a store refines that of the abstract map. A lease has a view with the entry and the
/// payload of the map.
pub fn take_refines_abstract<V: LogView>()
    ensures { (s t : State) (p : AbstractState) (key : EntryKey) (answer : Result (Taken V) TakeFault) → SatisfiesInvariant s → IsTrue s.honest → StoreRefines s p
        → TakeTransition V.bytes V.honest V.sound s key answer t → AbstractTake V.bytes V.honest p key answer × StoreRefines t p }
{}

/// A swap changes only which pairs of the abstract map are flushing.
pub fn swap_refines_abstract()
    ensures { (s t : State) (p : AbstractState) (answer : Swap) → SatisfiesInvariant s → IsTrue s.honest → StoreRefines s p
        → SwapTransition s answer t → StoreRefines t (abstract_after_swap answer p) }
{}

/// A deletion of a store refines that of the abstract map.
pub fn delete_refines_abstract()
    ensures { (s t : State) (p : AbstractState) (ledger : ℕ) (answer : Result ℕ DeleteFault) → SatisfiesInvariant s → IsTrue s.honest → StoreRefines s p
        → DeleteTransition s ledger answer t → (q : AbstractState) × AbstractDelete p ledger answer q × StoreRefines t q }
{}

/// A fence of a store refines that of the abstract map.
pub fn fence_refines_abstract()
    ensures { (s t : State) (p : AbstractState) (ledger : ℕ) (answer : Result Fence FenceFault) → StoreRefines s p
        → FenceTransition s ledger answer t → (q : AbstractState) × AbstractFence p ledger answer q × StoreRefines t q }
{}

/// The replay of a trail: the digests of the accepted entries whose ledgers were not deleted later.
/// Each key was accepted once.
pub fn replay_is_what_came_in()
    ensures { (map : Payloads) (trail : List Mark) → MapMatchesTrail map trail → (key : EntryKey) (digest : List ℕ) → (finite.get (replay_of trail) key ≡ Some digest)
        ↔ ((number : ℕ) × HasAddMark trail number key digest × ¬ (WasDeleted trail key.ledger)) }
{}

/// A store matches its trail: deleted ledgers are dead, fenced ones were fenced and not deleted,
/// and the logical contents have what the trail replays to, with that digest. Each key was accepted
/// once.
pub fn trail_is_kept()
    ensures follows { (s : State) → SatisfiesInvariant s → LedgersMatchTrail s.ledgers }
    ensures replays { (s : State) (map : Payloads) → SatisfiesInvariant s → IsTrue s.honest → IsContents map s → MapMatchesTrail map s.ledgers.trail }
    ensures has { (s : State) (map : Payloads) → SatisfiesInvariant s → IsTrue s.honest → IsContents map s → (key : EntryKey) (digest : List ℕ)
        → finite.get (replay_of s.ledgers.trail) key ≡ Some digest → HasDigest map key digest }
{}

/// A store opened on the files of another one, with the same deleted ledgers, has the same logical
/// contents, except for entries in the other one's write caches.
pub fn reopening_keeps_contents()
    ensures { (s t : State) (settings : Settings) (dead : List ℕ) → s.ledgers.dead ≡ valid_ledgers dead → ((key : EntryKey) → written_at s key ≡ None)
        → IsOpened true s.files settings dead t → SameContents s t }
{}
