//! What an index counts.
ghost use Rattle.law_machine.specs.Device.{IsWeighing};
ghost use Rattle.law_machine.specs.Element.{Entry, Locator};
ghost use Rattle.law_machine.specs.Index.{Ascending, live_at, lookup, named_weight, names, run_weight, weight};
ghost use Rattle.law_machine.specs.Lists.{◌∈◌};
ghost use Rattle.law_machine.specs.Tally.{dead_weight, lives_on, living_weight, shards, tally};
ghost use Rattle.std.specs.Prelude.{◌≡◌, ◌≢◌, ◌↔◌, ◌≤◌, ◌+◌, ◌∷◌, [], ℕ, List, Some, is_some, length, true};

/// A tally depends on what each identifier has alone: it is at least what any one counts, and two indexes in which each has the
/// same have the same tallies.
pub fn tallies_count_identifiers()
    ensures each { (f : List Locator → ℕ) (index : List Entry) (id : ℕ) → f [] ≡ 0 → f (live_at index id) ≤ tally f index }
    ensures alike { (f : List Locator → ℕ) (index other : List Entry) → f [] ≡ 0
        → ((id : ℕ) → live_at index id ≡ live_at other id) → tally f index ≡ tally f other }
    // So no shard lives where none is counted, and none lives on an extent where no chunk is counted.
    ensures shards { (index : List Entry) → (shards index ≡ 0) ↔ ((id : ℕ) → live_at index id ≡ []) }
    ensures lives_on { (index : List Entry) (e : ℕ) → (lives_on e index ≡ 0)
        ↔ ((id : ℕ) (l : Locator) → l ∈ live_at index id → l.extent ≢ e) }
{}

/// What an index weighs, by whatever rule, depends on what each identifier has alone: one in which each entry weighs no more weighs no more.
pub fn weights_count_newest_entries()
    ensures each { (weigh : ℕ → ℕ) (index : List Entry) (id : ℕ) → weight weigh (lookup id index) ≤ named_weight weigh index }
    ensures no_more { (weigh : ℕ → ℕ) (index other : List Entry)
        → ((id : ℕ) → weight weigh (lookup id index) ≤ weight weigh (lookup id other))
        → named_weight weigh index ≤ named_weight weigh other }
    ensures alike { (weigh : ℕ → ℕ) (index other : List Entry)
        → ((id : ℕ) → lookup id index ≡ lookup id other) → named_weight weigh index ≡ named_weight weigh other }
    // The entries of a run weigh what they do one by one.
    ensures run { (weigh : ℕ → ℕ) (entries : List Entry) → Ascending entries
        → named_weight weigh entries ≡ run_weight weigh entries }
    // What is named lives, or is a deletion.
    ensures parts { (weigh : ℕ → ℕ) (index : List Entry)
        → named_weight weigh index ≡ living_weight weigh index + dead_weight weigh index }
    // No more identifiers are named than it weighs.
    ensures names { (weigh : ℕ → ℕ) (index : List Entry) → IsWeighing weigh → names index ≤ named_weight weigh index }
{}

/// The deletion of an identifier that is named, and an entry of as many chunks as it has, make an index weigh no more.
pub fn deletions_and_moves_weigh_no_more()
    ensures deletion { (weigh : ℕ → ℕ) (index : List Entry) (id : ℕ) → IsWeighing weigh → is_some (lookup id index) ≡ true
        → named_weight weigh (record { id = id; locators = [] } ∷ index) ≤ named_weight weigh index }
    ensures moved { (weigh : ℕ → ℕ) (index : List Entry) (id : ℕ) (locators others : List Locator)
        → lookup id index ≡ Some others → length locators ≡ length others
        → named_weight weigh (record { id = id; locators = locators } ∷ index) ≤ named_weight weigh index }
{}
