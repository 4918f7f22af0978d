//! Answers, commands and the frontier.
ghost use Rattle.law_machine.specs.Before.{FullAsBefore, NamesFull, StagesAsBefore};
ghost use Rattle.law_machine.specs.Cut.{Cut};
ghost use Rattle.law_machine.specs.Device.{IsShape, Shape};
ghost use Rattle.law_machine.specs.Element.{Element, Locator, Root};
ghost use Rattle.law_machine.specs.Events.{ArePayloads, Chunked, Does, IsFrontier};
ghost use Rattle.law_machine.specs.Format.{Two};
ghost use Rattle.law_machine.specs.Formats.{Formats};
ghost use Rattle.law_machine.specs.Frames.{AreLong, IsFormat};
ghost use Rattle.law_machine.specs.Geometry.{shape_of};
ghost use Rattle.law_machine.specs.Grounds.{NoRoomToStage, Refuses, TooHeavy};
ghost use Rattle.law_machine.specs.Distinct.{AreDistinct};
ghost use Rattle.law_machine.specs.Index.{joined_bodies};
ghost use Rattle.law_machine.specs.Lists.{◌∈◌, nth};
ghost use Rattle.law_machine.specs.Refusal.{IndexFull};
ghost use Rattle.law_machine.specs.Round.{IsMember, IsRound, NothingWaits};
ghost use Rattle.law_machine.specs.Sound.{Bounded, Sound};
ghost use Rattle.law_machine.specs.State.{Accepted, Begin, Begun, Delete, End, Ended, Event, Issue, Issued, MoveOne, Put, Reply, Retire, Stage, Staged, State, after_all, commands_of, index_now, map_now, next_command};
ghost use Rattle.law_machine.specs.Stays.{KeepsRound, RootsAfter};
ghost use Rattle.law_machine.specs.Step.{DependsOn, History, Step};
ghost use Rattle.law_machine.specs.Tally.{dead_weight, living_weight};
ghost use Rattle.std.specs.Prelude.{◌≡◌, ◌≢◌, ◌↔◌, ◌<◌, ◌≤◌, ◌+◌, ◌-◌, ◌*◌, ◌/◌, ◌++◌, ◌∷◌, [], ℕ, suc, Some, true, false, List, length};

/// In every sound state every event has an answer: it is refused, or does what it does. So the refusals are exact.
pub fn events_are_total()
    ensures { (S : Shape) (F : Formats) (s : State) (event : Event)
        → IsShape S → IsFormat S F → Sound S F s → Bounded S F s → (reply : Reply) × (t : State)
        × Step S F s event reply t }
{}

/// A history adds the commands that it accepted, and changes nothing of what was found at open. So the map after it is
/// the map before it after those commands.
pub fn commands_go_on()
    ensures commands { (S : Shape) (F : Formats) (s t : State) (history : List (Event × Reply))
        → History S F s history t
        → t.commands ≡ commands_of history ++ s.commands }
    ensures map { (S : Shape) (F : Formats) (s t : State) (history : List (Event × Reply)) → History S F s history t
        → map_now t ≡ after_all (map_now s) (commands_of history) }
    ensures opened { (S : Shape) (F : Formats) (s t : State) (history : List (Event × Reply)) → History S F s history t
        → (t.opened ≡ s.opened) × (t.start ≡ s.start) × (t.opening ≡ s.opening) × (t.count ≡ s.count) }
    // A put's number goes on from those of the root at open, and the next command's is one more.
    ensures numbers { (S : Shape) (F : Formats) (s t : State) (id n : ℕ) (bytes : List ℕ) → Does S F s (Put id bytes) (Accepted n) t
        → (next_command s ≡ s.count + n) × (next_command t ≡ suc (next_command s)) }
{}

/// Command n depends on a persistent root exactly where n is at most the frontier.
pub fn the_frontier_is_exact()
    ensures { (S : Shape) (F : Formats) (s : State) (frontier n : ℕ) → Sound S F s → IsFrontier S F s frontier
        → ((r : Root) × DependsOn S F s n r × (r.version ≤ s.world.persistent.root)) ↔ (n ≤ frontier) }
{}

/// A sound state has a frontier.
pub fn there_is_a_frontier()
    ensures { (S : Shape) (F : Formats) (s : State) → Sound S F s
        → (frontier : ℕ) × (frontier ≤ length s.commands) × IsFrontier S F s frontier }
{}

/// Where nothing waits and the table is empty, all commands are persistent.
pub fn all_is_persistent_at_rest()
    ensures { (S : Shape) (F : Formats) (s : State) (frontier : ℕ) → Sound S F s → NothingWaits s.world
        → s.table ≡ [] → IsFrontier S F s frontier → frontier ≡ length s.commands }
{}

/// In every sound state there is a round of what is ready, and a list of its members, each once.
pub fn there_is_a_round()
    ensures { (S : Shape) (F : Formats) (s : State) → Sound S F s
        → (R : Cut) × IsRound S s.world R × (members : List Element)
        × ((member : Element) → member ∈ members ↔ IsMember S (record s.world { round = R }) member)
        × AreDistinct members }
{}

/// What a put, a delete, a Stage, a move or a Retire does leads to one state, and every Begin takes the same members.
pub fn events_are_deterministic()
    ensures put { (S : Shape) (F : Formats) (s t u : State) (id : ℕ) (bytes : List ℕ) (reply other : Reply)
        → IsShape S → IsFormat S F
        → Does S F s (Put id bytes) reply t → Does S F s (Put id bytes) other u → u ≡ t }
    ensures delete { (S : Shape) (F : Formats) (s t u : State) (id : ℕ) (reply other : Reply) → IsShape S → IsFormat S F
        → Does S F s (Delete id) reply t → Does S F s (Delete id) other u → u ≡ t }
    ensures stage { (S : Shape) (F : Formats) (s t u : State) (reply other : Reply) → IsShape S → IsFormat S F
        → Does S F s Stage reply t → Does S F s Stage other u → u ≡ t }
    ensures move_one { (S : Shape) (F : Formats) (s t u : State) (e : ℕ) (reply other : Reply) → IsShape S → IsFormat S F
        → Does S F s (MoveOne e) reply t → Does S F s (MoveOne e) other u → u ≡ t }
    ensures retire { (S : Shape) (F : Formats) (s t u : State) (e : ℕ) (reply other : Reply) → IsShape S → IsFormat S F
        → Does S F s (Retire e) reply t → Does S F s (Retire e) other u → u ≡ t }
    ensures begin { (S : Shape) (F : Formats) (s t u : State) (members others : List Element)
        → Does S F s Begin (Begun members) t → Does S F s Begin (Begun others) u
        → (member : Element) → member ∈ members ↔ member ∈ others }
{}

/// What an event leaves as it was: the round that is out, unless it is one of writeback; the roots, unless it staged one;
/// and the frontier, unless it ended a round.
pub fn what_an_event_leaves()
    ensures round { (S : Shape) (F : Formats) (s t : State) (event : Event) (reply : Reply)
        → Step S F s event reply t → event ≢ Begin → event ≢ Issue → event ≢ End → KeepsRound s t }
    ensures roots { (S : Shape) (F : Formats) (s t : State) (event : Event) (reply : Reply)
        → Step S F s event reply t → RootsAfter reply s t }
    ensures frontier { (S : Shape) (F : Formats) (s t : State) (event : Event) (reply : Reply) (n : ℕ)
        → Step S F s event reply t → ((k : ℕ) → reply ≢ Ended k) → IsFrontier S F s n → IsFrontier S F t n }
{}

/// There is one frontier, and no event makes it less.
pub fn the_frontier_rises()
    ensures one { (S : Shape) (F : Formats) (s : State) (n k : ℕ) → Sound S F s → IsFrontier S F s n
        → IsFrontier S F s k → n ≡ k }
    ensures rises { (S : Shape) (F : Formats) (s t : State) (event : Event) (reply : Reply) (n k : ℕ) → Sound S F s
        → Sound S F t → Step S F s event reply t → IsFrontier S F s n → IsFrontier S F t k → n ≤ k }
{}

/// An Issue takes a member that wasn't issued in this round before, and that isn't among those left after it.
pub fn each_member_is_issued_once()
    ensures { (S : Shape) (F : Formats) (s t : State) (member : Element) → Sound S F s
        → Does S F s Issue (Issued member) t → (member ∈ s.issued → ⊥) × (member ∈ t.left → ⊥) }
{}

/// Where a Stage doesn't merge by size and chunks and runs may lie on one extent, as in formats 1 and 2, it makes the table the newest run while there are fewer than four,
/// and else one run of all that lives; and it is full where that run goes nowhere.
pub fn format_2_stages_as_before()
    ensures stages { (S : Shape) (F : Formats) (s t : State) (v : ℕ) → S.by_size ≡ false
        → S.apart ≡ false → Does S F s Stage (Staged v) t ↔ StagesAsBefore S F s v t }
    ensures full { (S : Shape) (F : Formats) (s : State) → S.by_size ≡ false → S.apart ≡ false → s.table ≢ []
        → NoRoomToStage S F s ↔ FullAsBefore S F s }
{}

/// Where each entry weighs one, as in formats 1 and 2, a put is refused 32 exactly where its identifier isn't named and as many are
/// named as may be. There these are as many as entries of 81 bytes fit in a run that takes one whole extent.
pub fn format_2_counts_names_as_before()
    ensures heavy { (S : Shape) (F : Formats) (s : State) (id : ℕ) (bytes : List ℕ) → IsShape S → ((chunks : ℕ) → S.weigh chunks ≡ 1)
        → Bounded S F s → TooHeavy S F s id bytes ↔ NamesFull S F s id }
    ensures geometries { (extents pages sections per_section : ℕ) → let S = shape_of extents pages sections per_section Two in
        ((chunks : ℕ) → S.weigh chunks ≡ 1) × (S.most_weight ≡ (4096 * pages - 45) / 81) }
{}

/// The bytes of a put have one list of payloads for each identifier and number of a command. It has as many as the bytes
/// have pieces, and its pieces are the bytes. So what a put stores beside its bytes changes nothing of what is read.
pub fn a_put_has_one_list_of_payloads()
    ensures there { (S : Shape) (F : Formats) (id command : ℕ) (bytes : List ℕ) → IsShape S
        → (payloads : List (List ℕ)) × ArePayloads S F id command bytes payloads }
    ensures one { (S : Shape) (F : Formats) (id command : ℕ) (bytes : List ℕ) (payloads others : List (List ℕ))
        → ArePayloads S F id command bytes payloads → ArePayloads S F id command bytes others → payloads ≡ others }
    ensures length { (S : Shape) (F : Formats) (id command : ℕ) (bytes : List ℕ) (payloads pieces : List (List ℕ))
        → ArePayloads S F id command bytes payloads → Chunked (S.piece_bytes (length bytes)) bytes pieces
        → length payloads ≡ length pieces }
    ensures bytes { (S : Shape) (F : Formats) (id command : ℕ) (bytes : List ℕ) (payloads : List (List ℕ)) → IsFormat S F
        → ArePayloads S F id command bytes payloads → joined_bodies F payloads ≡ bytes }
    // Each that fits on an extent is long enough for its head.
    ensures long { (S : Shape) (F : Formats) (id command : ℕ) (bytes : List ℕ) (payloads : List (List ℕ)) → IsFormat S F
        → ArePayloads S F id command bytes payloads → AreLong S F payloads }
    // Each says its number, counted from 0 on, and how many there are.
    ensures heads { (S : Shape) (F : Formats) (id command : ℕ) (bytes : List ℕ) (payloads : List (List ℕ)) (k : ℕ) (payload : List ℕ)
        → ArePayloads S F id command bytes payloads → nth payloads k ≡ Some payload
        → (piece : List ℕ) × (payload ≡ F.chunk id k (length payloads) command piece) }
{}

/// After a Stage that merges by size the deletions weigh less than a quarter of what the newest entries may. So a put isn't refused 32
/// then where what lives with it weighs three quarters at most.
pub fn a_stage_leaves_room_for_puts()
    ensures stage { (S : Shape) (F : Formats) (s t : State) (v : ℕ) → IsShape S → S.by_size ≡ true → s.table ≢ []
        → Does S F s Stage (Staged v) t → 4 * dead_weight S.weigh (index_now t) < S.most_weight }
    ensures put { (S : Shape) (F : Formats) (s : State) (id : ℕ) (bytes : List ℕ) (chunks : List (List ℕ)) (locators : List Locator)
        → IsShape S → 4 * dead_weight S.weigh (index_now s) < S.most_weight → Chunked (S.piece_bytes (length bytes)) bytes chunks
        → length locators ≡ length chunks
        → 4 * living_weight S.weigh (record { id = id; locators = locators } ∷ index_now s) ≤ 3 * S.most_weight
        → Refuses S F s (Put id bytes) IndexFull → ⊥ }
{}
