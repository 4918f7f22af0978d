//! The roots that a store notes, and the commands that are persistent by them.
ghost use Rattle.std.specs.Prelude.{◌≡◌, ◌⊎◌, ◌↔◌, ◌<◌, ◌≤◌, ◌∷◌, ℕ, Contains, List, [], length};
ghost use Rattle.cs_deps.specs.declared.elements.Element.{Element as Name};
ghost use Rattle.cs_deps.specs.declared.elements.Element.TheVariants.{Plain, Version};
ghost use Rattle.cs_deps.specs.Named.{Named, Names};
ghost use Rattle.cs_deps.specs.Staging.{IsKept, IsSatisfied, Staging};
ghost use Rattle.cs_deps.specs.State.{State as GraphState};
ghost use Rattle.cs_extent.specs.Frames.{root_family};
ghost use Rattle.cs_extent.specs.State.{State as ExtentsState};
ghost use Rattle.cs_index.specs.State.{State as IndexState};
ghost use Rattle.law_machine.specs.Device.{Page, Shape};
ghost use Rattle.law_machine.specs.Element.{Map};
ghost use Rattle.law_machine.specs.Events.{IsFrontier};
ghost use Rattle.law_machine.specs.Formats.{Formats};
ghost use Rattle.law_machine.specs.Open.{opened_state};
ghost use Rattle.law_machine.specs.Recovery.{Recovers};
ghost use Rattle.law_machine.specs.Sound.{Sound};
ghost use Rattle.law_machine.specs.State.{Event, NotYet, Persistent, Reply, Settle, State};
ghost use Rattle.law_machine.specs.Step.{Step};
ghost use Rattle.law_refinement.specs.Frontiers.{AreRootsOf, IsFrontierOf, IsRootPersistent, Noted, noted_after};
ghost use Rattle.law_refinement.specs.Parts.{ArePartsOf};
ghost use Rattle.law_refinement.specs.Machines.{IsFrontierFor, SoundFor};

/// The roots are noted as they are staged, from the one that was read at open on. Those before the persistent one may be let
/// go.
pub fn roots_are_noted()
    // At open the root that was read is noted alone, with none of the commands since open.
    ensures opened { (S : Shape) (F : Formats) (img : ℕ → Page) (n : ℕ) (m : Map) (found : Recovers S F img n m)
        → AreRootsOf ((found.version, 0) ∷ []) (opened_state S F img n m found) }
    // An event adds to those that are noted the root that it staged, if it staged one, with all commands.
    ensures noted { (S : Shape) (F : Formats) (s t : State) (event : Event) (reply : Reply) (roots : List Noted)
        → Sound S F s → Step S F s event reply t → AreRootsOf roots s → AreRootsOf (noted_after roots (length s.commands) reply) t }
    // Those that remain are the state's, where none but roots before the persistent one were let go.
    ensures let_go { (s : State) (roots rest : List Noted) → AreRootsOf roots s
        → ((v n : ℕ) → Contains rest (v, n) → Contains roots (v, n))
        → ((v n : ℕ) → Contains roots (v, n) → s.world.persistent.root ≤ v → Contains rest (v, n)) → AreRootsOf rest s }
{}

/// The most commands of a root that is persistent in the graph are the machine's frontier, and a root is persistent there
/// exactly where all that a dependency on its version names is.
pub fn roots_are_counted()
    ensures frontier { (x : ExtentsState) (g : GraphState) (i : IndexState) (s : State) (roots : List Noted) (n : ℕ)
        → ArePartsOf x g i s → SoundFor x s → AreRootsOf roots s → IsFrontierOf g.staging roots n → IsFrontierFor x s n }
    // Here d names no plain write, and versions 1 to v of the root alone.
    ensures persistent { (staging : Staging) (d : Named) (v : ℕ) → IsKept staging → ((number : ℕ) → ¬ Names d (Plain number))
        → ((family version : ℕ) → Names d (Version family version) ↔ ((family ≡ root_family) × (1 ≤ version) × (version ≤ v)))
        → ((z : Name) → Names d z → IsSatisfied staging z) ↔ IsRootPersistent staging v }
{}

/// A command's number against the frontier is the machine's Settle.
pub fn settle_refines_settle()
    // A number from 1 to the frontier is answered as persistent.
    ensures persistent { (S : Shape) (F : Formats) (s : State) (n frontier : ℕ) → IsFrontier S F s frontier → 1 ≤ n → n ≤ frontier
        → Step S F s (Settle n) Persistent s }
    // For 0 and for a number above the frontier the frontier is answered.
    ensures not_yet { (S : Shape) (F : Formats) (s : State) (n frontier : ℕ) → IsFrontier S F s frontier → (n ≡ 0) ⊎ (frontier < n)
        → Step S F s (Settle n) (NotYet frontier) s }
{}
