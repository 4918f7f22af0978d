//! The board: one word that says how many commands are persistent.
ghost use Rattle.std.specs.Prelude.{◌≡◌, ◌≤◌, [], IfOk};
ghost use Rattle.cs_node.specs.Behind.{IsFrontierOfSome};
ghost use Rattle.cs_node.specs.Mirror.{knows};
ghost use Rattle.cs_node.specs.Starts.{start_of};

use atomic_table::{Play, Seat, Split, Table, TableRule};
use cs_core::Core;
use cs_disk::PageDisk;
use std::alloc::{AllocError, Global};
use std::marker::{Brand, Model, PhantomData};

/// Names a board, and the start of the core behind it. Whoever makes a node picks both.
pub trait Naming {
    ghost use Rattle.atomic_table.specs.Seated.{TableId};
    ghost use Rattle.cs_node.specs.Starts.{Start};

    ghost table: { TableId };

    ghost start: { Start };
}

// No board has this name, which has no word. If a call says `Brand`, its proof picks the board and the start.
impl Naming for Brand {
    ghost use Rattle.cs_node.specs.Mirror.{no_table};
    ghost use Rattle.cs_node.specs.Starts.{no_start};

    ghost table = { no_table };

    ghost start = { no_start };
}

/// What a seat at the board knows. It stands only in contracts, and none is ever made.
pub struct Sight {
    number: u64,
}

impl Model for Sight {
    ghost use Rattle.std.specs.Prelude.{None};
    ghost use Rattle.cs_node.specs.Mirror.{Knowledge};

    ghost Value = { Knowledge };

    ghost view = { λ s. record { number = s.number; start = None } };
}

/// The rule of the board: the keeper's view is the word, and no view exceeds it. Once the board is a node's, each view
/// is the frontier of some core of the node's start.
pub struct Mirror<D: PageDisk> {
    of: PhantomData<D>,
}

impl<D: PageDisk> TableRule<(), Sight, ()> for Mirror<D> {
    ghost use Rattle.cs_node.specs.Mirror.{IsMirror, nothing};

    ghost holds = { λ _ s. IsMirror D.PageDisk s };

    ghost first = { λ _. nothing };
}

/// The keeper raises the word, or a reader loads it: the view is the word then, and counts commands of a core of the
/// start that K names.
pub struct Sees<D: PageDisk, K: Naming> {
    disk: PhantomData<D>,
    of: PhantomData<K>,
}

impl<D: PageDisk, K: Naming> Play<(), Sight> for Sees<D, K> {
    ghost use Rattle.cs_node.specs.Mirror.{Sights};

    ghost then = { λ _ me found now. Sights D.PageDisk K.start me found now };
}

/// A new reader knows what the keeper knows.
pub struct Alike;

impl Split<Sight> for Alike {
    ghost left = { λ v. v };

    ghost right = { λ v. v };
}

pub type Words<D> = Table<(), Sight, (), Mirror<D>, Global>;

pub type Reader = Seat<(), Sight>;

/// The board that K names.
#[derive(Drop)]
pub struct NamedBoard<D: PageDisk, K: Naming> {
    words: Words<D>,
    of: PhantomData<K>,
    ghost named: { words.shared.table_id ≡ K.table },
    ghost one_word: { words.shared.table_id.words ≡ 1 },
}

impl<D: PageDisk, K: Naming> NamedBoard<D, K> {
    /// Raises the word to the frontier of a core, which isn't below the keeper's view.
    pub(crate) fn raise(&self, keeper: &mut Reader, core: &Core<D>)
        requires seat { (keeper.old.table_id ≡ K.table) × (keeper.old.id ≡ 0) × (keeper.old.me ≡ (knows K.start keeper.old.me.0.number, [])) }
        requires start { start_of core.now ≡ K.start }
        requires later { keeper.old.me.0.number ≤ core.now.store.frontier }
        ensures { (keeper.new.table_id ≡ K.table) × (keeper.new.id ≡ 0) × (keeper.new.me ≡ (knows K.start core.now.store.frontier, [])) }
    {
        let (_, frontier) = core.progress();
        self.words.shared.store::<Sees<D, K>>(keeper, 0, frontier);
    }

    /// Loads the word, which is the view of this seat then.
    pub(crate) fn look(&self, seat: &mut Reader) -> u64
        requires { (seat.old.table_id ≡ K.table) × (seat.old.me ≡ (knows K.start seat.old.me.0.number, [])) }
        ensures seat { (seat.new.table_id ≡ K.table) × (seat.new.me ≡ (knows K.start result, [])) }
        ensures later { seat.old.me.0.number ≤ result }
        ensures frontier { IsFrontierOfSome D.PageDisk K.start result }
    {
        self.words.shared.load::<Sees<D, K>>(seat, 0)
    }

    /// A new seat with the view of this one.
    pub(crate) fn split(&self, seat: &mut Reader) -> Reader
        requires { (seat.old.table_id ≡ K.table) × (seat.old.me ≡ (knows K.start seat.old.me.0.number, [])) }
        ensures kept { (seat.new.table_id ≡ seat.old.table_id) × (seat.new.id ≡ seat.old.id) × (seat.new.me ≡ seat.old.me) }
        ensures made { (result.table_id ≡ K.table) × (result.me ≡ (knows K.start seat.old.me.0.number, [])) }
    {
        self.words.shared.split_seat::<Alike>(seat)
    }
}

/// A board that no node has yet. Contracts see its name.
#[derive(Drop)]
pub struct Board<D: PageDisk> {
    words: Words<D>,
    keeper: Reader,
}

impl<D: PageDisk> Model for Board<D> {
    ghost use Rattle.std.specs.Prelude.{◌≡◌, []};
    ghost use Rattle.atomic_table.specs.Seated.{TableId, table_id_coded};
    ghost use Rattle.cs_node.specs.Mirror.{nothing};

    ghost Value = { TableId };

    ghost coded = { table_id_coded };

    ghost view = { λ b. b.words.shared.table_id };

    ghost invariant = { λ b. (b.words.shared.table_id.words ≡ 1) × (b.keeper.table_id ≡ b.words.shared.table_id) × (b.keeper.id ≡ 0) × (b.keeper.me ≡ (nothing, [])) };
}

impl<D: PageDisk> Board<D> {
    /// A board on which no command is persistent.
    pub fn new(alloc: Global) -> Result<Self, AllocError>
        ensures { IfOk result (λ board. board.words ≡ 1) }
    {
        let (words, keeper) = Words::<D>::of_words(alloc, &[0], &())?;
        Ok(Board { words, keeper })
    }

    /// The board as that of a node with this core, and the keeper's seat.
    pub(crate) fn name<K: Naming>(self, core: &Core<D>) -> (NamedBoard<D, K>, Reader)
        requires board { self ≡ K.table }
        requires start { start_of core.now ≡ K.start }
        requires accepted { core.now.store.accepted ≡ 0 }
        ensures { (result.1.table_id ≡ K.table) × (result.1.id ≡ 0) × (result.1.me ≡ (knows K.start core.now.store.frontier, [])) }
    {
        // Called for its contract alone: what a core behind the lock keeps, and that no more is persistent than was
        // accepted.
        core.progress();
        let Board { words, keeper } = self;
        let mut keeper = keeper;
        words.shared.store::<Sees<D, K>>(&mut keeper, 0, 0);
        let board = NamedBoard {
            words,
            of: PhantomData,
        };
        (board, keeper)
    }
}
