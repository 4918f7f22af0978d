//! Stores over files as they are opened, and what is known where one isn't.

use crate::files::{OverFile, Read, Written};
use crate::heads::scan;
use crate::sections::{Section, made_for, pages_of};
use cs_disk::{FileFault, PageDisk, SystemFault};
use cs_doctor::{Known, Outcome, Scanned, known_of, may_be_lost};
use cs_refusal::Refusal;
use cs_store::mount::{AsOf, Finding, Mounted, Remade, look};
use cs_store::{OpenOptions, Store};
use std::alloc::Global;
use std::time::Clock;

/// A disk over a file, on which a store may have lost a section of its superblock.
pub trait Remaking: OverFile + Drop {
    /// The disk with these sections in place of what is on their pages. It comes back as it is if there are none, or if
    /// it shows pages just as they lie there.
    fn with(self, made: Vec<Section>) -> Result<Self, Self>;
}

impl Remaking for Remade<Read> {
    fn with(self, made: Vec<Section>) -> Result<Remade<Read>, Remade<Read>> {
        if made.is_empty() {
            return Err(self);
        }
        Ok(Remade::new(self.into_disk(), made))
    }
}

impl Remaking for Read {
    fn with(self, _made: Vec<Section>) -> Result<Read, Read> {
        Err(self)
    }
}

impl Remaking for Written {
    fn with(self, _made: Vec<Section>) -> Result<Written, Written> {
        Err(self)
    }
}

/// A disk that shows a store that lies on a disk below.
pub trait Shown: PageDisk {
    type Below: Remaking;

    /// The store on the disk below, and what the pages hold that it has twice.
    fn open_over(
        alloc: Global,
        disk: Self::Below,
    ) -> Result<(Store<Self>, Vec<Finding>), (Refusal, Self::Below)>;

    /// The disk below.
    fn into_below(self) -> Self::Below;
}

impl<D: Remaking> Shown for Mounted<D> {
    type Below = D;

    fn open_over(
        alloc: Global,
        disk: D,
    ) -> Result<(Store<Mounted<D>>, Vec<Finding>), (Refusal, D)> {
        OpenOptions::new(alloc).open(disk)
    }

    fn into_below(self) -> D {
        self.into_disk()
    }
}

impl<D: Remaking> Shown for AsOf<Mounted<D>> {
    type Below = D;

    fn open_over(
        alloc: Global,
        disk: D,
    ) -> Result<(Store<AsOf<Mounted<D>>>, Vec<Finding>), (Refusal, D)> {
        OpenOptions::new(alloc).open_older(disk)
    }

    fn into_below(self) -> D {
        self.into_disk().into_disk()
    }
}

/// A store that was opened, or what can be got of one.
#[derive(Drop)]
pub struct Opened<S> {
    pub store: S,
    /// What the pages hold that it has twice.
    pub findings: Vec<Finding>,
    /// What a scan found of the commands on the device, if the newest root may be the damaged one.
    pub scanned: Option<Scanned>,
    /// The pages of the sections that were lost, and that show as they are made from the index.
    pub made: Vec<u64>,
}

/// Why the store in a file wasn't opened, and what is known of the file.
#[derive(Drop)]
pub struct Unopened {
    pub outcome: Outcome,
    pub known: Known,
    /// What the pages hold that the store has twice, as far as that can be read.
    pub findings: Vec<Finding>,
}

impl Unopened {
    /// The operating system refused the file, or it is none.
    pub fn of_file(alloc: Global, fault: FileFault) -> Self {
        Unopened {
            outcome: Outcome::of_file(fault),
            known: Known::nothing(),
            findings: Vec::new(alloc),
        }
    }

    /// It ended so, and the operating system said this.
    pub fn of_outcome(alloc: Global, outcome: Outcome, system: Option<SystemFault>) -> Self {
        Unopened {
            outcome,
            known: Known::of_system(system),
            findings: Vec::new(alloc),
        }
    }

    /// The same, with what the operating system said, if that isn't known yet.
    pub fn with_fault(self, system: Option<SystemFault>) -> Self {
        let Unopened {
            outcome,
            known,
            findings,
        } = self;
        let Known {
            content,
            system: known,
        } = known;
        Unopened {
            outcome,
            known: Known {
                content,
                system: known.or(system),
            },
            findings,
        }
    }

    /// A repair stopped since it could make a loss final.
    pub fn stopped(self) -> Self {
        let Unopened {
            outcome: _,
            known,
            findings,
        } = self;
        Unopened {
            outcome: Outcome::MayBeLost,
            known,
            findings,
        }
    }

    /// What is on this disk is refused so.
    pub fn of_disk<D: OverFile>(alloc: Global, refusal: Refusal, disk: &mut D) -> Self {
        let system = disk.fault();
        let content = known_of(alloc, disk).content;
        Unopened {
            outcome: Outcome::NoStore(refusal),
            known: Known { content, system },
            findings: look(alloc, disk).unwrap_or(Vec::new(alloc)),
        }
    }
}

/// Opens the store in a file. If the newest root may be the one that is damaged, the device is scanned first for the
/// commands that are on it.
pub fn open_store<E: Shown + Drop, R: AllocGlobal + Clock>(
    rt: &R,
    disk: Result<E::Below, Unopened>,
) -> Result<Opened<Store<E>>, Unopened> {
    let opened = store_on::<E>(rt.alloc(), disk?, None)?;
    if !may_be_lost(&opened.findings) {
        return Ok(opened);
    }
    let Opened { store, made, .. } = opened;
    let mut disk = store.close().into_below();
    let scanned = scan(rt, &mut disk);
    // The disk shows the sections that were made.
    let mut opened = store_on::<E>(rt.alloc(), disk, scanned)?;
    opened.made = made;
    Ok(opened)
}

/// The store on a disk, of which a scan found this.
fn store_on<E: Shown + Drop>(
    alloc: Global,
    disk: E::Below,
    scanned: Option<Scanned>,
) -> Result<Opened<Store<E>>, Unopened> {
    match E::open_over(alloc, disk) {
        Ok((store, findings)) => Ok(Opened {
            store,
            findings,
            scanned,
            made: Vec::new(alloc),
        }),
        Err((refusal, mut disk)) => {
            let made = made_for(alloc, refusal, &mut disk);
            store_with::<E>(alloc, refusal, disk, made, scanned)
        }
    }
}

/// The store on a disk that was refused so, with these sections in place of those that are lost.
fn store_with<E: Shown + Drop>(
    alloc: Global,
    refusal: Refusal,
    disk: E::Below,
    made: Vec<Section>,
    scanned: Option<Scanned>,
) -> Result<Opened<Store<E>>, Unopened> {
    let pages = pages_of(alloc, &made);
    let shown = match disk.with(made) {
        Ok(shown) => shown,
        Err(mut disk) => return Err(Unopened::of_disk(alloc, refusal, &mut disk)),
    };
    match E::open_over(alloc, shown) {
        Ok((store, findings)) => Ok(Opened {
            store,
            findings,
            scanned,
            made: pages,
        }),
        Err((refusal, mut disk)) => Err(Unopened::of_disk(alloc, refusal, &mut disk)),
    }
}
