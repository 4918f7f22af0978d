//! A disk of which some pages are hidden: those of another store than the one that is read, and those that can't be
//! read.
ghost use Rattle.std.specs.Prelude.{◌≡◌, ◌≢◌, ◌⊎◌, ◌++◌, ◌+◌, ◌-◌, ◌<◌, ◌≤◌, ◌^◌, [], IfErr, IfOk, MatchResult, None, Some, length, min, option_map, option_to_list, true, ℕ};
ghost use Rattle.cs_disk.specs.Disk.{HasCause, IsWhole, Rises, page, seen};
ghost use Rattle.cs_disk.specs.Reads.{OnlyReads};
ghost use Rattle.cs_frame.specs.declared.identities.StoreId.{StoreId};
ghost use Rattle.cs_mount.specs.Hidden.{hidden_at, is_among, page_to_hide, state_without, without_hidden};
ghost use Rattle.cs_mount.specs.Identities.{AreOfTwo, IsOfOne, identity_said};
ghost use Rattle.cs_mount.specs.Repaged.{RepagesKept, left_repaged};
ghost use Rattle.cs_mount.specs.StorePairs.{dimensions_on, first_says};
ghost use Rattle.cs_mount.specs.Unreadable.{AreOfStore, NoneIsFound, RisesBy, all_hidden};

use crate::identities::{read_store, says_another};
use crate::unreadable::find_unreadable;
use cs_disk::{CrashDisk, DiskFault, PageDisk};
use cs_frame::StoreId;
use std::alloc::Global;

/// A disk over another one, which it only reads: it shows zeros in place of some pages, and never reads them. So of two
/// stores whose pages lie on a device one shows, and a page that can't be read doesn't refuse the store. A write is
/// refused 1 DeviceFault, and counted.
///
/// It is honest where the disk below is.
#[derive(Drop)]
pub struct Chosen<D: PageDisk> {
    disk: D,
    hidden: Vec<u64>,
    refused: u64,
    // What the trait's laws are told.
    ghost shows: { RepagesKept (hidden_at hidden.items) (D.state disk) },
    ghost whole: { D.honest disk → IsWhole (state_without hidden.items (D.state disk)) },
}

/// The page to hide so that the store of this identity shows.
fn find_hidden<D: PageDisk>(
    alloc: Global,
    disk: &mut D,
    id: StoreId,
) -> Result<Option<u64>, DiskFault>
    requires { 0 < D.page_count disk.old }
    ensures hidden { D.honest disk.old → IfOk result (λ hidden. hidden ≡ page_to_hide (D.page_count disk.old) id.0 (seen (D.state disk.old))) }
    ensures disk { OnlyReads D.PageDisk disk.old disk.new }
    ensures cause { HasCause (D.failure_count disk.old) (D.failure_count disk.new) result }
{
    let last = disk.pages() - 1;
    match read_store(alloc, disk, 0) {
        Ok(said) => {
            if says_another(id, said) {
                return Ok(Some(0));
            }
        }
        Err(fault) => return Err(fault),
    }
    match read_store(alloc, disk, last) {
        Ok(said) => Ok(if says_another(id, said) {
            Some(last)
        } else {
            None
        }),
        Err(fault) => Err(fault),
    }
}

/// A page, if there is one, and then these.
fn joined(alloc: Global, first: Option<u64>, more: &[u64]) -> Result<Vec<u64>, DiskFault>
    ensures pages { IfOk result (λ all. all.items ≡ option_to_list first ++ more.now) }
    ensures memory { IfErr result (λ fault. fault ≡ DiskFault.OutOfMemory) }
{
    let mut all = Vec::new(alloc);
    if let Some(number) = first {
        match all.push(number) {
            Ok(()) => {}
            Err(_) => return Err(DiskFault::OutOfMemory),
        }
    }
    match all.extend_from_slice(more) {
        Ok(()) => Ok(all),
        Err(_) => Err(DiskFault::OutOfMemory),
    }
}

impl<D: PageDisk> Chosen<D> {
    ghost use Rattle.cs_mount.specs.ChosenDisks.{chosen_below, hidden_of, refused_writes, state_chosen};

    /// This disk, as it is.
    pub fn all(alloc: Global, disk: D) -> Self
        ensures below { chosen_below result ≡ disk }
        ensures hidden { hidden_of result ≡ [] }
        ensures shown { D.honest disk → state_chosen result ≡ D.state disk }
        ensures refused { refused_writes result ≡ 0 }
    {
        Chosen {
            disk,
            hidden: Vec::new(alloc),
            refused: 0,
        }
    }

    /// This disk, of which it shows the store of this identity. Of page 0 and the last page it hides the first that is
    /// whole in format 4 and of another store. If both are, no store of that identity is at the ends of the device:
    /// page 0 is hidden.
    ///
    /// Refused 1 DeviceFault, and 9 OutOfMemory, with the disk.
    pub fn of_store(alloc: Global, disk: D, id: StoreId) -> Result<Self, (DiskFault, D)>
        requires { 0 < D.page_count disk }
        ensures hidden { D.honest disk → IfOk result (λ shows. hidden_of shows ≡ option_to_list (page_to_hide (D.page_count disk) id.0 (seen (D.state disk)))) }
        // It shows what the disk below holds, but for that page.
        ensures shown { D.honest disk → IfOk result (λ shows. state_chosen shows ≡ state_without (option_to_list (page_to_hide (D.page_count disk) id.0 (seen (D.state disk)))) (D.state disk)) }
        ensures one { D.honest disk → IfOk result (λ shows. IsOfOne (D.page_count disk) (seen (state_chosen shows))) }
        // The store that is found is that of the page with this identity.
        ensures first { D.honest disk → identity_said (page (seen (D.state disk)) 0) ≡ Some id.0 → IfOk result (λ shows. dimensions_on (D.page_count disk) (seen (state_chosen shows)) ≡ first_says (D.page_count disk) (page (seen (D.state disk)) 0)) }
        ensures last { D.honest disk → AreOfTwo (D.page_count disk) (seen (D.state disk)) → identity_said (page (seen (D.state disk)) (D.page_count disk - 1)) ≡ Some id.0
            → IfOk result (λ shows. dimensions_on (D.page_count disk) (seen (state_chosen shows)) ≡ first_says (D.page_count disk) (page (seen (D.state disk)) (D.page_count disk - 1))) }
        ensures disk { MatchResult result (λ shows. OnlyReads D.PageDisk disk (chosen_below shows)) (λ refused. OnlyReads D.PageDisk disk refused.1) }
        ensures cause { IfErr result (λ refused. refused.0 ≡ DiskFault.DeviceFault → Rises (D.failure_count disk) (D.failure_count refused.1)) }
        ensures refused { IfOk result (λ shows. refused_writes shows ≡ 0) }
    {
        let mut disk = disk;
        match find_hidden(alloc, &mut disk, id) {
            Ok(hidden) => match joined(alloc, hidden, &[]) {
                Ok(hidden) => Ok(Chosen {
                    disk,
                    hidden,
                    refused: 0,
                }),
                Err(fault) => Err((fault, disk)),
            },
            Err(fault) => Err((fault, disk)),
        }
    }

    /// This disk, of which it hides each page of a pair that the disk refuses to read now. It returns these pages. An
    /// opening over it shows what the other page of the pair holds. If both pages of a further section can't be read,
    /// both are hidden, and the section is damaged. With an identity it shows the store of this identity, as `of_store`
    /// does, by what can be read.
    ///
    /// The store is found by page 0 and the last page, as an opening finds it. If no store of format 4 is found, there
    /// are no pairs, and no page is hidden for a read that fails.
    ///
    /// Refused 1 DeviceFault, with the disk, in two cases:
    /// - neither page 0 nor the last page can be read, or neither page of the root;
    /// - no store of format 4 is found, and page 0 can't be read, or, if an identity is given, the last page.
    ///
    /// So a device that refuses every read is refused 1. Refused 9 OutOfMemory, with the disk.
    pub fn readable(
        alloc: Global,
        disk: D,
        id: Option<StoreId>,
    ) -> Result<(Self, Vec<u64>), (DiskFault, D)>
        requires { 10 ≤ D.page_count disk }
        // It hides the pages that it returns, and the one that isn't of the chosen store.
        ensures hidden { D.honest disk → IfOk result (λ found. hidden_of found.0 ≡ all_hidden (D.page_count disk) (option_map (λ it. it.0) id) found.1.items (seen (D.state disk))) }
        // It shows what the disk below holds, but for these.
        ensures shown { D.honest disk → IfOk result (λ found. state_chosen found.0 ≡ state_without (hidden_of found.0) (D.state disk)) }
        // None is returned, or each is a half of a pair of the store that shows, and section 0 and the root show.
        ensures halves { D.honest disk → IfOk result (λ found. AreOfStore (D.page_count disk) (hidden_of found.0) found.1.items (seen (D.state disk))) }
        ensures inside { IfOk result (λ found. (p : ℕ) → is_among found.1.items p ≡ true → p < D.page_count disk) }
        // Each of them is a read that failed. So none is returned where no read failed.
        ensures counted { IfOk result (λ found. RisesBy (length found.1.items) (D.failure_count disk) (D.failure_count (chosen_below found.0))) }
        // If a store is chosen, one shows at most. It is that of the page with this identity.
        ensures one { D.honest disk → id ≢ None → IfOk result (λ found. IsOfOne (D.page_count disk) (seen (state_chosen found.0))) }
        ensures first { (it : StoreId) → D.honest disk → id ≡ Some it
            → IfOk result (λ found. identity_said (page (without_hidden found.1.items (seen (D.state disk))) 0) ≡ Some it.0 → dimensions_on (D.page_count disk) (seen (state_chosen found.0)) ≡ first_says (D.page_count disk) (page (seen (D.state disk)) 0)) }
        ensures last { (it : StoreId) → D.honest disk → id ≡ Some it
            → IfOk result (λ found. AreOfTwo (D.page_count disk) (without_hidden found.1.items (seen (D.state disk))) → identity_said (page (without_hidden found.1.items (seen (D.state disk))) (D.page_count disk - 1)) ≡ Some it.0
            → dimensions_on (D.page_count disk) (seen (state_chosen found.0)) ≡ first_says (D.page_count disk) (page (seen (D.state disk)) (D.page_count disk - 1))) }
        ensures disk { MatchResult result (λ found. OnlyReads D.PageDisk disk (chosen_below found.0)) (λ refused. OnlyReads D.PageDisk disk refused.1) }
        ensures cause { IfErr result (λ refused. refused.0 ≡ DiskFault.DeviceFault → Rises (D.failure_count disk) (D.failure_count refused.1)) }
        // It is refused 1 only if two reads failed, or one of page 0 or the last page, without which no store is found.
        ensures why { D.honest disk → IfErr result (λ refused. refused.0 ≡ DiskFault.DeviceFault → RisesBy 2 (D.failure_count disk) (D.failure_count refused.1) ⊎ NoneIsFound (D.page_count disk) (option_map (λ it. it.0) id) (seen (D.state disk))) }
        ensures refused { IfOk result (λ found. refused_writes found.0 ≡ 0) }
    {
        let mut disk = disk;
        match find_unreadable(alloc, &mut disk, id) {
            Ok((other, unread)) => match joined(alloc, other, &unread) {
                Ok(hidden) => Ok((
                    Chosen {
                        disk,
                        hidden,
                        refused: 0,
                    },
                    unread,
                )),
                Err(fault) => Err((fault, disk)),
            },
            Err(fault) => Err((fault, disk)),
        }
    }

    /// The disk below.
    pub fn below(&self) -> &D
        ensures { result.now ≡ chosen_below self.now }
    {
        &self.disk
    }

    /// The disk below.
    pub fn into_disk(self) -> D
        ensures { result ≡ chosen_below self }
    {
        let Chosen {
            disk,
            hidden: _,
            refused: _,
        } = self;
        disk
    }
}

impl<D: PageDisk> PageDisk for Chosen<D> {
    ghost use Rattle.std.proofs.Common.{◌∙◌};
    ghost use Rattle.cs_mount.specs.Repaged.{counts_repaged, only_repaged, sized_repaged};

    ghost honest = { λ d. D.honest d.disk };

    ghost state = { λ d. state_without d.hidden.items (D.state d.disk) };

    ghost device = { λ d. D.device d.disk };

    ghost page_count = { λ d. D.page_count d.disk };

    ghost failure_count = { λ d. min (D.failure_count d.disk + d.refused) (2 ^ 64 - 1) };

    ghost refusal_count = { λ d. D.refusal_count d.disk + d.refused };

    ghost sound = { λ d. D.sound d.disk };

    ghost takes = { λ _ _ _. ⊥ };

    ghost moment = { λ d. D.moment d.disk };

    ghost left_since = { λ d. left_repaged (hidden_at d.hidden.items) (D.left_since d.disk) };

    fn pages(&self) -> u64 {
        self.disk.pages()
    }

    fn failures(&self) -> u64 {
        self.disk.failures().saturating_add(self.refused)
    }

    fn read(&mut self, number: u64, buffer: &mut [u8; 4096]) -> Result<(), DiskFault> {
        if self.hidden.contains(&number) {
            *buffer = [0; 4096];
            Ok(())
        } else {
            self.disk.read(number, buffer)
        }
    }

    fn write(&mut self, _number: u64, _bytes: &[u8; 4096]) -> Result<(), DiskFault> {
        self.refused = self.refused.saturating_add(1);
        Err(DiskFault::DeviceFault)
    }

    /// Flushes the disk below, though nothing was written by way of this one.
    fn flush(&mut self) -> Result<(), DiskFault> {
        self.disk.flush()
    }

    ghost sized = { λ d h. sized_repaged (hidden_at d.hidden.items) (D.state d.disk).durable ∙ D.sized d.disk h };

    ghost whole = { λ d h. d.whole h };

    ghost counts_now = { λ d t c h le now. counts_repaged (hidden_at d.hidden.items) (D.state d.disk) d.shows (D.left_since d.disk) t (λ image is. D.counts_now d.disk t image h le is) c now };

    ghost only_now = { λ d c h left. only_repaged (hidden_at d.hidden.items) (D.state d.disk) d.shows (D.left_since d.disk) (D.moment d.disk) (λ image is. D.only_now d.disk image h is) c left };
}

impl<D: PageDisk> CrashDisk for Chosen<D> {
    ghost can_crash = { λ _. ⊥ };

    ghost volatile_count = { λ _. 0 };

    fn crashable(&self) -> bool {
        false
    }

    fn volatile(&self) -> usize {
        0
    }

    fn crash(self, _mask: &[bool]) -> Self {
        self
    }

    ghost counted = { λ d h can. absurd can };
}
