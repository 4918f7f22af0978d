// What a disk in memory holds.
ghost use Rattle.std.specs.Prelude.{◌≡◌, ◌<◌, length};
ghost use Rattle.cs_disk.specs.Disk.{page, applied, kept};

/// The durable pages, and the page writes since the last flush with their page numbers, the oldest first.
#[derive(Drop)]
pub struct Contents {
    pub durable: Vec<[u8; 4096]>,
    pub volatile: Vec<(u64, [u8; 4096])>,
}

impl Contents {
    ghost use Rattle.cs_disk.specs.Disk.{flushed, crashed};
    ghost use Rattle.cs_disk.specs.Past.{state_of};

    /// Makes all volatile writes durable.
    pub fn make_durable(&mut self)
        ensures state { state_of self.new ≡ flushed (state_of self.old) }
        ensures pages { length self.new.durable.items ≡ length self.old.durable.items }
    {
        apply_all(&mut self.durable, &self.volatile);
        self.volatile.clear();
    }

    /// Makes those volatile writes durable for which the mask says true, and forgets the others.
    pub fn keep(&mut self, mask: &[bool])
        requires { length mask.now ≡ length self.old.volatile.items }
        ensures state { state_of self.new ≡ crashed (state_of self.old) mask.now }
        ensures pages { length self.new.durable.items ≡ length self.old.durable.items }
    {
        apply_kept(&mut self.durable, &self.volatile, mask);
        self.volatile.clear();
    }
}

/// What a page reads as: the last write to it.
pub fn newest<'a>(
    durable: &'a [[u8; 4096]],
    volatile: &'a [(u64, [u8; 4096])],
    number: u64,
) -> &'a [u8; 4096]
    requires { number < length durable.now }
    ensures { result.now ≡ page (applied durable.now volatile.now) number }
{
    let mut newest = &durable[number as usize];
    for write in volatile {
        if write.0 == number {
            newest = &write.1;
        }
    }
    newest
}

/// Applies page writes, in order.
fn apply_all(durable: &mut [[u8; 4096]], volatile: &[(u64, [u8; 4096])])
    ensures { durable.new ≡ applied durable.old volatile.now }
{
    for write in volatile {
        let at = write.0 as usize;
        if at < durable.len() {
            durable[at] = write.1;
        }
    }
}

/// Applies those page writes for which the mask says true, in order.
fn apply_kept(durable: &mut [[u8; 4096]], volatile: &[(u64, [u8; 4096])], mask: &[bool])
    requires { length mask.now ≡ length volatile.now }
    ensures { durable.new ≡ applied durable.old (kept mask.now volatile.now) }
{
    for (i, write) in volatile.iter().enumerate() {
        let at = write.0 as usize;
        if mask[i] && at < durable.len() {
            durable[at] = write.1;
        }
    }
}
