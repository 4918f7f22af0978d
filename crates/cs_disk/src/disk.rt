// A disk of pages, as the layers above see it.
ghost use Rattle.std.specs.Prelude.{◌≡◌, ◌≢◌, ◌⊎◌, ◌<◌, ◌≤◌, ◌↔◌, ℕ, List, length, OnOk, OnErr, IsErrOf, IsTrue};
ghost use Rattle.cs_disk.specs.Disk.{Image, State, page, seen, written, flushed, crashed, IsWhole, MayLeave, Counts, GoesOn, HasCause, StaysSound};
ghost use Rattle.cs_disk.specs.declared.fault.DiskFault.TheVariants.{OutOfMemory};

use crate::DiskFault;

/// A disk of pages of 4,096 bytes, numbered from 0. A page write is whole or absent. It is volatile until a flush
/// succeeds: a crash leaves any of the volatile writes, in order, on top of the durable image. What is read is the
/// newest write.
///
/// Where `honest` holds of a disk, the clauses that name it hold of each of its calls; the others hold of every disk.
/// A call answers 1 DeviceFault only where it raised `failures`, or found that count at its end, 2^64 - 1. It is
/// refused 9 OutOfMemory where memory was asked for and refused, and the disk is then as it was.
pub trait PageDisk {
    /// That the disk keeps to the model. No call gains or loses it.
    ghost honest: { Self → Type 0 };

    /// The durable image and the volatile writes.
    ghost state: { Self → State };

    /// What lies on the device, page by page: the disk's state, or, where it shows pages otherwise than they lie there, what the disk below it holds.
    ghost device: { Self → State };

    /// How many pages it has.
    ghost page_count: { Self → ℕ };

    /// How many of its calls failed, up to 2^64 - 1.
    ghost failure_count: { Self → ℕ };

    /// How many of these calls it refused itself, without the device, up to 2^64 - 1.
    ghost refusal_count: { Self → ℕ };

    /// That it refuses no read and no flush itself: these fail only where the device does. No read and no flush loses it.
    ghost sound: { Self → Type 0 };

    /// That it doesn't refuse itself to write these bytes to this page.
    ghost takes: { Self → (number : ℕ) → (bytes : List ℕ) → Type 0 };

    /// The moment, as a number that each write and each flush that succeeds raises by one, one that fails by one at most, and nothing else.
    ghost moment: { Self → ℕ };

    /// The images that a crash at some moment from that one on might have left, during a call or between two.
    ghost left_since: { Self → ℕ → Image → Type 0 };

    /// How many pages of 4,096 bytes it has. No call changes it.
    fn pages(&self) -> u64
        ensures { result ≡ page_count self.now };

    /// How many calls failed. At `u64::MAX` it stays.
    fn failures(&self) -> u64
        ensures { result ≡ failure_count self.now };

    /// Reads a page, with the last write to it. After a refusal, 1 DeviceFault or 9 OutOfMemory, the buffer holds any
    /// bytes, and the disk is as it was.
    fn read(&mut self, number: u64, buffer: &mut [u8; 4096]) -> Result<(), DiskFault>
        requires { number < page_count self.old }
        ensures bytes { honest self.old → OnOk result (buffer.new ≡ page (seen (state self.old)) number) }
        ensures state { honest self.old → state self.new ≡ state self.old }
        ensures device { honest self.old → device self.new ≡ device self.old }
        ensures still { honest self.old → moment self.new ≡ moment self.old }
        ensures time { GoesOn honest state moment left_since self.old self.new }
        ensures honest { honest self.old ↔ honest self.new }
        ensures pages { page_count self.new ≡ page_count self.old }
        ensures cause { HasCause (failure_count self.old) (failure_count self.new) result }
        ensures sound { StaysSound sound refusal_count self.old self.new };

    /// Writes a page; the write is volatile. After 1 DeviceFault the write may be among the volatile ones or not, after
    /// 9 OutOfMemory it isn't.
    fn write(&mut self, number: u64, bytes: &[u8; 4096]) -> Result<(), DiskFault>
        requires { number < page_count self.old }
        ensures ok { honest self.old → OnOk result (state self.new ≡ written (state self.old) number bytes.now) }
        ensures fault { honest self.old → (state self.new ≡ state self.old) ⊎ (state self.new ≡ written (state self.old) number bytes.now) }
        ensures memory { honest self.old → IsErrOf result OutOfMemory → state self.new ≡ state self.old }
        // On the device these bytes go to one page.
        ensures device_ok { honest self.old → OnOk result ((place : ℕ) × (device self.new ≡ written (device self.old) place bytes.now)) }
        ensures device_fault { honest self.old → (device self.new ≡ device self.old) ⊎ ((place : ℕ) × (device self.new ≡ written (device self.old) place bytes.now)) }
        ensures count { honest self.old → Counts result (moment self.old) (moment self.new) }
        ensures time { GoesOn honest state moment left_since self.old self.new }
        ensures honest { honest self.old ↔ honest self.new }
        ensures pages { page_count self.new ≡ page_count self.old }
        ensures cause { HasCause (failure_count self.old) (failure_count self.new) result }
        // A sound disk refuses nothing itself that it takes, and then takes what it took for the other pages.
        ensures taken { honest self.old → sound self.old → takes self.old number bytes.now → refusal_count self.new ≡ refusal_count self.old }
        ensures sound { sound self.old → OnOk result (sound self.new) }
        ensures others { honest self.old → OnOk result ((other : ℕ) (later : List ℕ) → other ≢ number → takes self.old other later → takes self.new other later) };

    /// Makes all volatile writes durable. After a refusal, 1 DeviceFault or 9 OutOfMemory, they are volatile still.
    fn flush(&mut self) -> Result<(), DiskFault>
        ensures ok { honest self.old → OnOk result (state self.new ≡ flushed (state self.old)) }
        ensures err { honest self.old → OnErr result (state self.new ≡ state self.old) }
        ensures device_ok { honest self.old → OnOk result (device self.new ≡ flushed (device self.old)) }
        ensures device_err { honest self.old → OnErr result (device self.new ≡ device self.old) }
        ensures count { honest self.old → Counts result (moment self.old) (moment self.new) }
        ensures time { GoesOn honest state moment left_since self.old self.new }
        ensures honest { honest self.old ↔ honest self.new }
        ensures pages { page_count self.new ≡ page_count self.old }
        ensures cause { HasCause (failure_count self.old) (failure_count self.new) result }
        ensures sound { StaysSound sound refusal_count self.old self.new };

    /// The image has as many pages as the disk.
    ghost sized: { (d : Self) → honest d → length (state d).durable ≡ page_count d };

    /// Its pages have 4,096 bytes each, and its volatile writes too.
    ghost whole: { (d : Self) → honest d → IsWhole (state d) };

    /// This moment is one of those since an earlier one.
    ghost counts_now: { (d : Self) (t : ℕ) (c : Image) → honest d → t ≤ moment d → MayLeave (state d) c → left_since d t c };

    /// Since this moment there is no other.
    ghost only_now: { (d : Self) (c : Image) → honest d → left_since d (moment d) c → MayLeave (state d) c };
}

/// A disk whose crash can be tried out, where `crashable` answers so.
pub trait CrashDisk: PageDisk {
    ghost can_crash: { Self → Type 0 };

    ghost volatile_count: { Self → ℕ };

    /// Whether `crash` does anything.
    fn crashable(&self) -> bool
        ensures { IsTrue result ↔ can_crash self.now };

    /// How many writes are volatile, which is how long the mask of `crash` is.
    fn volatile(&self) -> usize
        ensures { result ≡ volatile_count self.now };

    /// Crashes: of the volatile writes, oldest first, those are kept and made durable for which the mask says true. A
    /// disk that isn't crashable is as it was. It asks for no memory.
    fn crash(self, mask: &[bool]) -> Self
        requires { length mask.now ≡ volatile_count self }
        ensures state { Self.honest self → can_crash self → Self.state result ≡ crashed (Self.state self) mask.now }
        ensures device { Self.honest self → can_crash self → Self.device result ≡ crashed (Self.device self) mask.now }
        ensures unchanged { ¬ can_crash self → result ≡ self }
        ensures honest { Self.honest self ↔ Self.honest result }
        ensures pages { Self.page_count result ≡ Self.page_count self }
        ensures failures { Self.failure_count result ≡ Self.failure_count self };

    /// The mask has a truth value for each volatile write.
    ghost counted: { (d : Self) → Self.honest d → can_crash d → volatile_count d ≡ length (Self.state d).volatile };
}
