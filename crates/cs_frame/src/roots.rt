//! The root: the runs of the index, and how many commands they include.

ghost use Rattle.std.specs.Prelude.{◌≡◌, ℕ, List, None, Ok, Option, Err, IfOk, ◌+◌, ◌*◌, ◌≤◌, ◌++◌, length, option_map, slice_index};
ghost use Rattle.cs_frame.specs.Buffers.{text_of};
ghost use Rattle.cs_frame.specs.FormatNumbers.{greatest_runs, is_marked};
ghost use Rattle.cs_frame.specs.Locators.{locator_size};
ghost use Rattle.cs_frame.specs.declared.locators.Locator.{Locator as Place};
ghost use Rattle.cs_frame.specs.Faults.{HasFault, OkUnlessMemory, fault_in};
ghost use Rattle.cs_frame.specs.Roots.{FitsIdentity, IsRoot, SpellsRoot, commands_said, count_at, identity_of, root_count, root_fault, root_identity, root_number, root_range_test, runs_in, spelled_identity, version_said};
ghost use Rattle.cs_frame.specs.Bytes.{IsPage};

use crate::faults::FormatFault;
use crate::formats::FormatNumber;
use crate::identities::StoreId;
use crate::locators::{Locator, append_locators, locators_from};
use crate::pages::{PageBuffer, check_digest, check_digit, check_magic, check_padding};
use byteorder::{BigEndian, ByteOrder};
use std::alloc::{AllocError, Global};

/// What page 1 spells: the index as of one version.
#[derive(Debug, Drop)]
pub struct Root {
    /// The identity of the store, which its root has in format 4. In format 2 there is none.
    pub store: Option<StoreId>,
    /// From 1 to 2^63 - 1.
    pub version: u64,
    /// How many puts and deletes are included, up to 2^63 - 1.
    pub commands: u64,
    /// The frames of the runs, oldest first, at most 24, and 4 in format 2.
    pub runs: Vec<Locator>,
}

impl Root {
    ghost use Rattle.cs_frame.specs.Roots.{identity_of, root_number};

    /// The number of the format of the store.
    pub fn number(&self) -> FormatNumber
        ensures { result ≡ root_number (identity_of self.now) }
    {
        match self.store {
            None => FormatNumber::Two,
            Some(_) => FormatNumber::Four,
        }
    }
}

/// Writes the identity, if there is one.
fn append_identity(page: &mut PageBuffer, store: Option<StoreId>)
    requires { length (text_of page.old) + 16 ≤ 4096 }
    ensures text { text_of page.new ≡ text_of page.old ++ spelled_identity (option_map (λ id. id.0) store) }
    ensures fits { FitsIdentity (option_map (λ id. id.0) store) }
{
    match store {
        None => {}
        Some(id) => page.append(&id.bytes()),
    }
}

/// The page that spells a root.
pub fn encode_root(root: &Root) -> [u8; 4096]
    requires { IsRoot root.now }
    ensures { SpellsRoot result (identity_of root.now) root.now.version root.now.commands root.now.runs.items }
{
    let number = root.number();
    let mut page = PageBuffer::new();
    page.append(b"CSR");
    page.append(&[number.page_digit()]);
    page.append(&root.version.to_be_bytes());
    page.append(&root.commands.to_be_bytes());
    append_identity(&mut page, root.store);
    page.append(&[root.runs.len() as u8]);
    append_locators(&mut page, number, &root.runs);
    page.seal();
    page.finish()
}

/// Where the number of runs stands.
fn count_at(number: FormatNumber) -> usize
    ensures value { result ≡ count_at number }
    ensures small { result ≤ 36 }
{
    match number {
        FormatNumber::Two => 20,
        FormatNumber::Four => 36,
    }
}

/// The identity in a root of this format.
fn identity_from(page: &[u8; 4096], number: FormatNumber) -> Option<StoreId>
    ensures { option_map (λ id. id.0) result ≡ root_identity number page.now }
{
    match number {
        FormatNumber::Two => None,
        FormatNumber::Four => {
            let mut id = [0; 16];
            id.copy_from_slice(&page[20..36]);
            Some(StoreId(id))
        }
    }
}

/// Where the runs of a root end, if there are so many.
fn runs_end(number: FormatNumber, count: usize) -> usize
    requires { count ≤ greatest_runs number }
    ensures value { result ≡ 1 + count_at number + locator_size (is_marked number) * count }
    ensures inside { result + 32 ≤ 4096 }
    ensures behind { 1 + count_at number ≤ result }
{
    match number {
        FormatNumber::Two => 21 + 8 * count,
        FormatNumber::Four => 37 + 16 * count,
    }
}

/// Version and number of commands are in range.
fn check_range(page: &[u8; 4096]) -> Result<(), FormatFault>
    ensures { fault_in result ≡ root_range_test page.now }
{
    let version = BigEndian::read_u64(&page[4..12]);
    let commands = BigEndian::read_u64(&page[12..20]);
    if 1 <= version && version < 1 << 63 && commands < 1 << 63 {
        Ok(())
    } else {
        Err(FormatFault::BadVersion)
    }
}

/// Makes the tests of a root in order.
fn check_root(page: &[u8; 4096], number: FormatNumber) -> Result<(), FormatFault>
    ensures fault { fault_in result ≡ root_fault number page.now }
    ensures page { IsPage page.now }
{
    check_magic(page, b"CSR")?;
    check_digit(page, number.page_digit())?;
    let count = usize::from(page[count_at(number)]);
    if count > number.greatest_runs() {
        return Err(FormatFault::BadLength);
    }
    let end = runs_end(number, count);
    check_digest(page, end)?;
    check_range(page)?;
    check_padding(page, end + 32)
}

/// The root that a page without a fault spells.
fn root_from(alloc: Global, page: &[u8; 4096], number: FormatNumber) -> Result<Root, AllocError>
    requires { root_count number page.now ≤ greatest_runs number }
    ensures store { IfOk result (λ root. identity_of root ≡ root_identity number page.now) }
    ensures version { IfOk result (λ root. root.version ≡ version_said page.now) }
    ensures commands { IfOk result (λ root. root.commands ≡ commands_said page.now) }
    ensures runs { IfOk result (λ root. root.runs.items ≡ runs_in number page.now) }
{
    let start = 1 + count_at(number);
    let end = runs_end(number, usize::from(page[start - 1]));
    let runs = locators_from(alloc, number, &page[start..end])?;
    Ok(Root {
        store: identity_from(page, number),
        version: BigEndian::read_u64(&page[4..12]),
        commands: BigEndian::read_u64(&page[12..20]),
        runs,
    })
}

/// The root that a page spells in the format of this number, which is the store's. The first test that fails gives the
/// fault. The tests in order:
///
/// - 20 BadMagic: the first three bytes
/// - 24 BadVersion: the fourth byte, which is the format's digit
/// - 22 BadLength: the number of runs
/// - 21 BadDigest
/// - 24 BadVersion: the ranges of the version and of the number of commands
/// - 23 BadPadding: the zeros at the end
///
/// 9 OutOfMemory comes only for a page that spells a root.
pub fn decode_root(
    alloc: Global,
    page: &[u8; 4096],
    number: FormatNumber,
) -> Result<Root, FormatFault>
    // What is read has this format, and is spelled by the page.
    ensures number { IfOk result (λ root. root_number (identity_of root) ≡ number) }
    ensures spelled { IfOk result (λ root. SpellsRoot page.now (identity_of root) root.version root.commands root.runs.items) }
    // What the page spells is read, unless memory runs out.
    ensures read { (store : Option (List ℕ)) (version commands : ℕ) (runs : List Place) → root_number store ≡ number
        → SpellsRoot page.now store version commands runs
        → OkUnlessMemory result (λ root.
        (identity_of root ≡ store) × (root.version ≡ version) × (root.commands ≡ commands) × (root.runs.items ≡ runs)) }
    // Each other fault is that of the first test that fails.
    ensures fault { HasFault result (root_fault number page.now) }
    ensures memory { result ≡ Err FormatFault.OutOfMemory → root_fault number page.now ≡ None }
{
    check_root(page, number)?;
    Ok(root_from(alloc, page, number)?)
}
