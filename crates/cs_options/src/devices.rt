//! How a new store lies on a device.
ghost use Rattle.std.specs.Prelude.{◌≡◌, ◌≤◌, ◌↔◌, IfErr, IfOk, IsOk, true};
ghost use Rattle.cs_frame.specs.Geometries.{file_pages};
ghost use Rattle.law_machine.specs.Geometry.{twins_in};
ghost use Rattle.cs_options.specs.Devices.{on_pages};

use cs_frame::{Format, Geometry};
use cs_refusal::Refusal;

/// The same store on a device of so many pages, all of which are the store's: the second copies lie at its end. It is
/// refused 7 BadGeometry alone, if the device has fewer pages than the store needs, or the store is of format 2.
pub fn on_device(geometry: Geometry, pages: u64) -> Result<Geometry, Refusal>
    ensures valid { IsOk result ↔ (twins_in geometry.format ≡ true) × (file_pages geometry.extents geometry.pages geometry.sections ≤ pages) }
    ensures format { IfOk result (λ it. it.format ≡ on_pages geometry.format pages) }
    ensures extents { IfOk result (λ it. it.extents ≡ geometry.extents) }
    ensures pages { IfOk result (λ it. it.pages ≡ geometry.pages) }
    ensures sections { IfOk result (λ it. it.sections ≡ geometry.sections) }
    ensures refusal { IfErr result (λ refusal. refusal ≡ Refusal.BadGeometry) }
{
    let Some(store) = geometry.format().store() else {
        return Err(Refusal::BadGeometry);
    };
    let extents = u64::from(geometry.extents());
    let each = u64::from(geometry.pages());
    let sections = u64::from(geometry.sections());
    match Geometry::of_format(Format::four(store, pages), extents, each, Some(sections)) {
        Ok(geometry) => Ok(geometry),
        Err(_) => Err(Refusal::BadGeometry),
    }
}
