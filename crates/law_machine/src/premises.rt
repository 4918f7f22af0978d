//! The premises of the laws can be met.
ghost use Rattle.law_machine.specs.ApartExample.{example_abandoned, example_apart, example_image, example_retired};
ghost use Rattle.law_machine.specs.Device.{IsShape, IsWeighing, Shape};
ghost use Rattle.law_machine.specs.Example.{example_format, telling_format};
ghost use Rattle.law_machine.specs.Format.{Format};
ghost use Rattle.law_machine.specs.Frames.{IsFormat};
ghost use Rattle.law_machine.specs.Geometry.{HasExtentsApart, IsGeometry, shape_of, weigh_in};
ghost use Rattle.law_machine.specs.Open.{opened_state};
ghost use Rattle.law_machine.specs.Recovery.{IsNew, Recovers};
ghost use Rattle.law_machine.specs.State.{State};
ghost use Rattle.law_machine.specs.Step.{History};
ghost use Rattle.std.specs.Prelude.{◌≡◌, ℕ, None};

/// Pages of the device are apart, for any number of sections, and each format goes by rules that fit one another.
pub fn geometries_are_shapes()
    ensures shapes { (extents pages sections per_section : ℕ) (format : Format) → IsGeometry extents pages sections per_section
        → HasExtentsApart extents format → IsShape (shape_of extents pages sections per_section format) }
    // In each format entries weigh by a rule.
    ensures weights { (format : Format) → IsWeighing (weigh_in format) }
{}

/// The laws that are asked of a format hold together.
pub fn formats_exist()
    ensures { (S : Shape) → IsFormat S (telling_format S) }
{}

/// In a new store in which chunks and runs lie apart a shard is put and staged, and its extent is swept.
pub fn apart_can_happen()
    ensures new { IsShape example_apart × IsNew example_apart example_format example_image }
    // The sweep ends, and the extent is reset.
    ensures retired { (given : Recovers example_apart example_format example_image 0 (λ id. None)) × (t : State)
        × History example_apart example_format
        (opened_state example_apart example_format example_image 0 (λ id. None) given) example_retired t
        × (t.world.extents.generation 0 ≡ 1) }
    // Or it is given up, and the next root resets the extent on which it had written a copy.
    ensures abandoned { (given : Recovers example_apart example_format example_image 0 (λ id. None)) × (t : State)
        × History example_apart example_format
        (opened_state example_apart example_format example_image 0 (λ id. None) given) example_abandoned t
        × (t.world.extents.generation 2 ≡ 1) }
{}
