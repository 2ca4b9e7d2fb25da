//! Numbers and texts of the known names.
ghost use Rattle.std.specs.Prelude.{◌≡◌, Some, slice_get, codes};
ghost use Rattle.jn_known.specs.Known.{known_names, string_name, system_name, out_name, println_name, length_name, main_name, object_name, equals_name, is_empty_name, non_null_name, nullable_name, initialized_name, under_name, unknown_name, override_name, org_name, checkerframework_name, monotonic_name, checker_name, nullness_name, qual_name, initialization_name};

/// Each number is that of its text.
pub fn numbers_tell_names()
    ensures words { (slice_get known_names string_name ≡ Some (codes "String"))
        × (slice_get known_names system_name ≡ Some (codes "System"))
        × (slice_get known_names out_name ≡ Some (codes "out"))
        × (slice_get known_names println_name ≡ Some (codes "println"))
        × (slice_get known_names length_name ≡ Some (codes "length"))
        × (slice_get known_names main_name ≡ Some (codes "main"))
        × (slice_get known_names object_name ≡ Some (codes "Object"))
        × (slice_get known_names equals_name ≡ Some (codes "equals"))
        × (slice_get known_names is_empty_name ≡ Some (codes "isEmpty")) }
    ensures annotations { (slice_get known_names non_null_name ≡ Some (codes "NonNull"))
        × (slice_get known_names nullable_name ≡ Some (codes "Nullable"))
        × (slice_get known_names initialized_name ≡ Some (codes "Initialized"))
        × (slice_get known_names under_name ≡ Some (codes "UnderInitialization"))
        × (slice_get known_names unknown_name ≡ Some (codes "UnknownInitialization"))
        × (slice_get known_names override_name ≡ Some (codes "Override"))
        × (slice_get known_names monotonic_name ≡ Some (codes "MonotonicNonNull")) }
    ensures packages { (slice_get known_names org_name ≡ Some (codes "org"))
        × (slice_get known_names checkerframework_name ≡ Some (codes "checkerframework"))
        × (slice_get known_names checker_name ≡ Some (codes "checker"))
        × (slice_get known_names nullness_name ≡ Some (codes "nullness"))
        × (slice_get known_names qual_name ≡ Some (codes "qual"))
        × (slice_get known_names initialization_name ≡ Some (codes "initialization")) }
{}
