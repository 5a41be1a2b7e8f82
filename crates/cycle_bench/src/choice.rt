//! One of two values.
ghost use Rattle.std.specs.Prelude.{◌≡◌, if◌then◌else◌};

/// The value where it is selected, else the other.
pub(crate) fn choose<T: Copy>(selected: bool, value: T, other: T) -> T
    ensures { result ≡ (if selected then value else other) }
{
    if selected { value } else { other }
}
