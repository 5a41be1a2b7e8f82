//! Labels.
ghost use Rattle.std.specs.Prelude.{◌≡◌, find};
ghost use Rattle.std.specs.Option.{option_copied};
ghost use Rattle.sheets.specs.Labels.{same_name, lookup};

use statements::Name;

/// A label: its name, and the address that it stands for.
#[derive(Clone, Copy, Debug, PartialEq, Eq)]
pub struct Label {
    pub name: Name,
    pub address: u16,
}

impl Label {
    /// A label of blanks: what a record may hold before a name is taken into it.
    pub const BLANK: Label = Label {
        name: Name {
            first: b' ',
            second: b' ',
            third: b' ',
        },
        address: 0,
    };
}

/// The first label of that name.
fn labelled(labels: &[Label], name: Name) -> Option<&Label>
    ensures { option_copied result ≡ find (λ label. same_name label.name name) labels.now }
{
    labels.iter().find(|label| label.name == name)
}

/// The address of the first label of that name.
pub(crate) fn find(labels: &[Label], name: Name) -> Option<u16>
    ensures { result ≡ lookup labels.now name }
{
    labelled(labels, name).map(|label| label.address)
}
