// How a change of a table's rows is followed by its children.
ghost use Rattle.std.specs.Prelude.{◌≡◌};
ghost use Rattle.hs_closure.specs.Changing as spec;

use hs_plan::ReferentialAction;
use hs_schema::Child;

/// How rows of a table are changed.
#[derive(Clone, Copy, Debug, PartialEq, Eq)]
pub enum Way {
    /// They get new values.
    Update,
    /// They go.
    Deletion,
}

fn is_cascade(action: ReferentialAction) -> bool
    ensures { result ≡ spec.is_cascade action }
{
    match action {
        ReferentialAction::Cascade => true,
        ReferentialAction::SetNull
        | ReferentialAction::SetDefault
        | ReferentialAction::Restrict
        | ReferentialAction::NoAction => false,
    }
}

// Whether it gives the columns of a foreign key NULL or their defaults.
fn is_clearing(action: ReferentialAction) -> bool
    ensures { result ≡ spec.is_clearing action }
{
    match action {
        ReferentialAction::SetNull | ReferentialAction::SetDefault => true,
        ReferentialAction::Cascade | ReferentialAction::Restrict | ReferentialAction::NoAction => {
            false
        }
    }
}

/// Whether rows of a child are changed in the way `to` where rows of the table that its foreign key references are
/// changed in the way `from`.
pub(crate) fn follows(from: Way, to: Way, link: &Child) -> bool
    ensures { result ≡ spec.follows from to link.now }
{
    match (from, to) {
        (Way::Deletion, Way::Deletion) => is_cascade(link.on_delete),
        (Way::Deletion, Way::Update) => is_clearing(link.on_delete),
        (Way::Update, Way::Update) => is_cascade(link.on_update) || is_clearing(link.on_update),
        (Way::Update, Way::Deletion) => false,
    }
}
