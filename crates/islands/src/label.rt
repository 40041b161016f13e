//! The label of an island.

ghost use Rattle.std.specs.Prelude.{◌≡◌};
ghost use Rattle.islands.specs.Labels.{is_loose, is_asleep, sleeping_name, union_label};

/// What is known of an island.
#[derive(Clone, Copy, Debug, PartialEq, Eq)]
pub enum IslandState {
    /// It is awake and one component.
    Whole,
    /// It is awake, and may have come apart: it has lost a link or a mover since it was whole.
    Loose,
    /// It sleeps, and is one component.
    Asleep,
}

impl IslandState {
    pub fn is_loose(self) -> bool
        ensures { result ≡ is_loose self }
    {
        match self {
            IslandState::Whole => false,
            IslandState::Loose => true,
            IslandState::Asleep => false,
        }
    }

    pub fn is_asleep(self) -> bool
        ensures { result ≡ is_asleep self }
    {
        match self {
            IslandState::Whole => false,
            IslandState::Loose => false,
            IslandState::Asleep => true,
        }
    }
}

/// The island of a mover: its name, which is its lowest slot, and what is known of it.
#[derive(Clone, Copy, Debug, PartialEq, Eq)]
pub struct Label {
    pub name: u32,
    pub state: IslandState,
}

/// The name of the island with this label, if there is one and it sleeps.
pub fn sleeping_name(label: Option<Label>) -> Option<u32>
    ensures { result ≡ sleeping_name label }
{
    match label {
        None => None,
        Some(label) => {
            if label.state.is_asleep() {
                Some(label.name)
            } else {
                None
            }
        }
    }
}

/// The label of the union of two islands.
pub(crate) fn union(x: Label, y: Label) -> Label
    ensures { result ≡ union_label x y }
{
    let loose = x.state.is_loose() || y.state.is_loose();
    Label {
        name: x.name.min(y.name),
        state: if loose {
            IslandState::Loose
        } else {
            IslandState::Whole
        },
    }
}
