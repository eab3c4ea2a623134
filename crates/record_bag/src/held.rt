// What is held under a name.
ghost use Rattle.std.specs.Prelude.{◌≡◌};
ghost use Rattle.record_bag.specs.Kinds.{vproc_of, group_of, absent};

use group_record::Group;
use unix_names::Name;
use vproc_record::Vproc;

/// What is held under a name: the record of a process or of a group, or that there is none.
#[derive(Debug, Drop)]
pub enum Held {
    V(Option<Vproc>),
    G(Option<Group>),
}

impl Held {
    /// That there is no record of that name.
    pub fn absent(name: Name) -> Held
        ensures { result ≡ absent name }
    {
        match name {
            Name::V(_) => Held::V(None),
            Name::G(_) => Held::G(None),
        }
    }

    /// The record of a process, if it is one.
    pub fn into_vproc(self) -> Option<Vproc>
        ensures { result ≡ vproc_of self }
    {
        match self {
            Held::V(vproc) => vproc,
            Held::G(_) => None,
        }
    }

    /// The record of a group, if it is one.
    pub fn into_group(self) -> Option<Group>
        ensures { result ≡ group_of self }
    {
        match self {
            Held::V(_) => None,
            Held::G(group) => group,
        }
    }
}
