// The kinds that a file can be moved to.
ghost use Rattle.std.specs.Prelude.{◌≡◌};
ghost use Rattle.convert.specs.Target.{kind_of, target_by};

use site::{RecordKind, Rule};

/// The kinds that a file can be moved to, by their outer tags. None has field 11: a record of kind 55 is not converted.
#[derive(Clone, Copy, Debug, PartialEq, Eq)]
pub enum Target {
    Kind52 = 0x52,
    Kind53 = 0x53,
    Kind54 = 0x54,
}

impl Target {
    /// The kind of record that a site has when it is moved.
    pub fn kind(self) -> RecordKind
        ensures { result ≡ kind_of self }
    {
        match self {
            Target::Kind52 => RecordKind::Tag52,
            Target::Kind53 => RecordKind::Tag53,
            Target::Kind54 => RecordKind::Tag54,
        }
    }
}

/// The target with an outer tag, or rule 3.
impl TryFrom<u8> for Target {
    type Error = Rule;

    ghost try_from_gives = { λ tag r. r ≡ target_by tag };

    fn try_from(tag: u8) -> Result<Target, Rule> {
        match tag {
            0x52 => Ok(Target::Kind52),
            0x53 => Ok(Target::Kind53),
            0x54 => Ok(Target::Kind54),
            _ => Err(Rule::OuterTag),
        }
    }
}
