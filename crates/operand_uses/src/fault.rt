ghost use Rattle.std.specs.Prelude.{◌≡◌};
ghost use Rattle.operand_uses.specs.Order as spec;

/// What is wrong with a name: it means nothing that may stand there, or more than one thing.
#[derive(Clone, Copy, Debug, PartialEq, Eq)]
pub enum NameKind {
    Unknown,
    Twice,
}

/// What is wrong at a statement, an entry or a SELECT.
#[derive(Clone, Copy, Debug, PartialEq, Eq)]
pub enum Trouble {
    /// An identifier whose first word stands there.
    Place { at: u32, kind: NameKind },
    /// The name of a file, a record or a paragraph.
    Name(NameKind),
    /// A use that has no meaning.
    Shape,
    /// A file that a SELECT has and no FD, or the other way round. Its name is the word after the first.
    File,
}

/// A fault of use. `owner` is the position of the first word of what it is found at: the statement, the entry or the
/// SELECT.
#[derive(Clone, Copy, Debug, PartialEq, Eq)]
pub struct UseFault {
    pub owner: u32,
    pub trouble: Trouble,
}

impl Trouble {
    /// The place in the order of the faults of one owner.
    fn turn(self) -> u128
        ensures { result ≡ spec.turn_within self }
    {
        match self {
            Trouble::Place { at, kind: _ } => u128::from(at),
            Trouble::Name(_) => 0x1_0000_0000,
            Trouble::Shape => 0x1_0000_0001,
            Trouble::File => 0x1_0000_0002,
        }
    }
}

impl UseFault {
    /// The place in the order of the faults of a program.
    fn turn(self) -> u128
        ensures { result ≡ spec.turn self }
    {
        u128::from(self.owner) * 0x2_0000_0000 + self.trouble.turn()
    }
}

fn sooner_of(first: UseFault, second: UseFault) -> UseFault
    ensures { result ≡ spec.sooner_of first second }
{
    if first.turn() <= second.turn() {
        first
    } else {
        second
    }
}

/// The one of two faults that comes first.
pub fn sooner(first: Option<UseFault>, second: Option<UseFault>) -> Option<UseFault>
    ensures { result ≡ spec.sooner first second }
{
    match first {
        None => second,
        Some(one) => match second {
            None => first,
            Some(other) => Some(sooner_of(one, other)),
        },
    }
}

/// The fault of a use that has no meaning, unless it is right.
pub fn shape_fault(owner: u32, right: bool) -> Option<UseFault>
    ensures { result ≡ spec.shape_fault owner right }
{
    if right {
        None
    } else {
        Some(UseFault {
            owner,
            trouble: Trouble::Shape,
        })
    }
}
