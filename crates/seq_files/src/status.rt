ghost use Rattle.std.specs.Prelude.{◌≡◌};
ghost use Rattle.seq_files.specs.Codes.{code};

/// How a call on a file ended: 00 success; 10 a READ at the end; 35 OPEN INPUT or EXTEND of a missing file; 41 OPEN
/// of an open file; 42 CLOSE of one that isn't open; 46 READ after a READ that met the end; 47 READ of a file that
/// isn't open for input; 48 WRITE to one that isn't open for output or extension.
#[derive(Clone, Copy, Debug, PartialEq, Eq)]
pub enum Status {
    S00,
    S10,
    S35,
    S41,
    S42,
    S46,
    S47,
    S48,
}

impl Status {
    /// The two digits that a status item receives, as a number.
    pub fn code(self) -> u8
        ensures { result ≡ code self }
    {
        match self {
            Status::S00 => 0,
            Status::S10 => 10,
            Status::S35 => 35,
            Status::S41 => 41,
            Status::S42 => 42,
            Status::S46 => 46,
            Status::S47 => 47,
            Status::S48 => 48,
        }
    }
}
