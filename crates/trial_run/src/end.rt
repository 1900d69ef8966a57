use cobol_syntax::StatementId;

/// The faults of a run: bytes that hold no number are used as one; a subscript or a reference leaves its item; a divisor
/// is 0 and there is no size phrase; a number leaves 128 bits or a scale passes 38; or a file call failed and the file
/// has no status item.
#[derive(Clone, Copy, Debug, PartialEq, Eq)]
pub enum FaultKind {
    Data,
    Range,
    Zero,
    Wide,
    File,
}

/// How a program of a job ended: by STOP RUN or at the end of its text, or at a statement by a fault; or it is still
/// running.
#[derive(Clone, Copy, Debug, PartialEq, Eq)]
pub enum End {
    Stopped,
    Fault { kind: FaultKind, at: StatementId },
    Running,
}
