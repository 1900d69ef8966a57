use crate::end::End;
use cobol_syntax::StatementId;
use seq_files::Store;
use y2k_base::{Bytes, List};

/// A job: its programs in their order, by their numbers in the portfolio.
pub struct Job {
    pub programs: List<u32>,
}

impl Drop for Job {
    fn drop(self) {
        let Job {
            programs: _programs,
        } = self;
    }
}

/// What a DISPLAY showed: a part for each operand.
pub struct Shown {
    pub at: StatementId,
    pub parts: List<Bytes>,
}

impl Drop for Shown {
    fn drop(self) {
        let Shown {
            at: _,
            parts: _parts,
        } = self;
    }
}

/// What stands after a job: an end for each program that was begun, the files, and what was shown.
pub struct JobEnd {
    pub ends: List<End>,
    pub store: Store,
    pub shown: List<Shown>,
}

impl Drop for JobEnd {
    fn drop(self) {
        let JobEnd {
            ends: _ends,
            store: _store,
            shown: _shown,
        } = self;
    }
}
