ghost use Rattle.std.specs.Prelude.{◌≡◌};

use gathered::Gathered;
use seq_files::Store;
use trial_run::Job;

/// What a run begins with: the portfolio with its texts, the job and the data files.
pub(crate) struct Prepared {
    pub(crate) gathered: Gathered,
    pub(crate) job: Job,
    pub(crate) store: Store,
}

impl Drop for Prepared {
    fn drop(self) {
        let Prepared {
            gathered: _gathered,
            job: _job,
            store: _store,
        } = self;
    }
}

impl Prepared {
    /// The parts, each on its own.
    pub(crate) fn into_parts(self) -> (Gathered, Job, Store)
        ensures gathered { result.0 ≡ self.gathered }
        ensures job { result.1 ≡ self.job }
        ensures store { result.2 ≡ self.store }
    {
        let Prepared {
            gathered,
            job,
            store,
        } = self;
        (gathered, job, store)
    }
}
