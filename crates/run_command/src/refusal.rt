use gathered::GatherFault;
use job_files::DataRefusal;
use y2k_base::Bytes;

/// Why a run of a job doesn't begin.
pub(crate) enum RunRefusal {
    /// A name that the run may write is that of a file that is read, or stands twice.
    Clash(Bytes),
    /// An earlier run has ended in that folder.
    Taken,
    /// The texts of the manifest are no portfolio.
    Portfolio(GatherFault),
    /// There is no such job, or a program of it isn't there.
    Job,
    /// A data file is refused.
    Data(DataRefusal),
    /// The shelf failed where the mark of an earlier run was looked for.
    Shelf,
    /// There was no memory left.
    Memory,
}

impl Drop for RunRefusal {
    fn drop(self) {
        match self {
            RunRefusal::Clash(_name) => {}
            RunRefusal::Taken => {}
            RunRefusal::Portfolio(_fault) => {}
            RunRefusal::Job => {}
            RunRefusal::Data(_fault) => {}
            RunRefusal::Shelf => {}
            RunRefusal::Memory => {}
        }
    }
}
