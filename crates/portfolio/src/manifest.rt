use y2k_base::{Bytes, List};

/// What a manifest says. Names of files are relative to the manifest's folder, and stand as they were
/// written, as keys and the names of programs and items do.
pub struct Manifest {
    /// 1 or 2. It decides how `window` is written.
    pub version: u8,
    /// The least year of the twentieth century that two digits stand for, from 1 to 99.
    pub pivot: u8,
    /// The files of the programs, 1 to 200 of them.
    pub programs: List<Bytes>,
    /// The files of the copybooks in byte order of their keys. A key is what COPY names: a text's name, or
    /// a library's, a `/` and a text's.
    pub copybooks: List<Named>,
    /// The file of the seeds.
    pub seeds: Option<Bytes>,
    /// The groups of items that stay in two digits, in their order.
    pub window: List<WindowGroup>,
    /// The data files in byte order of their external names, which are the keys.
    pub files: List<Named>,
    /// The jobs in byte order of their names.
    pub jobs: List<NamedJob>,
}

/// Items that stay in two digits, with the pivot of their years. An item is written as the name of its
/// program, a point, and its own name with the groups that qualify it.
pub struct WindowGroup {
    pub pivot: u8,
    pub items: List<Bytes>,
}

/// A file name with its key.
pub struct Named {
    pub key: Bytes,
    pub name: Bytes,
}

/// A job: its name, and the names of the programs that it runs, in order.
pub struct NamedJob {
    pub key: Bytes,
    pub programs: List<Bytes>,
}

impl Drop for WindowGroup {
    fn drop(self) {
        let WindowGroup {
            pivot: _,
            items: _items,
        } = self;
    }
}

impl Drop for Named {
    fn drop(self) {
        let Named {
            key: _key,
            name: _name,
        } = self;
    }
}

impl Drop for NamedJob {
    fn drop(self) {
        let NamedJob {
            key: _key,
            programs: _programs,
        } = self;
    }
}

impl Drop for Manifest {
    fn drop(self) {
        let Manifest {
            version: _,
            pivot: _,
            programs: _programs,
            copybooks: _copybooks,
            seeds: _seeds,
            window: _window,
            files: _files,
            jobs: _jobs,
        } = self;
    }
}
