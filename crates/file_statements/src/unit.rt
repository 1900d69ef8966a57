use place_table::Places;
use seq_files::Store;
use storage_places::Storage;

/// What the statements of a running program work on: its places, its storage, and the files of its job.
pub struct RunUnit<'a> {
    pub places: Places<'a>,
    pub storage: Storage,
    pub store: Store,
}

impl Drop for RunUnit<'_> {
    fn drop(self) {
        let RunUnit {
            places: _places,
            storage: _storage,
            store: _store,
        } = self;
    }
}
