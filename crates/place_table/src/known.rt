use cobol_syntax::Place;
use decimal_bytes::NumForm;
use storage_places::Access;

/// What the names of a place mean.
#[derive(Clone, Copy)]
pub(crate) enum Meaning {
    /// An item of this form.
    Item { form: NumForm },
    /// The condition-name with this number in the layout.
    Name { number: u32 },
}

/// A place with its names resolved.
pub(crate) struct Known {
    pub(crate) place: Place,
    pub(crate) meaning: Meaning,
    pub(crate) access: Access,
}

impl Drop for Known {
    fn drop(self) {
        let Known {
            place: _place,
            meaning: _,
            access: _access,
        } = self;
    }
}
