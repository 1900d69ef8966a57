use data_layout::ItemRef;
use y2k_base::List;

/// A group of items whose years stay in two digits. A year of two digits from `pivot` on is one of the 1900s, and
/// below it one of the 2000s. `pivot` is from 1 to 99.
pub struct Window {
    pub pivot: u8,
    pub items: List<ItemRef>,
}

/// The groups in the manifest's order, and the manifest's own pivot, below which no run's day may have its year.
pub struct Windows {
    pub day: u8,
    pub groups: List<Window>,
}

impl Drop for Window {
    fn drop(self) {
        let Window {
            pivot: _,
            items: _items,
        } = self;
    }
}

impl Drop for Windows {
    fn drop(self) {
        let Windows {
            day: _,
            groups: _groups,
        } = self;
    }
}
