use gathered::GatherFault;
use seed_load::SeedRefusal;
use window_items::WindowFault;

/// Why the portfolio of a manifest is not labelled, in the order in which the reasons are looked for.
pub enum Refusal {
    /// A text, a program or an external file is at fault.
    Portfolio(GatherFault),
    /// The seed file is at fault.
    Seeds(SeedRefusal),
    /// A window item has no meaning.
    Windows(WindowFault),
    /// There was no memory left.
    Memory,
}

impl Drop for Refusal {
    fn drop(self) {
        match self {
            Refusal::Portfolio(_fault) => {}
            Refusal::Seeds(_) => {}
            Refusal::Windows(_fault) => {}
            Refusal::Memory => {}
        }
    }
}
