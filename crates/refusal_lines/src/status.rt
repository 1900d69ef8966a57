ghost use Rattle.std.specs.Prelude.{◌≡◌, ◌≢◌};
ghost use Rattle.refusal_lines.specs.Lines as spec;

use answers::{NO_MEMORY, REFUSED, SHELF_FAULT};
use gathered::GatherFault;
use labelled_portfolio::Refusal;
use manifest_load::ManifestRefusal;
use seed_load::SeedRefusal;
use window_items::WindowFault;

pub(crate) fn manifest_status(refusal: &ManifestRefusal) -> u8
    ensures status { result ≡ spec.manifest_status refusal.now }
    ensures printed { result ≢ 7 }
{
    match refusal {
        ManifestRefusal::Missing => REFUSED,
        ManifestRefusal::TooLarge => REFUSED,
        ManifestRefusal::NotToml => REFUSED,
        ManifestRefusal::At { kind: _, key: _ } => REFUSED,
        ManifestRefusal::Shelf => SHELF_FAULT,
        ManifestRefusal::Memory => NO_MEMORY,
    }
}

pub(crate) fn status_of(refusal: &Refusal) -> u8
    ensures status { result ≡ spec.status_of refusal.now }
    ensures printed { result ≢ 7 }
{
    match refusal {
        Refusal::Portfolio(fault) => portfolio_status(fault),
        Refusal::Seeds(fault) => seeds_status(*fault),
        Refusal::Windows(fault) => window_status(fault),
        Refusal::Memory => NO_MEMORY,
    }
}

fn portfolio_status(fault: &GatherFault) -> u8
    ensures status { result ≡ spec.portfolio_status fault.now }
    ensures printed { result ≢ 7 }
{
    match fault {
        GatherFault::Refused(_) => REFUSED,
        GatherFault::Missing(_) => REFUSED,
        GatherFault::TooLarge(_) => REFUSED,
        GatherFault::FileUnknown(_) => REFUSED,
        GatherFault::RecordLengths(_) => REFUSED,
        GatherFault::Shelf(_) => SHELF_FAULT,
        GatherFault::Memory => NO_MEMORY,
    }
}

fn seeds_status(fault: SeedRefusal) -> u8
    ensures status { result ≡ spec.seeds_status fault }
    ensures printed { result ≢ 7 }
{
    match fault {
        SeedRefusal::Missing => REFUSED,
        SeedRefusal::TooLarge => REFUSED,
        SeedRefusal::RowShape(_) => REFUSED,
        SeedRefusal::SeedUnknown(_) => REFUSED,
        SeedRefusal::Shelf => SHELF_FAULT,
        SeedRefusal::Memory => NO_MEMORY,
    }
}

fn window_status(fault: &WindowFault) -> u8
    ensures status { result ≡ spec.window_status fault.now }
    ensures printed { result ≢ 7 }
{
    match fault {
        WindowFault::Unknown(_) => REFUSED,
        WindowFault::Memory => NO_MEMORY,
    }
}
