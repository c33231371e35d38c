// Faults that only the whole network shows, found entry by entry: the first stays.
ghost use Rattle.std.specs.Prelude.{◌≡◌};
ghost use Rattle.base.specs.RefusalNumbers.{number_of};
ghost use Rattle.network_files.specs.between.Faults.{fault_told, fault_next};

use base::refusal::{FileError, Refusal};

// One entry more, at a place, which is good or has a fault of this number.
#[tactic(auto, unfolding(crate::specs::between::Faults::fault_next))]
pub fn next_fault(
    refusal: Refusal,
    good: bool,
    place: usize,
    fault: Option<FileError>,
) -> Option<FileError>
    ensures { fault_told result ≡ fault_next (number_of refusal) good place (fault_told fault) }
{
    if fault.is_some() || good {
        fault
    } else {
        Some(FileError { refusal, place })
    }
}
