// Network files.
ghost use Rattle.std.specs.Prelude.{◌≡◌};
ghost use Rattle.timetable.specs.NetworkFile.{read_network_as, read_network};
ghost use Rattle.fields.specs.between.Answers.{outcome};

use crate::draft::read_draft_as;
use base::refusal::FileError;
use fields::field::ended;
use network::Network;
use timetable::NetworkForm;

/// The network of a file of this form, and the place behind it.
pub fn read_network_as(file: &[u8], form: NetworkForm) -> Result<(Network, usize), FileError>
    ensures { outcome result ≡ read_network_as form file.now }
{
    let (draft, place) = read_draft_as(file, form)?;
    ended(file, place)?;
    match draft.fault {
        Some(fault) => Err(fault),
        None => Ok((draft.network, place)),
    }
}

/// The same in the newest form.
#[tactic(auto, unfolding(timetable::specs::NetworkFile::read_network))]
pub fn read_network(file: &[u8]) -> Result<(Network, usize), FileError>
    ensures { outcome result ≡ read_network file.now }
{
    read_network_as(file, NetworkForm::TwoTimes)
}
