// Where the calls begin: whether the lent buffers fit, and the network that the file holds.
ghost use Rattle.std.specs.Prelude.{◌≡◌};
ghost use Rattle.timetable.specs.NetworkFile.{read_network};
ghost use Rattle.strakewhip.specs.Calls.{is_sheet, is_division, entering};

use network::Network;
use network_files::reading::read_network;
use replies::{CallError, Reply};

pub(crate) fn is_sheet(bytes: &[u8]) -> bool
    ensures { result ≡ is_sheet bytes.now }
{
    bytes.len() == 8192
}

pub(crate) fn is_division(bytes: &[u8]) -> bool
    ensures { result ≡ is_division bytes.now }
{
    bytes.len() == 49152
}

// The network of a call whose buffers fit, or its answer: 5, then the refusal of the network's file.
pub(crate) fn entered(fits: bool, network: &[u8]) -> Result<Network, Reply>
    ensures { result ≡ entering fits (read_network network.now) }
{
    if !fits {
        return Err(replies::plain(5));
    }
    match read_network(network) {
        Ok((n, _)) => Ok(n),
        Err(e) => Err(Reply::from(CallError::InFile(1, e))),
    }
}
