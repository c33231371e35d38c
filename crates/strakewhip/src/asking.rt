// What a centre asks before it lends a sheet: whether a network can be read, and which areas an edit names.
ghost use Rattle.std.specs.Prelude.{◌≡◌};
ghost use Rattle.strakewhip.specs.Calls.{network_reply, names_reply};

use crate::entering::entered;
use edit_replies::naming;
use network_files::reading::read_network;
use replies::{CallError, Reply};

// Refusal and place of a network's file; `length` is what was read.
#[unsafe(no_mangle)]
pub extern "C" fn strakewhip_network(network: &[u8]) -> Reply
    ensures { result ≡ network_reply network.now }
{
    match read_network(network) {
        Ok((_, length)) => replies::sized(0, length),
        Err(e) => Reply::from(CallError::InFile(1, e)),
    }
}

// What refuses the edit before any sheet is looked at, and the areas that it names, as bits in `length`.
#[unsafe(no_mangle)]
pub extern "C" fn strakewhip_names(network: &[u8], edit: &[u8]) -> Reply
    ensures { result ≡ names_reply network.now edit.now }
{
    match entered(true, network) {
        Ok(n) => naming::names_under(&n, edit),
        Err(reply) => reply,
    }
}
