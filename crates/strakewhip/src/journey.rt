// The projection: four numbers a row.
ghost use Rattle.std.specs.Prelude.{◌≡◌};
ghost use Rattle.strakewhip.specs.Calls.{project_reply, project_left};

use crate::entering::{entered, is_sheet};
use projection::calls;
use railway::minute::Minute;
use railway::sorts::{Station, Train};
use replies::Reply;

#[unsafe(no_mangle)]
pub extern "C" fn strakewhip_project(
    network: &[u8],
    sheet: &[u8],
    station: u8,
    train: u16,
    arrival: u16,
    out: &mut [i32],
) -> Reply
    ensures { (result ≡ project_reply network.now sheet.now station train arrival out.old) × (out.new ≡ project_left network.now sheet.now station train arrival out.old) }
{
    match entered(is_sheet(sheet), network) {
        Ok(n) => replies::of_result(calls::project(
            sheet,
            &n,
            Station(station),
            Train(train),
            Minute(arrival),
            out,
        )),
        Err(reply) => reply,
    }
}
