// The page of a station in a sheet.
ghost use Rattle.std.specs.Prelude.{◌≡◌};
ghost use Rattle.sheet.specs.Sheets.{station_part};

use railway::sorts::Station;
use records::bytes;

// An empty part where there is no sheet of 8,192 bytes or no such station.
pub fn page_of(sheet: &[u8], s: Station) -> &[u8]
    ensures { result.now ≡ station_part sheet.now s }
{
    if sheet.len() == 8192 {
        if s.valid() {
            let at = 512 * (bytes::size(s.0) - 1);
            let end = at + 512;
            return &sheet[at..end];
        }
        return &sheet[0..0];
    }
    &sheet[0..0]
}
