// Two areas' sheets put together in one, page by page.
ghost use Rattle.std.specs.Prelude.{◌≡◌, length};
ghost use Rattle.findings.specs.between.Joined.{joined_page, joined};

use network::Network;
use railway::sorts::{Area, Station};

// The page of a station: from its area's sheet, zeros where it is in neither area.
fn join_page(
    page: &mut [u8],
    first: &[u8],
    second: &[u8],
    n: &Network,
    a: Area,
    b: Area,
    k: Station,
)
    requires { (length page.old ≡ 512) × (length first.now ≡ 512) × (length second.now ≡ 512) }
    ensures { page.new ≡ joined_page n.now a b k first.now second.now }
{
    let g = n.group_of(k);
    if g == a.0 {
        page.copy_from_slice(first);
    } else if g == b.0 {
        page.copy_from_slice(second);
    } else {
        page.fill(0);
    }
}

pub(crate) fn join(sheet: &mut [u8], first: &[u8], second: &[u8], n: &Network, a: Area, b: Area)
    requires { (length sheet.old ≡ 8192) × (length first.now ≡ 8192) × (length second.now ≡ 8192) }
    ensures { sheet.new ≡ joined n.now a b first.now second.now }
{
    for i in 0..16usize {
        let at = 512 * i;
        let end = at + 512;
        join_page(
            &mut sheet[at..end],
            &first[at..end],
            &second[at..end],
            n,
            a,
            b,
            Station(i as u8 + 1),
        );
    }
}
