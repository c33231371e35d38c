// An edit on pages in a row, those of a sheet or of a division: what they refuse it with, and what it makes of them. A
// page is a page wherever it stands, so the same functions serve both. A page that is past the buffer's end is short or
// empty, and is left so.
#![tactic(auto)]

ghost use Rattle.std.specs.Prelude.{◌≡◌, ◌*◌, ◌≤◌, ◌<◌, min};
ghost use Rattle.base.specs.RefusalNumbers.{refusal_number};
ghost use Rattle.edit_changes.specs.between.EditPages.{page_without, here_page};
ghost use Rattle.page_edits.specs.between.PageEdits.{place_of, places, visits_on, swept, sweep};
ghost use Rattle.page_edits.specs.between.PageEdits.{bytes_of, far_changed, frames_refusal, frames_removed, frames_changed};
ghost use Rattle.sheet.specs.between.Frames.{frame, change_frame};

use actions::shape;
use actions::shape::Shape;
use base::refusal::Refusal;
use network::Network;
use railway::edit::Edit;
use railway::sorts::{Station, Train};

// How pages lie in a buffer: a sheet has those of the stations 1 to 16, a division a sheet for each of the areas 1 to 6.
#[derive(Clone, Copy, Debug, PartialEq, Eq, Hash)]
pub enum Layout {
    Sheet,
    Division,
}

impl Layout {
    // How many bytes it has.
    pub fn bytes(self) -> usize
        ensures { result ≡ bytes_of self }
    {
        match self {
            Layout::Sheet => 8192,
            Layout::Division => 49152,
        }
    }
}

// The index of a station's page.
#[tactic(auto, unfolding(crate::specs::between::PageEdits::place_of))]
fn place_of(layout: Layout, n: &Network, s: Station) -> usize
    ensures { (result ≡ place_of layout n.now s) × (result < 4335) }
{
    let page = usize::from(s.0.saturating_sub(1));
    match layout {
        Layout::Sheet => page,
        Layout::Division => 16 * usize::from(n.group_of(s).saturating_sub(1)) + page,
    }
}

// The byte at which the page at an index starts, or the end of so many bytes.
fn start_of(i: usize, size: usize) -> usize
    requires { i < 4336 }
    ensures { result ≡ min (512 * i) size }
{
    (512 * i).min(size)
}

fn page_at(b: &[u8], i: usize) -> &[u8]
    requires { i < 4335 }
    ensures { result.now ≡ frame i b.now }
{
    let at = start_of(i, b.len());
    let end = start_of(i + 1, b.len());
    &b[at..end]
}

// An edit at one or two stations

// The page of p, where it is not that of s.
fn change_far(b: &mut [u8], i: usize, j: usize, e: Edit)
    requires { j < 4335 }
    ensures { b.new ≡ far_changed e i j b.old }
{
    if i == j {
        return;
    }
    let at = start_of(j, b.len());
    let end = start_of(j + 1, b.len());
    edit_changes::change_there(&mut b[at..end], e);
}

fn change_near(b: &mut [u8], i: usize, e: Edit)
    requires { i < 4335 }
    ensures { b.new ≡ change_frame i (here_page e) b.old }
{
    let at = start_of(i, b.len());
    let end = start_of(i + 1, b.len());
    edit_changes::change_here(&mut b[at..end], e);
}

// Edit 11

// Whether the train has a visit on the page, as a count.
#[tactic(auto, unfolding(crate::specs::between::PageEdits::visits_on, timetable::specs::Tables::has_visit))]
fn count_on(part: &[u8], t: Train) -> u8
    ensures { (result ≡ visits_on t part.now) × (result ≤ 1) }
{
    u8::from(page::visit_of(part, t).is_some())
}

// At one page.
fn sweep_one(b: &mut [u8], i: usize, t: Train) -> u8
    requires { i < 4335 }
    ensures { (result ≡ visits_on t (frame i b.old)) × (b.new ≡ change_frame i (page_without t) b.old) × (result ≤ 1) }
{
    let count = count_on(page_at(b, i), t);
    let at = start_of(i, b.len());
    let end = start_of(i + 1, b.len());
    edit_changes::take_out(&mut b[at..end], t);
    count
}

// At the pages of all listed stations: how many visits that removes.
fn sweep_all(b: &mut [u8], layout: Layout, n: &Network, t: Train) -> u8
    ensures { (result ≡ swept t (places layout n.now) b.old) × (b.new ≡ sweep t (places layout n.now) b.old) }
{
    let _rows = &n.stations[..];
    let mut removed: u8 = 0;
    for row in n.station_rows() {
        removed += sweep_one(b, place_of(layout, n, row.station), t);
    }
    removed
}

// An edit on all the pages that it names

// What the pages refuse it with: 8 to 12.
#[tactic(auto, using(crate::proofs::PairSteps::all_unrefused, crate::proofs::PairSteps::two_refused))]
pub fn refusal_on(b: &[u8], layout: Layout, n: &Network, e: Edit) -> Result<(), Refusal>
    ensures { refusal_number result ≡ frames_refusal layout n.now e b.now }
{
    match shape::shape_of(e) {
        Shape::Local { home, away, .. } => {
            let i = place_of(layout, n, home);
            let j = place_of(layout, n, away);
            edit_refusals::refusal_of(page_at(b, i), page_at(b, j), n, e)
        }
        Shape::Throughout(_) => Ok(()),
    }
}

// What it makes of them, where they do not refuse it; how many visits that removes.
#[tactic(auto, using(crate::proofs::PairSteps::all_removed, crate::proofs::PairSteps::all_changed, crate::proofs::PairSteps::two_removed, crate::proofs::PairSteps::two_changed))]
pub fn change_on(b: &mut [u8], layout: Layout, n: &Network, e: Edit) -> u8
    ensures { (result ≡ frames_removed layout n.now e b.old) × (b.new ≡ frames_changed layout n.now e b.old) }
{
    match shape::shape_of(e) {
        Shape::Local {
            home,
            away,
            removes,
            ..
        } => {
            let i = place_of(layout, n, home);
            let j = place_of(layout, n, away);
            change_far(b, i, j, e);
            change_near(b, i, e);
            removes
        }
        Shape::Throughout(train) => sweep_all(b, layout, n, train),
    }
}
