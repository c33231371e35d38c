// The list after an edit, into a lent buffer that may be too short for it. What is redone is formed in a draft first,
// so that such a buffer is left as it was; what the draft has no room for is formed again in the buffer.
ghost use Rattle.std.specs.Prelude.{◌≡◌, length};
ghost use Rattle.sheet.specs.Sheets.{decode_sheet};
ghost use Rattle.rule_tests.specs.between.Tests.{held};
ghost use Rattle.builder.specs.between.Builder.{redone_numbers};
ghost use Rattle.findings.specs.Lists.{Answers};
ghost use Rattle.recheck.specs.between.Kept.{Ordered, Drafted, list_with};

use crate::lists::kept_length;
use crate::weaving::weave;
use base::refusal::OutputError;
use network::Network;
use scope::Scope;
use scope::redone::Marks;

// How many numbers a draft has room for.
const DRAFT: usize = 8192;

// What is redone, into just the room for it: from the draft, or formed again.
fn fill(part: &mut [u16], draft: &[u16], sheet: &[u8], n: &Network, scope: Scope, marks: Marks)
    requires { Drafted (redone_numbers n.now scope marks (held sheet.now)) draft.now part.old }
    ensures { part.new ≡ redone_numbers n.now scope marks (held sheet.now) }
{
    let k = part.len();
    if k <= draft.len() {
        part.copy_from_slice(&draft[..k]);
        return;
    }
    builder::list_redone(part, sheet, n, scope, marks);
}

fn update_drafted(
    out: &mut [u16],
    sheet: &[u8],
    n: &Network,
    scope: Scope,
    marks: Marks,
    list: &[u16],
    draft: &mut [u16],
) -> Result<usize, OutputError>
    requires { Ordered list.now }
    ensures { Answers 0 (list_with marks list.now (redone_numbers n.now scope marks (held sheet.now))) out.old result out.new }
{
    let kept = kept_length(list, marks);
    let redone = builder::list_redone(draft, sheet, n, scope, marks);
    let needed = kept + redone;
    if out.len() < needed {
        return Err(OutputError::TooShort(needed));
    }
    fill(&mut out[kept..needed], draft, sheet, n, scope, marks);
    weave(out, list, marks, kept, needed);
    Ok(needed)
}

pub(crate) fn write_update(
    out: &mut [u16],
    sheet: &[u8],
    n: &Network,
    scope: Scope,
    marks: Marks,
    list: &[u16],
) -> Result<usize, OutputError>
    requires { (length sheet.now ≡ 8192) × Ordered list.now }
    ensures { Answers 0 (list_with marks list.now (redone_numbers n.now scope marks (decode_sheet sheet.now))) out.old result out.new }
{
    let mut draft = [0u16; DRAFT];
    update_drafted(out, sheet, n, scope, marks, list, &mut draft)
}
