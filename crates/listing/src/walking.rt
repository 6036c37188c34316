// The rows of a file: each record is read and judged once.
ghost use Rattle.std.specs.Prelude.{◌≡◌, Ok, Err, MatchResult};
ghost use Rattle.record.specs.File.{contents};
ghost use Rattle.record.specs.Result.{result_numbers};
ghost use Rattle.listing.specs.Rows.{row_by, row_of, walked_of};

use arrayvec::ArrayVec;
use judgement::{Judged, judge_passed};
use loads::PassedSite;
use record::Records;
use site::{RecordKind, Refusal, Site, SpeciesList};
use text::Row;

#[tactic(auto, unfolding(crate::specs::Rows::row_by))]
fn row_by(site: Site, judged: Judged) -> Row
    ensures { result ≡ row_by site judged }
{
    Row {
        loads: judged.loads,
        name: site.name,
        verdict: judged.verdict,
    }
}

#[tactic(auto, unfolding(crate::specs::Rows::row_of))]
fn row_of(passed: PassedSite<'_>) -> Row
    ensures { result ≡ row_of passed.entry.list.bytes.now passed.entry.site }
{
    row_by(passed.site, judge_passed(passed))
}

// The rows of a file, or its first fault. Written into each of its callers: as a function of its own it has the rows laid out once more on their stack.
#[inline(always)]
pub fn walk_file(file: &[u8], list: SpeciesList<'_>) -> Result<ArrayVec<Row, 500>, Refusal>
    ensures answer { let l = list.entry.bytes.now in MatchResult result (λ rows. walked_of l (contents l file.now) ≡ Ok rows.items) (λ refusal. walked_of l (contents l file.now) ≡ Err refusal) }
    ensures numbers { result_numbers result ≡ result_numbers (contents list.entry.bytes.now file.now) }
{
    let mut records = Records::of(RecordKind::Tag55, file, list)?;
    let mut rows = ArrayVec::new();
    while let Some(passed) = records.next()? {
        rows.push(row_of(passed));
    }
    Ok(rows)
}
