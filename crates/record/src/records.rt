// The walk over a file: a record at a time, or all of them.
ghost use Rattle.std.specs.Prelude.{◌≡◌, ◌-◌, ◌≤◌, ◌<◌, length, IfOk, IfErr, IfSome, Some, None, Ok, Err, MatchResult};
ghost use Rattle.record.specs.Outer.{fields_at};
ghost use Rattle.record.specs.File.{contents_to};
ghost use Rattle.record.specs.Result.{result_numbers};
ghost use Rattle.record.specs.Unread.{file_in, list_in, newest_in, may_come, next_at, unread, found_in, site_of, Steps};

use crate::found::FieldsFound;
use crate::outer::fields_at;
use arrayvec::ArrayVec;
use loads::PassedSite;
use site::{RecordKind, Refusal, Rule, Site, SpeciesList};

/// The records of a file that are still to be read: of which kinds they may be, where the next one starts, and how many may come.
#[derive(Drop)]
pub struct Records<'a> {
    file: &'a [u8],
    list: SpeciesList<'a>,
    newest: RecordKind,
    at: usize,
    left: usize,
}

impl<'a> Records<'a> {
    /// All the records of a file, or 1 at 0 where it has no byte. Of a kind above the newest none is known: 3 at its outer field.
    #[tactic(auto, using(crate::proofs::SiteFile::sites_none, crate::proofs::SiteFile::sites_some))]
    pub fn of(
        newest: RecordKind,
        file: &'a [u8],
        list: SpeciesList<'a>,
    ) -> Result<Records<'a>, Refusal>
        ensures answer { MatchResult result (λ records. contents_to newest list.entry.bytes.now file.now ≡ unread records) (λ refusal. contents_to newest list.entry.bytes.now file.now ≡ Err refusal) }
        ensures file { IfOk result (λ records. (file_in records ≡ file.now) × (list_in records ≡ list.entry.bytes.now) × (newest_in records ≡ newest)) }
        ensures start { IfOk result (λ records. (may_come records ≡ 500) × (next_at records ≡ 0)) }
    {
        if file.is_empty() {
            return Err(Rule::NoBytes.into());
        }
        Ok(Records {
            file,
            list,
            newest,
            at: 0,
            left: 500,
        })
    }

    // The fields of the record that comes next, or none at the end of the file; the walk stays where it is.
    fn peek(&self) -> Result<Option<FieldsFound<'a>>, Refusal>
        ensures found { (x : FieldsFound) → result ≡ Ok (Some x) → (next_at self.now < length (file_in self.now)) × (1 ≤ may_come self.now) × (fields_at (newest_in self.now) (list_in self.now) (file_in self.now) (next_at self.now) ≡ Ok (found_in x)) × (x.checked.list.bytes.now ≡ list_in self.now) }
        ensures none { result ≡ Ok None → Steps (newest_in self.now) (list_in self.now) (file_in self.now) (may_come self.now) (next_at self.now) (Ok None) (may_come self.now) (next_at self.now) }
        ensures refused { IfErr result (λ r. Steps (newest_in self.now) (list_in self.now) (file_in self.now) (may_come self.now) (next_at self.now) (Err r) (may_come self.now) (next_at self.now)) }
    {
        if self.file.len() <= self.at {
            return Ok(None);
        }
        if self.left == 0 {
            let rule = Rule::TooMany;
            return Err(Refusal { rule, at: self.at });
        }
        let found = fields_at(self.newest, self.file, self.at, self.list)?;
        Ok(Some(found))
    }

    // Goes on behind a record.
    fn go_on(&mut self, next: usize)
        requires { 1 ≤ may_come self.old }
        ensures { self.new ≡ record self.old { at = next; left = may_come self.old - 1 } }
    {
        self.at = next;
        self.left -= 1;
    }

    /// The next record, with the loads that its last rule works out, or none at the end of the file. A refusal leaves the walk where it is.
    // Kept a function of its own: written into the walk over a file it has the program's rows laid out once more on the stack.
    #[inline(never)]
    pub fn next(&mut self) -> Result<Option<PassedSite<'a>>, Refusal>
        ensures steps { Steps (newest_in self.old) (list_in self.old) (file_in self.old) (may_come self.old) (next_at self.old) (site_of result) (may_come self.new) (next_at self.new) }
        ensures file { (file_in self.new ≡ file_in self.old) × (list_in self.new ≡ list_in self.old) × (newest_in self.new ≡ newest_in self.old) }
        ensures list { IfOk result (λ next. IfSome next (λ passed. passed.list.bytes.now ≡ list_in self.old)) }
    {
        let Some(found) = self.peek()? else {
            return Ok(None);
        };
        let passed = found.passed()?;
        self.go_on(found.next);
        Ok(Some(passed))
    }

    // The site of the next record alone, whose loads are worked out only where rule 21 can be broken.
    fn next_site(&mut self) -> Result<Option<Site>, Refusal>
        ensures steps { Steps (newest_in self.old) (list_in self.old) (file_in self.old) (may_come self.old) (next_at self.old) result (may_come self.new) (next_at self.new) }
        ensures file { (file_in self.new ≡ file_in self.old) × (list_in self.new ≡ list_in self.old) × (newest_in self.new ≡ newest_in self.old) }
    {
        let Some(found) = self.peek()? else {
            return Ok(None);
        };
        found.check_load()?;
        self.go_on(found.next);
        Ok(Some(found.checked.site))
    }
}

/// The sites of a file whose records are of kinds up to the newest, 1 to 500, or its first fault.
pub fn read_sites(
    newest: RecordKind,
    file: &[u8],
    list: SpeciesList<'_>,
) -> Result<ArrayVec<Site, 500>, Refusal>
    ensures answer { let c = contents_to newest list.entry.bytes.now file.now in MatchResult result (λ sites. c ≡ Ok sites.items) (λ refusal. c ≡ Err refusal) }
    ensures numbers { result_numbers result ≡ result_numbers (contents_to newest list.entry.bytes.now file.now) }
{
    let mut records = Records::of(newest, file, list)?;
    let mut sites = ArrayVec::new();
    while let Some(site) = records.next_site()? {
        sites.push(site);
    }
    Ok(sites)
}
