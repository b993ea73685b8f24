ghost use Rattle.std.specs.Prelude.{◌≡◌, length, IfOk, MatchResult};
ghost use Rattle.refusal.specs.Values.{told};
ghost use Rattle.module.specs.Layout.{routines, total};
ghost use Rattle.module.specs.Rules.{rules};
ghost use Rattle.module.specs.Shape.{rows_before};
ghost use Rattle.module.specs.Told.{bytes_of, verdict_of, verdict_on};
ghost use Rattle.module.specs.Verdict.{tried, checking, first_rows, sheet_after};

use crate::checked::Checked;
use crate::open::open;
use crate::opened::Opened;
use crate::refused::Refused;
use crate::rule::Rule;
use crate::shape::ShapeRow;
use refusal::Refusal;

impl<'a> Opened<'a> {
    // Tries the rules in turn over filled rows.
    fn try_rules(&self, rows: &[ShapeRow]) -> Result<(), Refusal>
        requires { rows.now ≡ rows_before (bytes_of self.now) (routines (bytes_of self.now)) }
        ensures { told result ≡ tried rules (bytes_of self.now) }
    {
        for rule in Rule::ALL {
            if let Some(place) = self.breach(rule, rows) {
                return Err(rule.broken(place));
            }
        }
        Ok(())
    }

    // Fills the rows and tries the rules; where one is broken, the rows are cleared. It is a function of its own in the compiled
    // code, too: as a part of `examine` it takes more instructions.
    #[inline(never)]
    fn judge(&self, rows: &mut [ShapeRow]) -> Result<(), Refusal>
        requires { length rows.old ≡ total (bytes_of self.now) }
        ensures verdict { told result ≡ tried rules (bytes_of self.now) }
        ensures rows { rows.new ≡ first_rows (bytes_of self.now) (tried rules (bytes_of self.now)) }
    {
        self.fill(rows);
        let verdict = self.try_rules(rows);
        if verdict.is_err() {
            rows.fill(ShapeRow::BLANK);
        }
        verdict
    }

    // Gives the module back with its refusal.
    fn refused(self, refusal: Refusal) -> Refused<Opened<'a>>
        ensures module { result.module ≡ self.entry }
        ensures refusal { result.refusal ≡ refusal }
    {
        Refused {
            module: self,
            refusal,
        }
    }

    /// Checks the module. An acceptance fills the first rows of the sheet, one for each instruction; a broken rule clears
    /// them; the rows past them stay. Too short a sheet is refused and stays as it is. A refusal gives the module back.
    pub fn check(self, sheet: &mut [ShapeRow]) -> Result<Checked<'a>, Refused<Opened<'a>>>
        ensures verdict { verdict_on result ≡ checking (bytes_of self.entry) (length sheet.old) }
        ensures sheet { sheet.new ≡ sheet_after (bytes_of self.entry) sheet.old }
        ensures moves { MatchResult result (λ m. m.opened ≡ self.entry) (λ r. r.module ≡ self.entry) }
    {
        // A test and a range: of the sheet after `get_mut(..total)` a proof knows only the length.
        let total = self.counts.total;
        if sheet.len() < total {
            return Err(self.refused(Refusal::Sheet));
        }
        match self.judge(&mut sheet[0..total]) {
            Ok(()) => Ok(Checked { opened: self }),
            Err(refusal) => Err(self.refused(refusal)),
        }
    }
}

/// Opens and checks a module in one go: the checked module, or the first refusal of open and check.
pub fn examine<'a>(bytes: &'a [u8], sheet: &mut [ShapeRow]) -> Result<Checked<'a>, Refusal>
    ensures verdict { verdict_of result ≡ checking bytes.now (length sheet.old) }
    ensures sheet { sheet.new ≡ sheet_after bytes.now sheet.old }
    ensures bytes { IfOk result (λ m. bytes_of m.opened ≡ bytes.now) }
{
    Ok(open(bytes)?.check(sheet)?)
}
