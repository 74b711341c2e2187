//! What holds of reports. Each function does nothing, and its contract is the law.
ghost use Rattle.std.specs.Prelude.{◌≡◌, ℕ, List};
ghost use Rattle.og_base.specs.declared.Violation.{Violation};
ghost use Rattle.og_lexer.specs.declared.Language.{Language};
ghost use Rattle.og_report.specs.declared.Report.{Report};
ghost use Rattle.og_report.specs.Report.{IsReportOf};

use og_cif::one_list_of_boxes;
use og_lexer::{one_asn_reading, one_reading};

/// A violation has one report.
pub fn one_report()
    ensures { (language : Language) (bytes : List ℕ) (v : Violation) (report other : Report) →
        IsReportOf language bytes v report → IsReportOf language bytes v other → report ≡ other }
{
    one_reading();
    one_asn_reading();
    one_list_of_boxes()
}
