//! A law over the definitions, the contract of a function that does nothing.
ghost use Rattle.text_reports.specs.ReportLaws.{LinesAlign};

/// All lines of a trial balance or of a stock card, and of each report without a bare column, have
/// one length: that of its columns, of which each is wide enough for all of its cells.
pub fn lines_align()
    ensures { LinesAlign }
{}
