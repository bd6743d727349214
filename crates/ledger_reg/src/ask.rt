//! What a table of accounts asks for.
ghost use Rattle.std.specs.Prelude.{◌≡◌};
ghost use Rattle.cfg_model.specs.AccountTables.{is_asked};

use cfg_model::Chart;
use reg_base::Code;

/// The ledger of a table of accounts, and which of its accounts are shown.
#[derive(Clone, Copy)]
pub struct AccountAsk {
    /// The place of the ledger in the configuration.
    pub ledger: usize,
    /// This account and those below it alone, or all.
    pub account: Option<Code>,
    /// Whether rows are told apart by extras.
    pub extras: bool,
}

/// Whether an account is asked for: it is the one asked for or stands below it, or all are.
pub(crate) fn asks_for(chart: &Chart, asked: &Option<Code>, code: &Code) -> bool
    ensures { result ≡ is_asked chart.now asked.now code.now }
{
    match asked {
        Some(top) => chart.is_at_or_below(top, code),
        None => true,
    }
}
