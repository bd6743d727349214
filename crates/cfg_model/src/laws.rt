//! Laws over the definitions, the contracts of functions that do nothing.
ghost use Rattle.std.specs.Prelude.{◌≡◌, ℕ, List, Some, true};
ghost use Rattle.toml.specs.Data.{Members, members_are_sorted};
ghost use Rattle.cfg_model.specs.LedgerLaws.{EachBalances, LedgerBalances};
ghost use Rattle.cfg_model.specs.Reading.{toml_document};

/// The keys of each table of a file stand in byte order, each once: so the first of them that is
/// unknown is the least, and the entries of a group are read in byte order of names.
pub fn table_keys_ascend()
    ensures { (bytes : List ℕ) (top : Members) → toml_document bytes ≡ Some top
        → members_are_sorted top ≡ true }
{}

/// In each row of balances and turnovers of accounts, the opening net plus the turnover is the
/// closing net.
pub fn each_row_balances()
    ensures { EachBalances }
{}

/// In the turnovers of all accounts of a ledger whose entries its chart accepts, the debit
/// turnovers of the leaves that are not off-balance have the sum of their credit turnovers, in each
/// unit of every range.
pub fn debits_equal_credits()
    ensures { LedgerBalances }
{}
