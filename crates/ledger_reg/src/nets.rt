//! Nets of accounts: debit minus credit, over all sums of an account and those below it.
ghost use Rattle.std.specs.Prelude.{◌≡◌, ◌≤◌, ◌*◌, ◌^◌, ◌∷◌, []};
ghost use Rattle.cfg_model.specs.AccountTables.{is_at_or_below as at_or_below};
ghost use Rattle.ledger_reg.specs.Sizes.{size_of};
ghost use Rattle.ledger_reg.specs.Balances.{net_of as net_in, net_below as net_under, sums_size};
ghost use Rattle.ledger_reg.specs.Balances.{counted, sum_size};

use crate::sides::AccountSum;
use cfg_model::Chart;
use reg_base::Code;

// Whether the sums of an account count: it is asked once for all that stand behind one another.
#[derive(Clone, Copy)]
struct Run {
    account: Code,
    counts: bool,
}

/// The net of an account and those below it.
pub(crate) fn net_below(sums: &[AccountSum], chart: &Chart, top: &Code) -> i128
    requires { sums_size sums.now ≤ 2 ^ 64 * 2 ^ 46 }
    ensures value { result ≡ net_under chart.now top.now sums.now }
    ensures small { size_of result ≤ 2 ^ 64 * 2 ^ 46 }
{
    let mut net = 0;
    let mut run = Run {
        account: *top,
        counts: true,
    };
    for sum in sums {
        run = run_of(&run, chart, top, &sum.account);
        net += part_of(&run, sum);
    }
    net
}

// The run of an account, behind another run.
fn run_of(before: &Run, chart: &Chart, top: &Code, code: &Code) -> Run
    requires { before.now.counts ≡ at_or_below chart.now top.now before.now.account }
    ensures account { result.account ≡ code.now }
    ensures counts { result.counts ≡ at_or_below chart.now top.now code.now }
{
    if before.account == *code {
        return *before;
    }
    Run {
        account: *code,
        counts: chart.is_at_or_below(top, code),
    }
}

// The net of sums, where they count.
fn part_of(run: &Run, sum: &AccountSum) -> i128
    requires { sum_size sum.now ≤ 2 ^ 64 * 2 ^ 46 }
    ensures { result ≡ counted run.now.counts sum.now }
{
    if !run.counts {
        return 0;
    }
    net_of(sum)
}

/// Debit minus credit.
pub(crate) fn net_of(sum: &AccountSum) -> i128
    requires { sum_size sum.now ≤ 2 ^ 64 * 2 ^ 46 }
    ensures value { result ≡ net_in sum.now }
    ensures small { size_of result ≤ 2 ^ 64 * 2 ^ 46 }
{
    sum.debit - sum.credit
}
