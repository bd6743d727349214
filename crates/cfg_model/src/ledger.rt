//! A ledger: its chart of accounts.
ghost use Rattle.std.specs.Prelude.{◌≡◌, codes, IfOk};
ghost use Rattle.toml.specs.View.{view, table_view};
ghost use Rattle.reg_base.specs.Results.{Gives};
ghost use Rattle.cfg_model.specs.declared.fault.CfgFault.TheVariants.{Memory};
ghost use Rattle.cfg_model.specs.Ledgers.{read_ledger, ledger_of, read_scale, scale_number};

use crate::accounts::read_accounts;
use crate::group::FromEntry;
use crate::walk::{Entry, entry_keys};
use crate::{Account, CfgFault, Config};
use reg_base::{List, Name, Scale};
use std::alloc::Global;
use toml::Value;

/// A ledger with its accounts, in byte order of codes.
#[derive(Drop)]
pub struct Chart {
    pub name: Name,
    /// The decimals that its amounts are counted in.
    pub scale: Scale,
    /// Whether its locks begin as splitting ones.
    pub split: bool,
    pub accounts: List<Account>,
}

impl FromEntry for Chart {
    ghost reads = { λ config. read_ledger config.registers };

    ghost entry_name = { λ chart. chart.name };

    #[tactic(auto, unfolding(crate::specs::Ledgers::read_ledger))]
    fn read(alloc: Global, config: &Config, name: &str, value: &Value) -> Result<Chart, CfgFault> {
        let known = ["scale", "split", "accounts"];
        let registers = config.registers.as_slice();
        let keys = entry_keys(alloc, "ledger", registers, &known, name, value)?;
        let entry = Entry {
            group: "ledger",
            name,
            keys,
        };
        chart_of(alloc, &entry, Name::parse(name).unwrap())
    }
}

// The ledger that the keys of an entry say.
fn chart_of(alloc: Global, entry: &Entry, name: Name) -> Result<Chart, CfgFault>
    requires group { entry.now.group.now ≡ codes "ledger" }
    requires name { name ≡ entry.now.name.now }
    ensures read { let keys = table_view entry.now.keys.now in
        Gives Memory result (ledger_of entry.now.name.now keys) }
    ensures named { IfOk result (λ chart. chart.name ≡ name) }
{
    let scale = read_scale(alloc, entry)?;
    let split = entry.split(alloc)?;
    let accounts = read_accounts(alloc, entry)?;
    Ok(Chart {
        name,
        scale,
        split,
        accounts,
    })
}

#[tactic(auto, unfolding(crate::specs::Ledgers::read_scale))]
fn read_scale(alloc: Global, entry: &Entry) -> Result<Scale, CfgFault>
    requires { entry.now.group.now ≡ codes "ledger" }
    ensures { let keys = table_view entry.now.keys.now in
        Gives Memory result (read_scale entry.now.name.now keys) }
{
    let Some(value) = entry.get("scale") else {
        return Err(entry.wrong(alloc, "scale"));
    };
    let Some(number) = value.as_integer() else {
        return Err(entry.wrong(alloc, "scale"));
    };
    let Some(scale) = scale_of(number) else {
        return Err(entry.wrong(alloc, "scale"));
    };
    Ok(scale)
}

#[tactic(auto, unfolding(crate::specs::Ledgers::scale_number))]
fn scale_of(number: i64) -> Option<Scale>
    ensures { result ≡ scale_number number }
{
    match u8::try_from(number) {
        Ok(decimals) => Scale::new(decimals),
        Err(_) => None,
    }
}
