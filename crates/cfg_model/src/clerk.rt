//! A clerk: who may ask for what.
ghost use Rattle.std.specs.Prelude.{◌≡◌, codes, false};
ghost use Rattle.toml.specs.View.{view, table_view};
ghost use Rattle.reg_base.specs.Results.{Gives};
ghost use Rattle.reg_base.specs.Rights.{right_word};
ghost use Rattle.cfg_model.specs.declared.fault.CfgFault.TheVariants.{Memory};
ghost use Rattle.cfg_model.specs.Elements.{toml_right};
ghost use Rattle.cfg_model.specs.Clerks.{read_clerk, read_rights};

use crate::element::{Element, all_distinct};
use crate::group::FromEntry;
use crate::walk::{Entry, entry_keys};
use crate::{CfgFault, Config};
use reg_base::{List, Name, Right};
use std::alloc::Global;
use toml::Value;

/// A clerk with the rights that were given.
#[derive(Drop)]
pub struct Clerk {
    pub name: Name,
    pub rights: List<Right>,
}

impl Element for Right {
    ghost reads = { toml_right };

    ghost label_of = { right_word };

    ghost sole = { λ r. false };

    #[tactic(auto, unfolding(crate::specs::Elements::toml_right))]
    fn parse(text: &str) -> Option<Right> {
        match text {
            "write" => Some(Right::Write),
            "post" => Some(Right::Post),
            "manual" => Some(Right::Manual),
            "read" => Some(Right::Read),
            "lock" => Some(Right::Lock),
            "admin" => Some(Right::Admin),
            _ => None,
        }
    }

    fn label(&self) -> &str {
        self.word()
    }

    fn is_sole(&self) -> bool {
        false
    }
}

impl FromEntry for Clerk {
    ghost reads = { λ config. read_clerk };

    ghost entry_name = { λ clerk. clerk.name };

    #[tactic(auto, unfolding(crate::specs::Clerks::read_clerk))]
    fn read(alloc: Global, _config: &Config, name: &str, value: &Value) -> Result<Clerk, CfgFault> {
        let keys = entry_keys(alloc, "clerk", &[], &["rights"], name, value)?;
        let entry = Entry {
            group: "clerk",
            name,
            keys,
        };
        let rights = read_rights(alloc, &entry)?;
        Ok(Clerk {
            name: Name::parse(name).unwrap(),
            rights,
        })
    }
}

#[tactic(auto, unfolding(crate::specs::Clerks::read_rights))]
fn read_rights(alloc: Global, entry: &Entry) -> Result<List<Right>, CfgFault>
    requires { entry.now.group.now ≡ codes "clerk" }
    ensures { let keys = table_view entry.now.keys.now in
        Gives Memory result (read_rights entry.now.name.now keys) }
{
    let rights = entry.elements(alloc, "rights")?;
    all_distinct(alloc, rights)
}
