//! The acts of a statement in a configuration and a document type.
ghost use Rattle.std.specs.Prelude.{◌≡◌};
ghost use Rattle.rule_lang.specs.Acts.{resolved_act as act_in};
ghost use Rattle.rule_lang.specs.Resolves.{Resolves};

use crate::Act;
use crate::entries::resolved_entry;
use crate::makes::resolved_make;
use crate::requirements::{resolved_control, resolved_require};
use crate::terms::Round;
use crate::tried::Tried;
use crate::write_offs::resolved_write_off;
use cfg_model::{Config, Kind};
use rule_text::PlainAct;
use std::alloc::Global;

// An act.
#[tactic(auto, unfolding(crate::specs::Acts::resolved_act))]
pub(crate) fn resolved_act(
    alloc: Global,
    config: &Config,
    kind: &Kind,
    round: &Round,
    plain: &PlainAct,
) -> Tried<Act>
    ensures { Resolves result (act_in config.now kind.now round.now plain.now) }
{
    match plain {
        PlainAct::Make { verb, target, sums } => {
            resolved_make(alloc, config, kind, round, *verb, target, sums.as_slice())
        }
        PlainAct::WriteOff {
            fifo,
            target,
            wanted,
            cost,
        } => resolved_write_off(alloc, config, kind, round, *fifo, target, wanted, cost),
        PlainAct::Require {
            target,
            resource,
            least,
            code,
        } => resolved_require(
            alloc,
            config,
            kind,
            round,
            target,
            resource,
            least.as_slice(),
            code,
        ),
        PlainAct::Control { register, resource } => {
            Ok(resolved_control(config, register, resource)?)
        }
        PlainAct::Entry {
            ledger,
            sides,
            amount,
        } => resolved_entry(alloc, config, kind, round, ledger, sides, amount.as_slice()),
    }
}
