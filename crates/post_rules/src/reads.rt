//! The items that statements read, and the records that they name.
ghost use Rattle.std.specs.Prelude.{◌≡◌, IfOk, ◌∷◌, [], option_map};
ghost use Rattle.post_model.specs.Lefts.{read_item as read_item_of, filter_of as filter_for};
ghost use Rattle.post_rules.specs.SceneViews.{scene_view};

use crate::places::width_of;
use crate::scene::Scene;
use cfg_model::Config;
use reg_base::{Filter, Item, List, Memory, Mode, Value};
use rule_lang::Bind;
use std::alloc::Global;

// The item that a read names: the register, with the values of the dimensions that are bound.
#[tactic(auto, unfolding(post_model::specs::Lefts::read_item))]
pub(crate) fn read_item(
    alloc: Global,
    config: &Config,
    scene: &Scene,
    register: u8,
    binds: &[Bind],
) -> Result<Item, Memory>
    ensures { IfOk result (λ item. item
        ≡ read_item_of config.now (scene_view scene.now) register binds.now) }
{
    let fields = scene.fields(alloc, binds, width_of(config, register))?;
    Ok(Item {
        space: register,
        fields,
        mode: Mode::Shared,
    })
}

// The records that an item names: those with its values.
pub(crate) fn filter_of(alloc: Global, item: &Item) -> Result<Filter, Memory>
    ensures { IfOk result (λ filter. filter ≡ filter_for item.now) }
{
    let mut lists = Vec::new(alloc);
    'fields: for field in item.fields.as_slice() {
        let list = values_asked(alloc, field)?;
        lists.push(list)?;
    }
    Ok(Filter {
        lists: List::from_vec(lists),
    })
}

// The one value that is asked for, where there is one.
fn values_asked(alloc: Global, field: &Option<Value>) -> Result<Option<List<Value>>, Memory>
    ensures { IfOk result (λ list. list ≡ option_map (λ v. v ∷ []) field.now) }
{
    match field {
        Some(value) => Ok(Some(List::from_slice(alloc, &[*value])?)),
        None => Ok(None),
    }
}
