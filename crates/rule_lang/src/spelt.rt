//! Lists of what has a text.
ghost use Rattle.std.specs.Prelude.{◌≡◌, ◌++◌, IfOk, List, ℕ, string_bytes};
ghost use Rattle.std.specs.List.{flat_map};
ghost use Rattle.rule_lang.specs.TermTexts.{list_text as list_text_of, name_of_place as name_in};

use crate::fields::HasName;
use reg_base::Memory;
use std::alloc::Global;

// What has a text within a context, and what joins it to those before it.
pub(crate) trait Spelt<C> {
    ghost text_of: { C → Self → List ℕ };

    ghost joint_of: { Self → List ℕ };

    fn text(&self, alloc: Global, context: &C) -> Result<String, Memory>
        ensures { IfOk result (λ t. string_bytes t ≡ text_of context.now self.now) };

    fn joint(&self) -> &str
        ensures { result.now ≡ joint_of self.now };
}

// The first, and each other one behind what joins it.
pub(crate) fn list_text<C, T: Spelt<C>>(
    alloc: Global,
    context: &C,
    items: &[T],
) -> Result<String, Memory>
    ensures { IfOk result
        (λ t. string_bytes t ≡ list_text_of T.joint_of (T.text_of context.now) items.now) }
{
    match items.split_first() {
        None => Ok(String::new(alloc)),
        Some((first, others)) => {
            let front = first.text(alloc, context)?;
            text_behind(alloc, context, front.as_str(), others)
        }
    }
}

// Each behind what joins it, behind the text in front.
fn text_behind<C, T: Spelt<C>>(
    alloc: Global,
    context: &C,
    front: &str,
    items: &[T],
) -> Result<String, Memory>
    ensures { IfOk result (λ t. string_bytes t ≡ front.now
        ++ flat_map (λ y. T.joint_of y ++ T.text_of context.now y) items.now) }
{
    let mut text = String::from_str(alloc, front)?;
    'items: for item in items {
        let next = item.text(alloc, context)?;
        text.push_str(item.joint())?;
        text.push_str(next.as_str())?;
    }
    Ok(text)
}

// The name of what stands at the place; empty where nothing does.
pub(crate) fn name_of_place<N: HasName>(items: &[N], place: u8) -> &str
    ensures { result.now ≡ name_in N.name_of items.now place }
{
    match items.get(usize::from(place)) {
        Some(item) => item.name().as_str(),
        None => "",
    }
}
