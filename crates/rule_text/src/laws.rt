//! Laws over the definitions, each the contract of a function that does nothing.
ghost use Rattle.rule_text.specs.Refusals.{RefusalsStand, TextsAreReadWhole};

/// A law: where a text is refused at a place, every text that begins with the same tokens through
/// that place is refused there too; where it ends too early, every text of the same tokens does.
/// And of a text that is accepted no token is left over.
pub fn refusals_stand()
    ensures refused { RefusalsStand }
    ensures whole { TextsAreReadWhole }
{}
