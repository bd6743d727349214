//! Laws over the definitions, each the contract of a function that does nothing.
ghost use Rattle.std.specs.Prelude.{◌≡◌, List, Ok, IfOk};
ghost use Rattle.std.specs.List.{All, AllZip};
ghost use Rattle.cfg_model.specs.declared.config.Config.{Config};
ghost use Rattle.cfg_model.specs.declared.kind.Kind.{Kind};
ghost use Rattle.rule_lang.specs.declared.statement.Statement.{Statement};
ghost use Rattle.rule_lang.specs.Printed.{with_rules, with_canonical_texts};
ghost use Rattle.rule_lang.specs.Rules.{kind_rules, rules_of};
ghost use Rattle.rule_lang.specs.RuleTexts.{rules_text};
ghost use Rattle.rule_lang.specs.ResolvedStatements.{AreOfText};
ghost use Rattle.rule_lang.specs.SequenceLaws.{KeepsSequences};

/// A law: the statements of accepted rules are those of the texts, at most 64 a type. Each name is
/// the place of what has it, with the sort and the scale that its use asks for; each literal is
/// its value at that scale, within the largest number; `cost` is that of an earlier write-off of
/// the same scope; each dimension has one value, and by the order of lots no lot has one.
pub fn places_are_resolved()
    ensures { (config : Config) → IfOk (rules_of config)
        (AllZip (AreOfText config) config.kinds) }
{}

/// A law: the statements of a type in a sequence read registers that affect it alone, and each
/// record of an affecting register that they read or make has in each dimension of the sequence
/// the value of the head's field of that name.
pub fn sequences_are_kept()
    ensures { (config : Config) → IfOk (rules_of config) (λ rules.
        AllZip (λ kind statements. All (λ s. KeepsSequences config kind s.act) statements)
        config.kinds rules) }
{}

/// A law: the canonical text of a type, which `Rules::print` writes, is read back to the same
/// statements; and a configuration with the canonical text of each type has the same rules.
pub fn rules_read_back()
    ensures kind { (config : Config) (kind : Kind) (statements : List Statement)
        → kind_rules config kind ≡ Ok statements
        → kind_rules config (with_rules kind (rules_text config kind statements)) ≡ Ok statements }
    ensures all { (config : Config) → IfOk (rules_of config)
        (λ rules. rules_of (with_canonical_texts config rules) ≡ Ok rules) }
{}
