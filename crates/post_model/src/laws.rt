//! Laws over the definitions, each the contract of a function that does nothing.
ghost use Rattle.std.specs.Prelude.{◌≡◌, ℕ, ℤ, Bool, List, Ok, IfOk};
ghost use Rattle.std.specs.List.{All};
ghost use Rattle.reg_base.specs.Records.{Booked};
ghost use Rattle.reg_base.specs.declared.records.Doc.{Doc};
ghost use Rattle.cfg_model.specs.declared.config.Config.{Config};
ghost use Rattle.cfg_model.specs.Limits.{IsWithinLimits};
ghost use Rattle.rule_lang.specs.declared.rules.Rules.{Rules};
ghost use Rattle.post_model.specs.declared.holding.Holding.{Holding};
ghost use Rattle.post_model.specs.declared.made.Yield.{Yield};
ghost use Rattle.post_model.specs.Scenes.{Scene};
ghost use Rattle.post_model.specs.WriteOffs.{write_off};
ghost use Rattle.post_model.specs.Yields.{holdings_of, yield_of};
ghost use Rattle.post_model.specs.Laws.{AgreeOn, AreSetsOf, AreTakenFrom, LeavesNoneBelowZero};

/// A law: what posting makes rests on what its reads name. Of other books that agree with these on
/// each item that was read, the document makes the same.
pub fn yields_rest_on_reads()
    ensures { (config : Config) (rules : Rules) (doc : Doc) (books others : ℕ → List Booked)
        (made : Yield) → yield_of config rules doc books ≡ Ok made
        → All (AgreeOn config doc books others) made.reads
        → yield_of config rules doc others ≡ Ok made }
{}

/// A law: what posting makes is a set for each register and each ledger, of at most 5,000 records
/// or entries under the line numbers from 1 on. Each record has a number for every resource, and
/// none of the numbers is past the largest.
pub fn yields_are_within_limits()
    ensures { (config : Config) (rules : Rules) (doc : Doc) (books : ℕ → List Booked)
        → IfOk (yield_of config rules doc books) (λ made. AreSetsOf config made.sets) }
{}

/// A law: a write-off takes in all as much as was wanted, and of each lot not more than there is in
/// stock. Each part that it takes is above zero and from one holding; the whole of a holding has
/// its whole amount, and less than the whole its share.
pub fn write_offs_take_what_is_wanted()
    ensures { (scene : Scene) (wanted : ℤ) (holdings : List Holding)
        → IfOk (write_off scene wanted holdings) (AreTakenFrom holdings wanted) }
{}

/// A law: under a configuration within its limits, of which each register has one dimension of lots
/// at the most, a write-off takes from the lot of each holding not more than the holding has above
/// zero.
pub fn no_lot_goes_below_zero()
    ensures { (config : Config) (fifo : Bool) (register quantity amount : ℕ) (left : List Booked)
        → IsWithinLimits config → (scene : Scene) (wanted : ℤ)
        → IfOk (write_off scene wanted (holdings_of config fifo register quantity amount left))
        (LeavesNoneBelowZero (holdings_of config fifo register quantity amount left)) }
{}
