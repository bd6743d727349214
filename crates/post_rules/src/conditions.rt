//! Whether a statement runs, and what its codes are.
ghost use Rattle.std.specs.Prelude.{◌≡◌};
ghost use Rattle.post_model.specs.Scenes.{code_value, cond_holds, when_holds as holds_when};
ghost use Rattle.rule_lang.specs.declared.statement.Cond.TheVariants.{Sums};
ghost use Rattle.post_rules.specs.Bounds.{IsSmallScene};
ghost use Rattle.post_rules.specs.SceneViews.{scene_view};
ghost use Rattle.reg_base.specs.Tries.{Tries};

use crate::fault::Tried;
use crate::scene::{Scene, code_in, compares};
use reg_base::Code;
use rule_lang::{CodeTerm, Cond, Sum, Test};

impl<'a> Scene<'a> {
    // The code that a term is.
    pub(crate) fn code(&self, term: &CodeTerm) -> Code
        ensures { result ≡ code_value (scene_view self.now) term.now }
    {
        match term {
            CodeTerm::Text(code) => *code,
            CodeTerm::Head(place) => code_in(self.doc.head.as_slice(), *place),
            CodeTerm::Line(place) => code_in(self.cells, *place),
        }
    }

    // Whether a statement runs: always where it has no condition.
    #[tactic(auto, unfolding(post_model::specs::Scenes::when_holds))]
    pub(crate) fn when_holds(&self, when: &Option<Cond>) -> Tried<bool>
        requires { IsSmallScene (scene_view self.now) }
        ensures { Tries result (holds_when (scene_view self.now) when.now) }
    {
        match when {
            Some(cond) => self.holds(cond),
            None => Ok(true),
        }
    }

    // Whether a condition holds.
    #[tactic(auto, unfolding(post_model::specs::Scenes::cond_holds))]
    fn holds(&self, cond: &Cond) -> Tried<bool>
        requires { IsSmallScene (scene_view self.now) }
        ensures { Tries result (cond_holds (scene_view self.now) cond.now) }
    {
        match cond {
            Cond::Sums { left, test, right } => self.sums_pass(left, *test, right),
            Cond::Codes { left, equal, right } => {
                Ok(*equal == (self.code(left) == self.code(right)))
            }
        }
    }

    // Whether two sums pass a test: the left one is computed first.
    #[tactic(auto, unfolding(post_model::specs::Scenes::cond_holds))]
    fn sums_pass(&self, left: &Sum, test: Test, right: &Sum) -> Tried<bool>
        requires { IsSmallScene (scene_view self.now) }
        ensures { Tries result (cond_holds (scene_view self.now) (Sums left.now test right.now)) }
    {
        let a = self.sum(left)?;
        let b = self.sum(right)?;
        Ok(compares(test, a, b))
    }
}
