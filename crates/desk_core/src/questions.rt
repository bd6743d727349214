//! Questions that a desk answers.
ghost use Rattle.std.specs.Prelude.{◌≡◌, ◌<◌, ◌^◌, length, IfOk, Result};
ghost use Rattle.std.specs.List.{All};
ghost use Rattle.reg_base.specs.Documents.{HasShortSets};
ghost use Rattle.reg_base.specs.Tries.{Tries};
ghost use Rattle.desk_words.specs.declared.reply.Refusal.{Refusal as RefusalOf};
ghost use Rattle.desk_words.specs.declared.request.Request.TheVariants as RequestIs;
ghost use Rattle.desk_model.specs.Plans.{Question};
ghost use Rattle.desk_model.specs.Questions.{IsAnswer, question_doc};
ghost use Rattle.desk_model.specs.State.{Desk as DeskOf};
ghost use Rattle.desk_model.specs.Stops.{Stop, or_stop};
ghost use Rattle.desk_model.specs.Serial.{question_answer, question_effect};
ghost use Rattle.desk_core.specs.Outcomes.{IsReplied};
ghost use Rattle.desk_core.specs.Ways.{deed_in};
ghost use Rattle.desk_core.specs.declared.way.Way.{Way as WayOf};

use crate::desk::Desk;
use desk_plans::{PartFault, Tried, shown_document};
use desk_tables::{
    answer_account_balance, answer_account_both, answer_account_turnovers, answer_balance,
    answer_both, answer_documents, answer_pairs, answer_turnovers,
};
use desk_words::{
    AccountBalance, AccountTurnovers, Answer, Balance, Both, DocQuestion, DocumentsQuestion, DrCr,
    Refusal, Reply, Turnovers,
};
use doc_store::Documents;
use reg_base::Memory;
use std::alloc::Global;

impl Desk {
    pub(crate) fn balance_reply(&self, alloc: Global, question: &Balance) -> Result<Reply, Memory>
        ensures { (way : WayOf) (tested : Result (Unit {0}) Stop) → IfOk result (IsReplied
            self.now.desk (or_stop (deed_in way tested self.now.desk (RequestIs.Balance
            question.now)))) }
    {
        answered(answer_balance(alloc, self.config(), self.walk(), question))
    }

    pub(crate) fn turnovers_reply(
        &self,
        alloc: Global,
        question: &Turnovers,
    ) -> Result<Reply, Memory>
        ensures { (way : WayOf) (tested : Result (Unit {0}) Stop) → IfOk result (IsReplied
            self.now.desk (or_stop (deed_in way tested self.now.desk (RequestIs.Turnovers
            question.now)))) }
    {
        answered(answer_turnovers(alloc, self.config(), self.walk(), question))
    }

    pub(crate) fn both_reply(&self, alloc: Global, question: &Both) -> Result<Reply, Memory>
        ensures { (way : WayOf) (tested : Result (Unit {0}) Stop) → IfOk result (IsReplied
            self.now.desk (or_stop (deed_in way tested self.now.desk (RequestIs.Both
            question.now)))) }
    {
        answered(answer_both(alloc, self.config(), self.walk(), question))
    }

    pub(crate) fn account_balance_reply(
        &self,
        alloc: Global,
        question: &AccountBalance,
    ) -> Result<Reply, Memory>
        ensures { (way : WayOf) (tested : Result (Unit {0}) Stop) → IfOk result (IsReplied
            self.now.desk (or_stop (deed_in way tested self.now.desk (RequestIs.AccountBalance
            question.now)))) }
    {
        answered(answer_account_balance(alloc, self.config(), self.walk(), question))
    }

    pub(crate) fn account_turnovers_reply(
        &self,
        alloc: Global,
        question: &AccountTurnovers,
    ) -> Result<Reply, Memory>
        ensures { (way : WayOf) (tested : Result (Unit {0}) Stop) → IfOk result (IsReplied
            self.now.desk (or_stop (deed_in way tested self.now.desk (RequestIs.AccountTurnovers
            question.now)))) }
    {
        answered(answer_account_turnovers(alloc, self.config(), self.walk(), question))
    }

    pub(crate) fn account_both_reply(
        &self,
        alloc: Global,
        question: &AccountTurnovers,
    ) -> Result<Reply, Memory>
        ensures { (way : WayOf) (tested : Result (Unit {0}) Stop) → IfOk result (IsReplied
            self.now.desk (or_stop (deed_in way tested self.now.desk (RequestIs.AccountBoth
            question.now)))) }
    {
        answered(answer_account_both(alloc, self.config(), self.walk(), question))
    }

    pub(crate) fn pairs_reply(&self, alloc: Global, question: &DrCr) -> Result<Reply, Memory>
        ensures { (way : WayOf) (tested : Result (Unit {0}) Stop) → IfOk result (IsReplied
            self.now.desk (or_stop (deed_in way tested self.now.desk (RequestIs.DrCr
            question.now)))) }
    {
        answered(answer_pairs(alloc, self.config(), self.walk(), question))
    }

    pub(crate) fn documents_reply(
        &self,
        alloc: Global,
        question: &DocumentsQuestion,
    ) -> Result<Reply, Memory>
        ensures { (way : WayOf) (tested : Result (Unit {0}) Stop) → IfOk result (IsReplied
            self.now.desk (or_stop (deed_in way tested self.now.desk (RequestIs.Documents
            question.now)))) }
    {
        answered(answer_documents(alloc, self.config(), &self.store, question))
    }

    pub(crate) fn show_reply(&self, alloc: Global, question: &DocQuestion) -> Result<Reply, Memory>
        ensures { (way : WayOf) (tested : Result (Unit {0}) Stop) → IfOk result (IsReplied
            self.now.desk (or_stop (deed_in way tested self.now.desk (RequestIs.Doc question.now)))) }
    {
        answered(self.show(alloc, question))
    }

    // The document as it is shown.
    #[tactic(auto, unfolding(desk_model::specs::Serial::question_answer, desk_model::specs::Serial::answer_to))]
    fn show(&self, alloc: Global, question: &DocQuestion) -> Tried<Answer>
        ensures value { Tries result (question_answer self.now.desk.serial.documents
            (question_doc self.now.desk.setting.config question.now)) }
        ensures answer { IfOk result IsAnswer }
    {
        let Some(document) = self.store.document(question.doc) else {
            return Err(PartFault::Refused(Refusal::UnknownDoc));
        };
        let shown = shown_document(alloc, &self.config, document)?;
        Ok(Answer::Shown(shown))
    }

    // The documents, in order of number.
    fn walk(&self) -> Documents<'_>
        ensures value { result ≡ self.now.desk.serial.documents }
        ensures few { length result < 2 ^ 32 }
        ensures short { All HasShortSets result }
    {
        self.store.walk()
    }
}

// What a question comes to that was answered, or refused.
fn answered(tried: Tried<Answer>) -> Result<Reply, Memory>
    requires { IfOk tried IsAnswer }
    ensures { (desk : DeskOf) (question : Result Question RefusalOf)
        → Tries tried (question_answer desk.serial.documents question)
        → IfOk result (IsReplied desk (or_stop (question_effect desk.serial question))) }
{
    match tried {
        Ok(answer) => Ok(Reply::Done(answer)),
        Err(PartFault::Refused(refusal)) => Ok(Reply::Refused(refusal)),
        Err(PartFault::Memory) => Err(Memory),
    }
}
