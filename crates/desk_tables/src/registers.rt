//! Tables of registers.
ghost use Rattle.std.specs.Prelude.{◌≡◌, ◌<◌, ◌^◌, length, map, IfOk};
ghost use Rattle.std.specs.List.{All};
ghost use Rattle.reg_base.specs.Documents.{HasShortSets};
ghost use Rattle.cfg_model.specs.Limits.{IsWithinLimits};
ghost use Rattle.reg_base.specs.Tries.{Tries};
ghost use Rattle.desk_model.specs.Questions.{range_of as range_of_dates};
ghost use Rattle.desk_model.specs.RegisterQuestions.{scales_of as scales_of_register};
ghost use Rattle.desk_model.specs.RegisterQuestions.{question_balance, question_turnovers};
ghost use Rattle.desk_model.specs.RegisterQuestions.{question_both};
ghost use Rattle.desk_model.specs.Questions.{IsAnswer};
ghost use Rattle.desk_model.specs.Serial.{question_answer};

use crate::asked::{refused, register_asked};
use cfg_model::{Config, Register};
use desk_plans::Tried;
use desk_words::{Answer, AskedDates, Balance, Both, Turnovers};
use doc_store::Documents;
use reg_base::{Cut, Date, List, Memory, Method, Periodicity, Range, Scale};
use std::alloc::Global;
use virt_tables::{balance, balance_and_turnovers, turnovers};

/// What `balance` is answered.
pub fn answer_balance(
    alloc: Global,
    config: &Config,
    documents: Documents<'_>,
    question: &Balance,
) -> Tried<Answer>
    requires limits { IsWithinLimits config.now }
    requires few { length documents < 2 ^ 32 }
    requires short { All HasShortSets documents }
    ensures value { Tries result (question_answer documents.entry
        (question_balance config.now question.now)) }
    ensures answer { IfOk result IsAnswer }
{
    let asking = register_asked(alloc, config, &question.register, true)?;
    let cut = question.cut.unwrap_or(Cut::Now);
    let resources = asking.register.resources.len();
    let rows = refused(balance(alloc, &asking.ask, &cut, resources, documents))?;
    let scales = scales_of(alloc, asking.register)?;
    Ok(Answer::Balance { rows, scales })
}

/// What `turnovers` is answered.
pub fn answer_turnovers(
    alloc: Global,
    config: &Config,
    documents: Documents<'_>,
    question: &Turnovers,
) -> Tried<Answer>
    requires limits { IsWithinLimits config.now }
    requires few { length documents < 2 ^ 32 }
    requires short { All HasShortSets documents }
    ensures value { Tries result (question_answer documents.entry
        (question_turnovers config.now question.now)) }
    ensures answer { IfOk result IsAnswer }
{
    let asking = register_asked(alloc, config, &question.register, false)?;
    let range = range_of(&question.dates, &question.by);
    let rows = refused(turnovers(alloc, &asking.ask, &range, asking.register, documents))?;
    let scales = scales_of(alloc, asking.register)?;
    Ok(Answer::Turnovers {
        balances: asking.register.balance,
        rows,
        scales,
    })
}

/// What `both` is answered.
pub fn answer_both(
    alloc: Global,
    config: &Config,
    documents: Documents<'_>,
    question: &Both,
) -> Tried<Answer>
    requires limits { IsWithinLimits config.now }
    requires few { length documents < 2 ^ 32 }
    requires short { All HasShortSets documents }
    ensures value { Tries result (question_answer documents.entry (question_both config.now question.now)) }
    ensures answer { IfOk result IsAnswer }
{
    let asked = &question.turnovers;
    let asking = register_asked(alloc, config, &asked.register, true)?;
    let range = range_of(&asked.dates, &asked.by);
    let method = question.method.unwrap_or(Method::Movements);
    let rows = refused(balance_and_turnovers(
        alloc,
        &asking.ask,
        &range,
        method,
        asking.register,
        documents,
    ))?;
    let scales = scales_of(alloc, asking.register)?;
    Ok(Answer::Both { rows, scales })
}

// The dates that are asked for, all where none are given, in units or as a whole.
pub(crate) fn range_of(dates: &AskedDates, by: &Option<Periodicity>) -> Range
    ensures { result ≡ range_of_dates dates.now by.now }
{
    Range {
        from: dates.from.unwrap_or(Date::first()),
        to: dates.to.unwrap_or(Date::last()),
        by: by.unwrap_or(Periodicity::Period),
    }
}

// How many decimals each resource has.
fn scales_of(alloc: Global, register: &Register) -> Result<List<Scale>, Memory>
    ensures { IfOk result (λ scales. scales ≡ scales_of_register register.now) }
{
    let mut scales = Vec::new(alloc);
    'resources: for resource in register.resources.as_slice() {
        scales.push(resource.scale)?;
    }
    Ok(List::from_vec(scales))
}
