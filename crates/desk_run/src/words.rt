//! The words of a call, and what they ask.
ghost use Rattle.std.specs.Prelude.{◌≡◌, map, option_map, string_bytes};
ghost use Rattle.desk_run.specs.Words.{task_alone, task_of_file, task_of_report, under};
ghost use Rattle.desk_run.specs.Words.{call_of as call_of_words};
ghost use Rattle.desk_run.specs.WordViews.{call_view};

/// What a call is asked to do, and under which configuration.
#[derive(Clone, Copy, Drop)]
pub struct Call<'a> {
    /// The name of the configuration's file.
    pub config: &'a str,
    pub task: Task<'a>,
}

/// What a call is asked to do.
#[derive(Clone, Copy, Drop)]
pub enum Task<'a> {
    /// To answer the lines of the input.
    Run,
    /// To count what the journal holds.
    Check,
    /// To report on the documents, a ledger or a register over a range of dates.
    Report {
        name: &'a str,
        from: &'a str,
        to: &'a str,
    },
    /// To post the documents in the file of a name.
    Import {
        file: &'a str,
    },
}

/// The call that the words are, where they are one of the lists.
pub fn call_of(words: &[String]) -> Option<Call<'_>>
    ensures { option_map call_view result
        ≡ call_of_words (map (λ w. string_bytes w) words.now) }
{
    match words {
        [word, config] => alone(word.as_str(), config.as_str()),
        [word, config, file] => import(word.as_str(), config.as_str(), file.as_str()),
        [word, config, name, from, to] => {
            report(
                word.as_str(),
                config.as_str(),
                name.as_str(),
                from.as_str(),
                to.as_str(),
            )
        }
        _ => None,
    }
}

// The call of a word that stands with its configuration alone.
fn alone<'a>(word: &str, config: &'a str) -> Option<Call<'a>>
    ensures { option_map call_view result ≡ under config.now (task_alone word.now) }
{
    if word == "run" {
        Some(Call {
            config,
            task: Task::Run,
        })
    } else if word == "check" {
        Some(Call {
            config,
            task: Task::Check,
        })
    } else {
        None
    }
}

// The call of a word and a file.
fn import<'a>(word: &str, config: &'a str, file: &'a str) -> Option<Call<'a>>
    ensures { option_map call_view result ≡ under config.now (task_of_file word.now file.now) }
{
    if word == "import" {
        Some(Call {
            config,
            task: Task::Import { file },
        })
    } else {
        None
    }
}

// The call of a word, a name and two dates.
fn report<'a>(
    word: &str,
    config: &'a str,
    name: &'a str,
    from: &'a str,
    to: &'a str,
) -> Option<Call<'a>>
    ensures { option_map call_view result
        ≡ under config.now (task_of_report word.now name.now from.now to.now) }
{
    if word == "report" {
        Some(Call {
            config,
            task: Task::Report { name, from, to },
        })
    } else {
        None
    }
}
