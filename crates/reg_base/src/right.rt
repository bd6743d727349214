//! What a clerk may be allowed to do.
ghost use Rattle.std.specs.Prelude.{◌≡◌};
ghost use Rattle.reg_base.specs.Rights.{right_word};

/// A right of a clerk, as a configuration gives it and a request asks for it.
#[derive(Clone, Copy, PartialEq, Eq, Debug)]
pub enum Right {
    Write,
    Post,
    Manual,
    Read,
    Lock,
    Admin,
}

impl Right {
    /// The word of the right, as a configuration and a refusal write it.
    #[tactic(auto, unfolding(crate::specs::Rights::right_word))]
    pub fn word(self) -> &'static str
        ensures { result.now ≡ right_word self }
    {
        match self {
            Right::Write => "write",
            Right::Post => "post",
            Right::Manual => "manual",
            Right::Read => "read",
            Right::Lock => "lock",
            Right::Admin => "admin",
        }
    }
}
