//! From a request to its canonical text.
ghost use Rattle.std.specs.Prelude.{◌≡◌, ◌++◌, OnOk, OnErr};
ghost use Rattle.desk_words.specs.RequestTexts.{request_text};

use crate::json_values::print_value;
use crate::request::Request;
use crate::request_values::request_value;
use reg_base::Memory;
use std::alloc::Global;

impl Request {
    /// Appends the canonical text of the request: compact JSON, members in byte order, dates in
    /// the long form. What is absent stays absent.
    #[tactic(auto, unfolding(crate::specs::RequestTexts::request_text))]
    pub fn print(&self, alloc: Global, out: &mut Vec<u8>) -> Result<(), Memory>
        ensures ok { OnOk result (out.new.items ≡ out.old.items ++ request_text self.now) }
        ensures err { OnErr result (out.new.items ≡ out.old.items) }
    {
        let value = request_value(alloc, self)?;
        print_value(alloc, &value, out)
    }
}
