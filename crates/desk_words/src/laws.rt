//! Laws over the definitions, the contracts of functions that do nothing.
ghost use Rattle.std.specs.Prelude.{◌≡◌, ℕ, List, Ok, Some};
ghost use Rattle.std.specs.Cmp.Lexicographic.{slice_cmp};
ghost use Rattle.std.specs.List.Sorted.{IsStrictlySortedBy};
ghost use Rattle.std.specs.Ordering.{nat_cmp};
ghost use Rattle.serde_json.specs.Data.{Members, object};
ghost use Rattle.reg_base.specs.declared.line.Line.TheVariants.{Text};
ghost use Rattle.desk_words.specs.declared.request.Request.{Request as RequestOf};
ghost use Rattle.desk_words.specs.Members.{member_names};
ghost use Rattle.desk_words.specs.Reading.{json_document, request};
ghost use Rattle.desk_words.specs.RequestTexts.{request_text};
ghost use Rattle.desk_words.specs.WellFormed.{IsRequest};

/// The canonical text of a request, as `Request::print` writes it, is read as that request. Every
/// request that is read is well formed, as `Request::read` says.
pub fn requests_read_back()
    ensures { (r : RequestOf) → IsRequest r → request (Text (request_text r)) ≡ Ok r }
{}

/// The members of an object that a line is read as stand in byte order of their names, each once:
/// so the first of them that is unknown is the least.
pub fn members_ascend()
    ensures { (bytes : List ℕ) (members : Members) → json_document bytes ≡ Some (object members)
        → IsStrictlySortedBy (slice_cmp nat_cmp) (member_names members) }
{}
