//! The index of documents by key: pairs of a key and a number, in order of key, then number.
ghost use Rattle.std.specs.Prelude.{◌≡◌};
ghost use Rattle.reg_base.specs.Documents.{is_key as is_key_of};
ghost use Rattle.doc_store.specs.Pairs.{KeepsPairs};

use reg_base::Code;
use std::collections::BTreeSet;

/// A key with the number of a document that may have it.
#[derive(Clone, Copy, PartialEq, Eq, PartialOrd, Ord)]
pub struct KeyPlace {
    pub key: Code,
    pub number: u32,
}

/// Takes the pair of a document's former key out, unless the key stays.
pub fn forget_key(
    keys: &mut BTreeSet<KeyPlace>,
    former: Option<Code>,
    number: u32,
    stays: Option<Code>,
)
    ensures { KeepsPairs number stays keys.old keys.new }
{
    if let Some(key) = former {
        if !is_key(&key, stays) {
            keys.remove(&KeyPlace { key, number });
        }
    }
}

/// Whether a document's key is this one.
pub fn is_key(key: &Code, own: Option<Code>) -> bool
    ensures { result ≡ is_key_of key.now own }
{
    match own {
        Some(own) => own == *key,
        None => false,
    }
}
