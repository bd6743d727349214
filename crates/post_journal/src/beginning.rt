//! How a file begins, by its first 23 bytes.
ghost use Rattle.std.specs.Prelude.{◌≡◌, ◌<◌, ℕ, List, length, take, min, IfSome, IfOk};
ghost use Rattle.reg_io.specs.Counts.{HasCause};
ghost use Rattle.reg_io.specs.Disks.{Stays};
ghost use Rattle.post_journal.specs.Openings.{beginning_of};
ghost use Rattle.post_journal.specs.declared.beginning.Beginning.TheVariants.{Begun};

use reg_io::{Disk, Failed};

/// The first entry.
const FIRST_ENTRY: [u8; 22] = *b"\x01\x00\x00\x00\x11regdesk journal 1";

/// How a file begins.
#[derive(Clone, Copy, Debug, PartialEq, Eq)]
pub(crate) enum Beginning {
    /// It is to be begun; its first gate byte is to be closed before.
    Empty,
    /// It is to be begun.
    Fresh,
    /// The first entry stands in it.
    Begun,
    /// It is no journal.
    Other,
}

// How the file of this length begins.
pub(crate) fn read_beginning<D: Disk>(disk: &mut D, len: u64) -> Result<Beginning, Failed>
    requires { IfSome (D.state disk.old).content (λ bytes. len ≡ length bytes) }
    ensures kind { IfOk result (λ kind. IfSome (D.state disk.old).content
        (λ bytes. kind ≡ beginning_of bytes)) }
    ensures long { IfOk result (λ kind. kind ≡ Begun → 22 < len) }
    ensures stays { Stays (D.state disk.old) (D.state disk.new) }
    ensures cause { HasCause (D.faults disk.old) (D.faults disk.new) result }
    ensures same { D.borrow_name disk.new ≡ D.borrow_name disk.old }
{
    let mut room = [0; 23];
    let count = len.min(23) as usize;
    let front = &mut room[..count];
    disk.read(0, front)?;
    Ok(beginning_by(front, len))
}

// How a file of this length begins, by its first 23 bytes.
fn beginning_by(front: &[u8], len: u64) -> Beginning
    requires { length front.now ≡ min len 23 }
    ensures kind { (bytes : List ℕ) → len ≡ length bytes → front.now ≡ take 23 bytes
        → result ≡ beginning_of bytes }
    ensures long { result ≡ Begun → 22 < len }
{
    let is_open = match front {
        [gate, ..] => *gate == 1,
        _ => false,
    };
    if len <= 1 || (len <= 23 && !is_open) {
        if len == 0 || (len == 1 && is_open) {
            return Beginning::Empty;
        }
        return Beginning::Fresh;
    }
    if len <= 22 {
        return Beginning::Other;
    }
    if &front[..22] == FIRST_ENTRY.as_slice() {
        return Beginning::Begun;
    }
    Beginning::Other
}
