//! A line as it stands, told without its end.
ghost use Rattle.std.specs.Prelude.{◌≡◌, true, false, IfOk, if◌then◌else◌};
ghost use Rattle.reg_io.specs.Lines.{line_of, raw_text, without_return};

use crate::line::MOST_LINE_BYTES;
use reg_base::{Line, List};
use std::alloc::{AllocError, Global};

// The line of these bytes, behind which a line feed stood where it is ended.
pub(crate) fn told_line(alloc: Global, content: &[u8], ended: bool) -> Result<Line, AllocError>
    ensures { IfOk result (λ line. line
        ≡ line_of (record { content = content.now; ended = ended })) }
{
    let bytes = content.len() as u64;
    if bytes > MOST_LINE_BYTES {
        return Ok(Line::TooLong { bytes });
    }
    let text = if ended {
        without_return(content)
    } else {
        content
    };
    let bytes = List::from_slice(alloc, text)?;
    Ok(Line::Text { bytes })
}

// The bytes without a carriage return at their end.
fn without_return(content: &[u8]) -> &[u8]
    ensures { result.now ≡ without_return content.now }
{
    let Some(end) = content.len().checked_sub(1) else {
        return content;
    };
    if content[end] == b'\r' {
        &content[..end]
    } else {
        content
    }
}
