//! Reads the octets of a file from a source.
ghost use Rattle.std.specs.Prelude.{◌≡◌, ◌-◌, ◌^◌, ◌<◌, ◌≤◌, ◌⊎◌, length, IfOk, IfErr};
ghost use Rattle.dns_master.specs.SourceForm.{AppendsPiece};
ghost use Rattle.dns_master.specs.Codes.{failures_after_read};

use crate::read_fault::{ReadCode, ReadFault};
use dns_name::Tally;
use std::io::Read;

/// The most octets that a file may have.
pub(crate) const MOST_FILE_OCTETS: usize = 16_777_216;

/// The number of octets that each read asks for.
pub(crate) const PIECE: usize = 4_096;

/// Reads at most `asked` octets, in one call, and appends them to `text`. Returns false at the end
/// of the source.
pub(crate) fn append_piece<R: Read>(
    source: &mut Tally<R>,
    asked: usize,
    piece: &mut [u8],
    text: &mut Vec<u8>,
) -> Result<bool, ReadFault>
    requires count { source.old.failures < 2 ^ 64 - 1 }
    requires some { 0 < asked }
    requires room { asked ≤ length piece.old }
    ensures ok { IfOk result (λ more. AppendsPiece (R.remaining source.old.device)
        (R.remaining source.new.device) asked text.old.items text.new.items more) }
    ensures same { length piece.new ≡ length piece.old }
    ensures err { IfErr result (λ f. ((f.code ≡ ReadCode.SourceFailed)
        ⊎ (f.code ≡ ReadCode.NoMemory)) × (f.line ≡ 0)) }
    ensures counted { source.new.failures ≡ failures_after_read source.old.failures result }
{
    let (front, _) = piece.split_at_mut(asked);
    let Ok(count) = source.read(front) else {
        return Err(ReadFault {
            code: ReadCode::SourceFailed,
            line: 0,
        });
    };
    let (came, _) = front.split_at(count);
    text.extend_from_slice(came)?;
    Ok(count > 0)
}
