ghost use Rattle.std.specs.Prelude.{◌≡◌, ◌≢◌, ◌≤◌, ◌<◌, ◌+◌, ◌^◌, ℕ, length, take, IfOk, IsErrOf};
ghost use Rattle.sd_base.specs.Causes.{Rose, NeverFall, NoFault};
ghost use Rattle.sd_base.specs.Outside.{WhereKnown, AllStay};

use crate::Files;
use std::alloc::Global;

/// Why a file wasn't read.
#[derive(Clone, Copy, Debug, PartialEq, Eq)]
pub enum ReadFault {
    Memory,
    Failed,
}

/// How many bytes a reading asks for at once.
const PIECE: usize = 65536;

/// Reads a file to its end, or to one byte more than the limit.
pub fn read_up_to<F: Files>(
    alloc: Global,
    files: &mut F,
    name: &str,
    limit: usize,
) -> Result<Vec<u8>, ReadFault>
    requires { limit < 2 ^ 63 }
    ensures front { IfOk result (λ text.
        WhereKnown (F.content files.old name.now) (λ bytes. text.items ≡ take (limit + 1) bytes)) }
    ensures length { IfOk result (λ text. length text.items ≤ limit + 1) }
    ensures stay { AllStay F.content files.old files.new }
    ensures cause { IsErrOf result ReadFault.Failed
        → Rose (F.read_faults files.old name.now) (F.read_faults files.new name.now) }
    ensures reads { NeverFall (F.read_faults files.old) (F.read_faults files.new) }
    ensures starts { NeverFall (F.start_faults files.old) (F.start_faults files.new) }
    ensures appends { NeverFall (F.append_faults files.old) (F.append_faults files.new) }
    ensures no_fault { result ≢ Err ReadFault.Failed
        → NoFault F.read_faults F.start_faults F.append_faults files.old files.new }
{
    let mut text = Vec::new(alloc);
    let mut piece = [0u8; PIECE];
    'pieces: while text.len() <= limit {
        let wanted = PIECE.min(limit + 1 - text.len());
        let part = &mut piece[..wanted];
        let Ok(count) = files.read_at(name, text.len() as u64, part) else {
            return Err(ReadFault::Failed);
        };
        if count == 0 {
            break;
        }
        if text.extend_from_slice(&part[..count]).is_err() {
            return Err(ReadFault::Memory);
        }
    }
    Ok(text)
}
