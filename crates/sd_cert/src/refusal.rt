//! Lines that are not those of the headers and digests.
ghost use Rattle.std.specs.Prelude.{◌≡◌, ◌<◌, ◌^◌, ◌+◌, length, slice_get};
ghost use Rattle.sd_cert.specs.Refusals.{fault_unless, has_state, candidate_count, position_after};
ghost use Rattle.sd_cert.specs.Refusals.{refusal, first_position, first_refusal};

use crate::digest::Digests;
use crate::fault::CertError;
use crate::header::PairHeader;
use crate::line::{CertState, Line};

/// Where a line stands: below the line of a pair, with the least number that its next candidate can have.
#[derive(Clone, Copy, Debug)]
pub(crate) struct Position {
    pub pair: u32,
    pub least: u64,
}

fn fault_unless(holds: bool, fault: CertError) -> Option<CertError>
    ensures { result ≡ fault_unless holds fault }
{
    if holds { None } else { Some(fault) }
}

/// Whether the pair with this number has this state.
fn has_state(headers: &[PairHeader], pair: u32, state: CertState) -> bool
    ensures { result ≡ has_state (slice_get headers.now pair) state }
{
    match headers.get(pair as usize) {
        Some(found) => match state {
            CertState::Open => matches!(found.state, CertState::Open),
            CertState::Refused => matches!(found.state, CertState::Refused),
        },
        None => false,
    }
}

/// How many candidates the pair with this number has.
fn candidate_count(headers: &[PairHeader], pair: u32) -> u64
    ensures { result ≡ candidate_count (slice_get headers.now pair) }
{
    match headers.get(pair as usize) {
        Some(found) => found.candidates as u64,
        None => 0,
    }
}

/// Why a line is refused.
fn refusal(
    headers: &[PairHeader],
    digests: &Digests,
    position: Position,
    line: &Line,
) -> Option<CertError>
    requires { length headers.now < 2 ^ 32 }
    ensures { result ≡ refusal headers.now digests.now position line.now }
{
    match line {
        Line::Old(old) => fault_unless(*old == digests.old, CertError::OtherOld),
        Line::New(new) => fault_unless(*new == digests.new, CertError::OtherNew),
        Line::Settings(settings) => {
            fault_unless(*settings == digests.settings, CertError::OtherSettings)
        }
        Line::Pairs(count) => {
            let own = headers.len() as u64;
            fault_unless(*count == own, CertError::Pair((*count).min(own) as u32))
        }
        Line::Pair(pair, state) => fault_unless(
            has_state(headers, *pair, *state),
            CertError::Pair(*pair),
        ),
        Line::Candidate(candidate) => {
            let number = *candidate as u64;
            let count = candidate_count(headers, position.pair);
            fault_unless(
                position.least <= number && number < count,
                CertError::Pair(position.pair),
            )
        }
        _ => None,
    }
}

fn position_after(position: Position, line: &Line) -> Position
    ensures { result ≡ position_after position line.now }
{
    match line {
        Line::Pair(pair, _) => Position {
            pair: *pair,
            least: 0,
        },
        Line::Candidate(candidate) => Position {
            pair: position.pair,
            least: *candidate as u64 + 1,
        },
        _ => position,
    }
}

/// Why the first of these lines that is refused is refused, if one is.
pub(crate) fn first_refusal(
    headers: &[PairHeader],
    digests: &Digests,
    lines: &[Line],
) -> Option<CertError>
    requires { length headers.now < 2 ^ 32 }
    ensures { result ≡ first_refusal headers.now digests.now first_position lines.now }
{
    let mut position = Position { pair: 0, least: 0 };
    for line in lines {
        if let Some(fault) = refusal(headers, digests, position, line) {
            return Some(fault);
        }
        position = position_after(position, line);
    }
    None
}
