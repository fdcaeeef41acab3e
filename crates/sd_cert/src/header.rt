//! The headers of pairs.
ghost use Rattle.std.specs.Prelude.{◌≡◌, ◌<◌, ◌^◌, IfOk, length};
ghost use Rattle.sd_cert.specs.Headers.{state_of, headers_of};

use crate::line::CertState;
use sd_base::NoMemory;
use sd_match::PairState;
use sd_product::Work;
use std::alloc::Global;

/// The header of a pair, which the pair of a certificate must fit: its state, and how many candidates it has.
#[derive(Clone, Copy, Debug, PartialEq, Eq)]
pub struct PairHeader {
    pub state: CertState,
    pub candidates: u32,
}

/// What a certificate says of a pair with this state.
fn state_of(state: &PairState) -> CertState
    ensures { result ≡ state_of state.now }
{
    match state {
        PairState::Open => CertState::Open,
        _ => CertState::Refused,
    }
}

/// The headers of all pairs.
pub fn headers_of(alloc: Global, work: &Work) -> Result<Vec<PairHeader>, NoMemory>
    ensures headers { IfOk result (λ headers. headers.items ≡ headers_of work.now) }
    ensures count { IfOk result (λ headers. length headers.items < 2 ^ 32) }
{
    let pairs = work.pairs();
    let mut headers = Vec::new(alloc);
    for i in 0..pairs.len() {
        let (first, end) = work.numbers_of(i);
        headers.push(PairHeader {
            state: state_of(&pairs.pair(i).state),
            candidates: end - first,
        })?;
    }
    Ok(headers)
}
