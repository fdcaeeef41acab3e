//! Certificates as data.
use sd_base::NoMemory;
use sd_cert::{CertError, digests_of, read_certificate, spell_certificate};
use sd_kernel::{How, NodeLine, RowLine, Step};

const EACH_LINE: &[u8] = b"symdiff-certificate 1
old e3b0c44298fc1c149afbf4c8996fb92427ae41e4649b934ca495991b7852b855
new e3b0c44298fc1c149afbf4c8996fb92427ae41e4649b934ca495991b7852b855
settings e3b0c44298fc1c149afbf4c8996fb92427ae41e4649b934ca495991b7852b855
pairs 1
pair 0 open
candidate 1
term eq 0 1
term le 2 3
term read 4 5
term diff 6 4294967295
split 7
order 8 9 10
ite 11 12
chain 13 14 15
chain 16
rows 4
fact 17
back 18
add 0 1 1 18446744073709551615
cut 2
rows 0
close 19
end
";

/// Whether the step is the one with this number among those.
fn is_step(number: usize, step: &Step) -> bool {
    match step {
        Step::Term(NodeLine::Eq(0, 1)) => number == 0,
        Step::Term(NodeLine::Le(2, 3)) => number == 1,
        Step::Term(NodeLine::Read(4, 5)) => number == 2,
        Step::Term(NodeLine::Diff(6, 4294967295)) => number == 3,
        Step::Split(7) => number == 4,
        Step::Order(8, 9, 10) => number == 5,
        Step::Ite(11, 12) => number == 6,
        Step::Chain(13, links) => number == 7 && matches!(links.as_slice(), [14, 15]),
        Step::Chain(16, links) => number == 8 && links.is_empty(),
        Step::Rows(rows) => match rows.as_slice() {
            [] => number == 10,
            [first, second, third, fourth] => {
                number == 9
                    && *first == RowLine::Fact(17)
                    && *second == RowLine::Back(18)
                    && *third == RowLine::Add(0, 1, 1, 18446744073709551615)
                    && *fourth == RowLine::Cut(2)
            }
            _ => false,
        },
        Step::Close(19) => number == 11,
        _ => false,
    }
}

#[test]
fn each_line_is_read_and_spelled_again(rt: HostRuntime) -> Result<(), NoMemory> {
    let alloc = rt.alloc();
    let Ok(certificate) = read_certificate(alloc, EACH_LINE) else {
        return Err(NoMemory);
    };
    assert!(rt; certificate.digests == digests_of(b"", b"", b""));
    assert!(rt; certificate.pairs.len() == 1);
    for pair in certificate.pairs.as_slice() {
        assert!(rt; pair.proved.len() == 1);
        for proved in pair.proved.as_slice() {
            let How::Steps(proof) = &proved.how;
            assert!(rt; proof.steps.len() == 12);
            for (i, step) in proof.steps.as_slice().iter().enumerate() {
                assert!(rt; is_step(i, step));
            }
        }
    }
    assert!(rt; spell_certificate(alloc, &certificate)?.as_slice() == EACH_LINE);
    Ok(())
}

#[test]
fn a_line_that_has_no_form_is_named(rt: HostRuntime) {
    let cut = &EACH_LINE[..EACH_LINE.len() - 1];
    assert!(rt; matches!(read_certificate(rt.alloc(), cut), Err(CertError::Line(24))));
}
