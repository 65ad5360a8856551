//! A certificate worked out by hand: read, written again, and refused once it is changed. The sum was
//! computed by another program.
use office_evidence::read_certificate;
use std::test::Fail;

const TEXT: &str =
    "CERTIFICATE 7\nDAY 2022-05-02\nBY R. Halloran, records manager\nENDED 1\nSENT 1\nSKIPPED 1\nENTRY\t2\tsent\tMIN/1\tGEN-MIN\tMIN-5\t2022-01-01\t-\tR. Halloran\t37\t1f45f8d3b316c8a0eb18b26cd8c77509a96d89e6805a7b22ad62d9c2e8d880cc\nENTRY\t8\tdestroyed\tAPP/18-07\tPER-APP\tAPP-6M\t2019-01-30\t-\tR. Halloran\t23\te09985df756b0a3c0d0c12c48ca40cd7b831bcc58aac2bd8bae6b7a9d4788265\nENTRY\t10\tskipped\tEVT/1\tEVT-PER\tEVT-2\t3400-12-31\tQ-2020-17\tR. Halloran\t48\t5865a7f18cd73491796ca865954500cea52f8db12c9bee40241d2756dcfa2586\nSPENT 1\nAGGREGATION\t3\tAPP/18\nSHA256 060952ab3d0beea9d88a8529781a1ea931473ec20c31358ef0023ad3529baca9\n";

/// The same with the line of its last entry left out, and its own sum.
const SHORTER: &str =
    "CERTIFICATE 7\nDAY 2022-05-02\nBY R. Halloran, records manager\nENDED 1\nSENT 1\nSKIPPED 1\nENTRY\t2\tsent\tMIN/1\tGEN-MIN\tMIN-5\t2022-01-01\t-\tR. Halloran\t37\t1f45f8d3b316c8a0eb18b26cd8c77509a96d89e6805a7b22ad62d9c2e8d880cc\nENTRY\t8\tdestroyed\tAPP/18-07\tPER-APP\tAPP-6M\t2019-01-30\t-\tR. Halloran\t23\te09985df756b0a3c0d0c12c48ca40cd7b831bcc58aac2bd8bae6b7a9d4788265\nSPENT 1\nAGGREGATION\t3\tAPP/18\nSHA256 b66b9b5dce9248d7b95e45e6400a967ecc1b85e35b4852a0e5cc331b231e7b67\n";

#[test]
fn a_certificate_is_read(rt: HostRuntime) -> Result<(), Fail> {
    let read = read_certificate(rt.alloc(), TEXT)?.ok_or("it is none")?;
    assert_eq!(rt; read.run, 7);
    assert_eq!(rt; read.entries.len(), 3);
    assert_eq!(rt; read.entries[2].record_no, 10);
    assert_eq!(rt; read.entries[2].due.number(), 522_661);
    assert_eq!(rt; read.spent.len(), 1);
    assert_eq!(rt; read.text(rt.alloc())?.as_str(), TEXT);
    Ok(())
}

#[test]
fn a_line_less_is_no_certificate(rt: HostRuntime) -> Result<(), Fail> {
    let read = read_certificate(rt.alloc(), SHORTER)?;
    assert!(rt; read.is_none());
    Ok(())
}
