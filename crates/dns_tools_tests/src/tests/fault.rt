use dns_serve::{StreamFault, TurnFault};
use dns_tools::{FaultText, Stop, exit_status};
use std::alloc::Global;
use std::fmt::Display;
use std::test::Fail;

#[test]
fn statuses_of_an_engine(rt: HostRuntime) {
    assert_eq!(rt; exit_status(&Ok(true)), 0);
    assert_eq!(rt; exit_status(&Ok(false)), 1);
    for stop in [Stop::Memory, Stop::Source, Stop::Sink] {
        assert_eq!(rt; exit_status(&Err(stop)), 2);
    }
}

fn shows(alloc: Global, fault: impl Display + Drop, text: &str) -> Result<bool, Fail> {
    Ok(fault.to_string(alloc)?.as_str() == text)
}

#[test]
fn texts_of_faults(rt: HostRuntime) -> Result<(), Fail> {
    let alloc = rt.alloc();
    assert!(rt; shows(alloc, FaultText::Usage, "usage")?);
    assert!(rt; shows(alloc, FaultText::BadOrigin, "bad origin")?);
    assert!(rt; shows(alloc, FaultText::from(Stop::Memory), "no memory")?);
    assert!(rt; shows(alloc, FaultText::from(Stop::Source), "R16")?);
    assert!(rt; shows(alloc, FaultText::from(Stop::Sink), "P1")?);
    assert!(rt; shows(alloc, FaultText::NotBound, "bind")?);
    assert!(rt; shows(alloc, TurnFault::ReceiveFailed, "U1")?);
    assert!(rt; shows(alloc, TurnFault::SendFailed, "U2")?);
    assert!(rt; shows(alloc, StreamFault::SourceFailed, "S1")?);
    assert!(rt; shows(alloc, StreamFault::SinkFailed, "S2")?);
    assert!(rt; shows(alloc, StreamFault::Cut, "S3")?);
    Ok(())
}
