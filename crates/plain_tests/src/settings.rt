use homa_plain::*;
use std::test::Fail;

#[test]
fn settings_in_their_order(rt: HostRuntime) -> Result<(), Fail> {
    let usual = Settings::usual();
    assert_eq!(rt; usual.check(), Ok(()));
    let fault = |settings: Settings| settings.check();
    let seg = Settings {
        seg: 1401,
        wire: 3,
        ..usual
    };
    assert_eq!(rt; fault(seg), Err(SettingFault::OutOfRange(Name::Seg)));
    let wire = Settings {
        wire: 3,
        window: 8,
        ..usual
    };
    assert_eq!(rt; fault(wire), Err(SettingFault::OutOfRange(Name::Wire)));
    let window = Settings {
        window: 8,
        rate: 1000,
        ..usual
    };
    assert_eq!(rt; fault(window), Err(SettingFault::UnschedOverWindow));
    let rate = Settings {
        rate: 1000,
        ..usual
    };
    assert_eq!(rt; fault(rate), Err(SettingFault::RateUnderSeg));
    Ok(())
}

#[test]
fn datagrams_and_further_calls(rt: HostRuntime) -> Result<(), Fail> {
    let mut frame = Frame::empty();
    frame.set(b"abc");
    frame.set(b"de");
    assert_eq!(rt; frame.bytes(), b"de".as_slice());
    let mut more = More::empty();
    more.push(1, 7);
    more.push(2, 0);
    assert_eq!(rt; more.calls(), [(1, 7), (2, 0)].as_slice());
    Ok(())
}
