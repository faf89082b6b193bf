// A worked row, and rounds that another implementation counted.
use homa_plain::Settings;
use quiet_call::quiet_rounds;
use std::test::Fail;

#[test]
fn the_longest_request(rt: HostRuntime) -> Result<(), Fail> {
    assert_eq!(rt;
        quiet_rounds(rt.alloc(), &Settings::usual(), 1_000_000, 1)?,
        200
    );
    Ok(())
}

#[test]
fn small_pieces(rt: HostRuntime) -> Result<(), Fail> {
    let settings = Settings {
        seg: 1,
        rate: 64,
        window: 1000,
        unsched: 1000,
        rebalance: 1,
        pages: 5,
        ..Settings::usual()
    };
    assert!(rt; settings.check().is_ok());
    assert_eq!(rt; quiet_rounds(rt.alloc(), &settings, 20_000, 20_000)?, 625);
    Ok(())
}
