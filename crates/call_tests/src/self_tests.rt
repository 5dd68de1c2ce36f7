//! Small self-tests.
ghost use Rattle.fail_secure.specs.Health.{IsUnfinished};

use fail_secure::Health;

/// Checks 1, 2 and 3 passed.
fn nearly_tested() -> Health
    ensures { IsUnfinished result }
{
    Health::new()
        .report(1, true, true)
        .report(2, true, true)
        .report(3, true, true)
}

#[test]
fn wakes_when_all_checks_passed(rt: HostRuntime) {
    let health = nearly_tested().report(3, true, true);
    assert_eq!(rt; health, Health::Testing { passed: 7 });
    assert_eq!(rt; health.report(4, true, true), Health::Alive);
    assert_eq!(rt; health.report(4, true, false), Health::Dark);
}

#[test]
fn goes_dark_for_good(rt: HostRuntime) {
    let alive = Health::new()
        .report(4, true, true)
        .report(2, true, false)
        .report(1, true, true)
        .report(3, true, true);
    assert_eq!(rt; alive.report(1, true, false), Health::Alive);
    let dark = alive.report(1, false, true);
    assert_eq!(rt; dark, Health::Dark);
    assert_eq!(rt; alive.tamper(), Health::Dark);
    assert_eq!(rt; dark.report(1, true, true), Health::Dark);
    assert_eq!(rt;
        nearly_tested().tamper().report(4, true, true),
        Health::Dark
    );
}
