//! Small sessions at the panel.
use psd_base::console::Panel;
use psd_base::port::PortId;
use selector::{Move, Selector};
use std::test::Fail;

#[test]
fn selects_a_held_port(rt: HostRuntime) -> Result<(), Fail> {
    let first = PortId::new(1).ok_or("port")?;
    let mut selector = Selector::new();
    selector.panel(10, &Panel::Guard(true));
    selector.panel(10, &Panel::Button(first, true));
    assert!(rt; !selector.buttons_up());
    assert_eq!(rt; selector.clock(109, true), Move::Stay);
    assert_eq!(rt; selector.selected(), None);
    assert_eq!(rt; selector.clock(110, true), Move::Enter(first));
    assert_eq!(rt; selector.selected(), Some(first));
    selector.panel(120, &Panel::Button(first, false));
    selector.panel(120, &Panel::Guard(false));
    assert!(rt; selector.buttons_up());
    Ok(())
}

#[test]
fn waits_until_nothing_is_pressed(rt: HostRuntime) -> Result<(), Fail> {
    let first = PortId::new(1).ok_or("port")?;
    let second = PortId::new(2).ok_or("port")?;
    let mut selector = Selector::new();
    selector.panel(0, &Panel::Guard(true));
    selector.panel(0, &Panel::Button(first, true));
    assert_eq!(rt; selector.clock(100, true), Move::Enter(first));
    selector.panel(150, &Panel::Button(first, false));
    selector.panel(150, &Panel::Button(second, true));
    assert_eq!(rt; selector.clock(250, false), Move::Leave(first, second));
    assert_eq!(rt; selector.selected(), None);
    selector.panel(260, &Panel::Guard(false));
    assert_eq!(rt; selector.clock(270, false), Move::Stay);
    assert_eq!(rt; selector.clock(300, true), Move::Enter(second));
    Ok(())
}
