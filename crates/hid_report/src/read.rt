//! Reading a report descriptor.
ghost use Rattle.std.specs.Prelude.{◌≡◌, ◌<◌, ◌^◌, length};
ghost use Rattle.hid_report.specs.LayoutValue.{layout_of};

use crate::fault::{LayoutFault, LayoutWhy};
use crate::layout::Layout;
use crate::pass::Pass;

/// Reads a report descriptor (HID 1.11, 6.2.2): its layout, or its first fault. It takes no memory.
pub fn read_layout(bytes: &[u8]) -> Result<Layout, LayoutFault>
    requires { length bytes.now < 2 ^ 16 }
    ensures { result ≡ layout_of bytes.now }
{
    let mut pass = Pass::new();
    let mut at = 0;
    while at < bytes.len() {
        match pass.take_first(&bytes[at..]) {
            Ok(size) => at += size,
            Err(why) => return Err(LayoutFault { at: at as u16, why }),
        }
    }
    if pass.depth > 0 {
        return Err(LayoutFault {
            at: at as u16,
            why: LayoutWhy::Unbalanced,
        });
    }
    Ok(Layout::of(pass))
}
