//! The report of a mouse (HID 1.11, appendix B.2), with a wheel.
ghost use Rattle.std.specs.Prelude.{◌≡◌};
ghost use Rattle.emulated_mouse.specs.Report.{byte_of, report, released, report_bytes};

use crate::buttons::Buttons;
use crate::motion::Piece;

/// The bytes of a report.
const SIZE: usize = 4;

/// What one report says: the buttons that are down, and how far the mouse moved.
#[derive(Drop)]
pub struct Report {
    pub buttons: Buttons,
    pub moved: Piece,
}

impl Report {
    /// No button is down, and nothing moved.
    pub fn released() -> Report
        ensures { result ≡ released }
    {
        Report {
            buttons: Buttons::none(),
            moved: Piece::STILL,
        }
    }

    /// Its four bytes: a bit for each button, X, Y and the wheel, as signed bytes.
    pub fn bytes(&self) -> [u8; SIZE]
        ensures { result ≡ report_bytes self.now }
    {
        bytes_of(&self.buttons, self.moved)
    }
}

/// The bytes of a report with these buttons and this motion.
pub fn bytes_of(buttons: &Buttons, moved: Piece) -> [u8; SIZE]
    ensures { result ≡ report_bytes (report buttons.now moved) }
{
    [
        buttons.bits(),
        byte_of(moved.x),
        byte_of(moved.y),
        byte_of(moved.wheel),
    ]
}

/// A count as a byte in two's complement.
fn byte_of(count: i8) -> u8
    ensures { result ≡ byte_of count }
{
    if count < 0 {
        (256 + count as i16) as u8
    } else {
        count as u8
    }
}
