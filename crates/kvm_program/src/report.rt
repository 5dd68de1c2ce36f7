//! The report of a run that came to its end.
ghost use Rattle.std.specs.Prelude.{◌≡◌, ℕ, ◌+◌, ◌*◌, ◌≤◌, [], ◌++◌, length, codes};
ghost use Rattle.std.specs.Fmt.{decimal};
ghost use Rattle.arrayvec.specs.ArrayVec.{array_vec_len};
ghost use Rattle.kvm_program.specs.Report.{report_text, counts_text, port_text};

use port_transcript::{TEXT_SIZE, Text, append, append_number};
use psd_base::port::MAX_PORTS;
use psd_base::summary::Summary;

/// The most bytes of a line of the report.
pub const REPORT_LINE_SIZE: usize = 40;

/// The report: the counts, and then the bytes of each port's transcript, one line each.
#[tactic(auto, unfolding(crate::specs::Report::report_text))]
pub fn report(summary: &Summary) -> Text
    requires { summary.now.ports ≤ MAX_PORTS }
    ensures { result.items ≡ report_text summary.now }
{
    let mut text = Text::new();
    append_count(&mut text, b"events ", summary.events);
    append_count(&mut text, b"ports ", u32::from(summary.ports));
    append_count(&mut text, b"refused ", summary.refused);
    append_count(&mut text, b"left ", summary.left);
    append_ports(&mut text, &summary.bytes[..summary.ports as usize]);
    text
}

/// Appends a line of a name and a number.
pub fn append_count(text: &mut Text, name: &[u8], count: u32)
    requires name { length name.now ≤ 10 }
    requires room { array_vec_len text.old + REPORT_LINE_SIZE ≤ TEXT_SIZE }
    ensures items { text.new.items ≡ text.old.items ++ (name.now ++ decimal count ++ codes "\n") }
    ensures len { array_vec_len text.new ≤ array_vec_len text.old + REPORT_LINE_SIZE }
{
    append(text, name);
    append_number(text, count);
    append(text, b"\n");
}

/// Appends the lines of the ports, port 1 first.
fn append_ports(text: &mut Text, counts: &[u64])
    requires few { length counts.now ≤ MAX_PORTS }
    requires room { array_vec_len text.old ≤ 4 * REPORT_LINE_SIZE }
    ensures { text.new.items ≡ text.old.items ++ counts_text 1 counts.now }
{
    for (place, count) in counts.iter().enumerate() {
        append_port(text, place as u64 + 1, *count);
    }
}

/// Appends the line of one port.
#[tactic(auto, unfolding(crate::specs::Report::port_text))]
fn append_port(text: &mut Text, port: u64, count: u64)
    requires { array_vec_len text.old + 2 * REPORT_LINE_SIZE ≤ TEXT_SIZE }
    ensures items { text.new.items ≡ text.old.items ++ port_text port count }
    ensures len { array_vec_len text.new ≤ array_vec_len text.old + 2 * REPORT_LINE_SIZE }
{
    append(text, b"port ");
    append_number(text, port);
    append(text, b" ");
    append_number(text, count);
    append(text, b"\n");
}
