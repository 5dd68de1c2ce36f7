//! Reading pointer reports.
ghost use Rattle.std.specs.Prelude.{◌≡◌, ◌<◌, IfSome};
ghost use Rattle.hid_report.specs.Pointer.{pointer_of, IsSmall};
ghost use Rattle.hid_report.specs.Sources.{pointer_by, IsSound};

use crate::layout::Layout;
use crate::pointer_report::PointerReport;
use psd_base::Sample;

impl Layout {
    /// The buttons and the motion of a report of the interface. None where there is no usable pointer field
    /// or the bytes aren't a pointer report (its ID and length).
    #[tactic(auto, using(crate::proofs::SourceLaws::source_laws))]
    pub fn pointer(&self, report: &[u8]) -> Option<Sample>
        ensures value { result ≡ pointer_of self.now report.now }
        ensures buttons { IfSome result (λ sample. sample.buttons < 32) }
        ensures x { IfSome result (λ sample. IsSmall sample.x) }
        ensures y { IfSome result (λ sample. IsSmall sample.y) }
        ensures wheel { IfSome result (λ sample. IsSmall sample.wheel) }
    {
        read_pointer(self.pointer_report(), self.is_numbered(), report)
    }
}

/// What a report says by the pointer report that there is.
#[inline(always)]
fn read_pointer(pointer: &Option<PointerReport>, numbered: bool, report: &[u8]) -> Option<Sample>
    requires { IfSome pointer.now IsSound }
    ensures value { result ≡ pointer_by numbered pointer.now report.now }
    ensures buttons { IfSome result (λ sample. sample.buttons < 32) }
    ensures x { IfSome result (λ sample. IsSmall sample.x) }
    ensures y { IfSome result (λ sample. IsSmall sample.y) }
    ensures wheel { IfSome result (λ sample. IsSmall sample.wheel) }
{
    match pointer {
        None => None,
        Some(pointer) => {
            if !pointer.form.fits(numbered, report) {
                return None;
            }
            Some(pointer.sample(report))
        }
    }
}
