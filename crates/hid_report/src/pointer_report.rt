//! The pointer report of an interface.
ghost use Rattle.std.specs.Prelude.{◌≡◌, ◌<◌, Bool, Option};
ghost use Rattle.std.specs.Option.{option_map};
ghost use Rattle.hid_report.specs.Pointer.{IsSmall};
ghost use Rattle.hid_report.specs.Sources.{source_at, report_in, buttons_by, sample_by, IsSound};

use crate::bit_place::BitPlace;
use crate::bit_size::BitSize;
use crate::field::Field;
use crate::flag_row::row_of;
use crate::number::number_at;
use crate::page::{BUTTON_PAGE, WHEEL, X, Y};
use crate::report_form::ReportForm;
use crate::source::{Source, motion_from, weight_from};
use psd_base::Sample;

/// The form of the pointer report, and what each usage of a pointer is read from, if it is in the report. It
/// is found once, when the layout is made.
#[derive(Clone, Copy)]
pub struct PointerReport {
    pub form: ReportForm,
    /// The first of five bits that are the buttons, if they lie in a row.
    row: Option<BitPlace>,
    /// Buttons 1 to 5.
    first: Option<Source>,
    second: Option<Source>,
    third: Option<Source>,
    fourth: Option<Source>,
    fifth: Option<Source>,
    x: Option<Source>,
    y: Option<Source>,
    wheel: Option<Source>,
}

/// What a usage is read from in the report of this ID.
fn source_in(fields: &[Field], numbered: bool, id: u8, usage: u64) -> Option<Source>
    ensures { result ≡ source_at numbered id usage fields.now }
{
    for field in fields {
        match field.find_for(id, usage) {
            None => {}
            Some(j) => return Some(field.source(numbered, j)),
        }
    }
    None
}

impl PointerReport {
    /// The report of this form.
    #[tactic(auto, unfolding(crate::specs::Sources::report_in))]
    fn of(fields: &[Field], numbered: bool, form: ReportForm) -> PointerReport
        ensures { result ≡ report_in numbered fields.now form }
    {
        let first = source_in(fields, numbered, form.id, BUTTON_PAGE + 1);
        let second = source_in(fields, numbered, form.id, BUTTON_PAGE + 2);
        let third = source_in(fields, numbered, form.id, BUTTON_PAGE + 3);
        let fourth = source_in(fields, numbered, form.id, BUTTON_PAGE + 4);
        let fifth = source_in(fields, numbered, form.id, BUTTON_PAGE + 5);
        PointerReport {
            form,
            row: row_of(&first, &second, &third, &fourth, &fifth),
            first,
            second,
            third,
            fourth,
            fifth,
            x: source_in(fields, numbered, form.id, X),
            y: source_in(fields, numbered, form.id, Y),
            wheel: source_in(fields, numbered, form.id, WHEEL),
        }
    }

    /// The buttons that are down, button 1 in the least significant bit.
    #[inline(always)]
    fn buttons(&self, report: &[u8]) -> u8
        requires { IsSound self.now }
        ensures value { result ≡ buttons_by self.now report.now }
        ensures five { result < 32 }
    {
        match self.row {
            Some(place) => number_at(report, place, BitSize::new(5)) as u8,
            None => self.each_button(report),
        }
    }

    /// The same, button by button.
    fn each_button(&self, report: &[u8]) -> u8
        ensures value { result ≡ buttons_by self.now report.now }
        ensures five { result < 32 }
    {
        weight_from(&self.first, report, 1)
            + weight_from(&self.second, report, 2)
            + weight_from(&self.third, report, 4)
            + weight_from(&self.fourth, report, 8)
            + weight_from(&self.fifth, report, 16)
    }

    /// What a report of this form says.
    #[tactic(auto, unfolding(crate::specs::Sources::sample_by))]
    pub fn sample(&self, report: &[u8]) -> Sample
        requires { IsSound self.now }
        ensures value { result ≡ sample_by self.now report.now }
        ensures buttons { result.buttons < 32 }
        ensures x { IsSmall result.x }
        ensures y { IsSmall result.y }
        ensures wheel { IsSmall result.wheel }
    {
        Sample {
            buttons: self.buttons(report),
            x: motion_from(&self.x, report),
            y: motion_from(&self.y, report),
            wheel: motion_from(&self.wheel, report),
        }
    }
}

/// The pointer report of this form, if there is one.
pub fn pointer_report(
    fields: &[Field],
    numbered: bool,
    form: Option<ReportForm>,
) -> Option<PointerReport>
    ensures { result ≡ option_map (report_in numbered fields.now) form }
{
    match form {
        Some(form) => Some(PointerReport::of(fields, numbered, form)),
        None => None,
    }
}
