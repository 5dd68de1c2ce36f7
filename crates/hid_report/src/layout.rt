//! The layout of the reports of one interface.
ghost use Rattle.std.specs.Prelude.{◌≡◌, List, Option, is_some};
ghost use Rattle.std.specs.List.{list_any};
ghost use Rattle.std.specs.Option.{option_map};
ghost use Rattle.hid_report.specs.declared.item.Item.{Item};
ghost use Rattle.hid_report.specs.Elements.{is_absolute_field};
ghost use Rattle.hid_report.specs.LayoutValue.{LayoutValue, reading_of};
ghost use Rattle.hid_report.specs.Sources.{report_in, form_in, IsFoundIn};
ghost use Rattle.hid_report.specs.State.{state};

use crate::element::Wanted;
use crate::field::Field;
use crate::pass::Pass;
use crate::pointer_report::{PointerReport, pointer_report};
use crate::report_form::ReportForm;
use arrayvec::ArrayVec;
use std::marker::Model;

/// What a report descriptor says of the reports of its interface. It takes no memory.
#[derive(Drop)]
pub struct Layout {
    fields: ArrayVec<Field, 64>,
    /// Whether the reports begin with an ID byte.
    numbered: bool,
    /// The key report: the one with the first usable key field.
    keys: Option<ReportForm>,
    /// The pointer report: the one with the first usable pointer field.
    pointer: Option<PointerReport>,
}

impl Model for Layout {
    ghost Value = { LayoutValue };

    ghost view = { λ layout. record {
      fields = layout.fields.items;
      numbered = layout.numbered;
      keys = layout.keys;
      pointer = form_in layout.pointer;
    } };

    ghost invariant = { λ layout. IsFoundIn layout.numbered layout.fields.items layout.pointer };
}

impl Layout {
    /// The layout after all items.
    pub(crate) fn of(pass: Pass) -> Layout
        ensures { (past : List Item) → pass ≡ state past → result ≡ reading_of past }
    {
        let keys = pass.form_with(Wanted::Key);
        let form = pass.form_with(Wanted::Pointer);
        let pointer = pointer_report(pass.fields.as_slice(), pass.numbered, form);
        Layout {
            numbered: pass.numbered,
            fields: pass.fields,
            keys,
            pointer,
        }
    }

    /// Whether there is a usable key field.
    pub fn has_keys(&self) -> bool
        ensures { result ≡ is_some self.now.keys }
    {
        self.keys.is_some()
    }

    /// Whether there is a usable button or motion field.
    pub fn has_pointer(&self) -> bool
        ensures { result ≡ is_some self.now.pointer }
    {
        self.pointer.is_some()
    }

    /// Whether there is an X or a Y that isn't relative.
    pub fn has_absolute(&self) -> bool
        ensures { result ≡ list_any is_absolute_field self.now.fields }
    {
        for field in self.fields.as_slice() {
            if field.is_usable(Wanted::Axis) {
                return true;
            }
        }
        false
    }

    pub(crate) fn fields(&self) -> &[Field]
        ensures { result.now ≡ self.now.fields }
    {
        self.fields.as_slice()
    }

    pub(crate) fn is_numbered(&self) -> bool
        ensures { result ≡ self.now.numbered }
    {
        self.numbered
    }

    pub(crate) fn key_form(&self) -> Option<ReportForm>
        ensures { result ≡ self.now.keys }
    {
        self.keys
    }

    pub(crate) fn pointer_report(&self) -> &Option<PointerReport>
        ensures { result.now ≡ option_map (report_in self.now.numbered self.now.fields) self.now.pointer }
    {
        &self.pointer
    }
}
