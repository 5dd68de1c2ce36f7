//! One entry of a list of rules.
ghost use Rattle.std.specs.Prelude.{◌≡◌, ◌≤◌, codes, IfSome};
ghost use Rattle.toml.specs.Data.{get_member};
ghost use Rattle.toml.specs.View.{view, table_view};
ghost use Rattle.admin_rules.specs.Keys.{all_keys};
ghost use Rattle.admin_rules.specs.Entry as spec;

use crate::keys::{has_no_keys, value_at};
use peripheral_filter::Rule;
use psd_base::console::Plug;
use toml::{Table, Value};

/// The rule that an entry gives; none where the entry is faulty.
pub fn rule_of(entry: &Value) -> Option<Rule>
    ensures { result ≡ spec.rule_of (view entry.now) }
{
    match entry.as_table() {
        Some(table) => rule_in(table),
        None => None,
    }
}

/// The rule that an entry's table gives; none where it is faulty.
#[tactic(auto, unfolding(crate::specs::Entry::rule_in))]
fn rule_in(table: &Table) -> Option<Rule>
    ensures { result ≡ spec.rule_in (table_view table.now) }
{
    if has_no_keys(table) || !has_entry_keys(table) {
        return None;
    }
    rule_from(table)
}

/// The rule of the four parts; none where one is faulty.
fn rule_from(table: &Table) -> Option<Rule>
    ensures { result ≡ spec.rule_from
        (spec.part spec.plug_of (get_member (codes "plug") (table_view table.now)))
        (spec.part (spec.number_of 65535) (get_member (codes "vendor") (table_view table.now)))
        (spec.part (spec.number_of 65535) (get_member (codes "product") (table_view table.now)))
        (spec.part (spec.number_of 255) (get_member (codes "class") (table_view table.now))) }
{
    let plug = plug_at(table)?;
    let vendor = number_at(table, "vendor", u16::MAX)?;
    let product = number_at(table, "product", u16::MAX)?;
    let class = class_at(table)?;
    Some(Rule {
        plug,
        vendor,
        product,
        class,
    })
}

/// Whether the table has only keys that an entry may have.
fn has_entry_keys(table: &Table) -> bool
    ensures { result ≡ all_keys spec.is_entry_key (table_view table.now) }
{
    'members: for (key, _value) in table.iter() {
        if !is_entry_key(key.as_str()) {
            return false;
        }
    }
    true
}

#[tactic(auto, unfolding(crate::specs::Entry::is_entry_key))]
fn is_entry_key(key: &str) -> bool
    ensures { result ≡ spec.is_entry_key key.now }
{
    key == "plug" || key == "vendor" || key == "product" || key == "class"
}

/// The part `plug`: nothing where the key is missing, no answer where its value is faulty.
fn plug_at(table: &Table) -> Option<Option<Plug>>
    ensures { result ≡ spec.part spec.plug_of (get_member (codes "plug") (table_view table.now)) }
{
    match value_at(table, "plug") {
        None => Some(None),
        Some(value) => match plug_of(value) {
            Some(plug) => Some(Some(plug)),
            None => None,
        },
    }
}

fn plug_of(value: &Value) -> Option<Plug>
    ensures { result ≡ spec.plug_of (view value.now) }
{
    match value.as_str() {
        Some(name) => plug_named(name),
        None => None,
    }
}

#[tactic(auto, unfolding(crate::specs::Entry::plug_named))]
fn plug_named(name: &str) -> Option<Plug>
    ensures { result ≡ spec.plug_named name.now }
{
    if name == "keyboard" {
        Some(Plug::Keyboard)
    } else if name == "mouse" {
        Some(Plug::Mouse)
    } else if name == "token" {
        Some(Plug::Token)
    } else {
        None
    }
}

/// The part `class`, as `number_at`.
fn class_at(table: &Table) -> Option<Option<u8>>
    ensures { result ≡ spec.part (spec.number_of 255) (get_member (codes "class") (table_view table.now)) }
{
    match number_at(table, "class", 255) {
        Some(Some(number)) => Some(Some(number as u8)),
        Some(None) => Some(None),
        None => None,
    }
}

/// A part that is a number of at most `most`: nothing where the key is missing, no answer where its value is faulty.
fn number_at(table: &Table, key: &str, most: u16) -> Option<Option<u16>>
    ensures value { result ≡ spec.part (spec.number_of most) (get_member key.now (table_view table.now)) }
    ensures range { IfSome result (λ part. IfSome part (λ number. number ≤ most)) }
{
    match value_at(table, key) {
        None => Some(None),
        Some(value) => match number_of(value, most) {
            Some(number) => Some(Some(number)),
            None => None,
        },
    }
}

fn number_of(value: &Value, most: u16) -> Option<u16>
    ensures value { result ≡ spec.number_of most (view value.now) }
    ensures range { IfSome result (λ number. number ≤ most) }
{
    match value.as_integer() {
        Some(number) => number_in(number, most),
        None => None,
    }
}

fn number_in(number: i64, most: u16) -> Option<u16>
    ensures value { result ≡ spec.number_in most number }
    ensures range { IfSome result (λ number. number ≤ most) }
{
    if number >= 0 && number <= i64::from(most) {
        Some(number as u16)
    } else {
        None
    }
}
